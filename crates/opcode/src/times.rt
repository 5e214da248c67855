// The least and the most that a row takes.
ghost use Rattle.std.specs.Prelude.{◌≡◌, ◌≤◌};
ghost use Rattle.opcode.specs.Record.{sum};
ghost use Rattle.opcode.specs.Times.{pace_of, has_condition, least_by, most_by, span_of};

use super::counts::{Pace, RowTime, TStates};
use super::instruction::Instruction;
use super::operand::{Operand, Place};

fn pace(ins: Instruction) -> Pace
    ensures { result ≡ pace_of ins }
{
    match ins {
        Instruction::JR => Pace::ShorterIf(7),
        Instruction::DJNZ => Pace::Shorter(8),
        Instruction::CALL => Pace::ShorterIf(10),
        Instruction::RET => Pace::ShorterIf(5),
        _ if ins.repeats() => Pace::Repeats,
        _ => Pace::Steady,
    }
}

fn has_condition(place: Place) -> bool
    ensures { result ≡ has_condition place }
{
    matches!(place, Place::Of(Operand::FlagCondition(_)))
}

fn least_by(pace: Pace, conditional: bool, sum: u16) -> u16
    ensures { result ≡ least_by pace conditional sum }
{
    match pace {
        Pace::Shorter(k) => k,
        Pace::ShorterIf(k) if conditional => k,
        Pace::Steady | Pace::ShorterIf(_) => sum,
        Pace::Repeats => 16,
    }
}

fn most_by(pace: Pace, sum: u16) -> u16
    requires { sum ≤ 1530 }
    ensures { result ≡ most_by pace sum }
{
    match pace {
        Pace::Steady | Pace::Shorter(_) | Pace::ShorterIf(_) => sum,
        Pace::Repeats => sum + 5,
    }
}

// The least and the most that a row takes.
#[derive(Clone, Copy)]
pub struct Span {
    pub least: RowTime,
    pub most: RowTime,
}

// Those of a row, by its instruction, its first operand and its six places.
pub fn row_times(ins: Instruction, op1: Place, t: [TStates; 6]) -> Span
    ensures { result ≡ span_of ins op1 (sum t) }
{
    let pace = pace(ins);
    let sum = total(t);
    let least = RowTime(least_by(pace, has_condition(op1), sum));
    let most = RowTime(most_by(pace, sum));
    Span { least, most }
}

// The sum of six T-state places.
#[tactic(auto, using(crate::proofs::Sum::sum_more), unfolding(crate::specs::Record::sum))]
fn total(t: [TStates; 6]) -> u16
    ensures sum { result ≡ sum t }
    ensures most { result ≤ 1530 }
{
    let mut sum = 0;
    for place in t {
        sum += place.0 as u16;
    }
    sum
}
