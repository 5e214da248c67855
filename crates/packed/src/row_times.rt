// The least and the most that a row takes, from its number.
ghost use Rattle.std.specs.Prelude.{cond, ◌≡◌, ◌<◌, ◌≤◌};
ghost use Rattle.opcode.specs.Record.{sum};
ghost use Rattle.packed.specs.Packed.{states_from, span_from};
ghost use Rattle.packed.specs.Paces.{paces_of, pace_digit, quick_of, least_for, most_for};

use super::digits::{digit, instruction, kinds, states};
use super::named::instruction_or_last;
use opcode::counts::RowTime;
use opcode::times::Span;

// By the instruction's number, a digit each: 1 JR, 2 CALL, 3 RET, 4 DJNZ, 5 one that repeats itself, 0 any other.
// Digits and no `match` of them: which one it is cannot be guessed.
#[tactic(auto, unfolding(crate::specs::Paces::paces_of))]
fn paces(part: u8) -> u64
    ensures { result ≡ paces_of part }
{
    match part {
        0 => 0x4000_0505_0002_0000,
        1 => 0x5001_0505_0000_0000,
        2 => 0x0030_0000_0550_0050,
        _ => 0,
    }
}

#[tactic(auto, unfolding(crate::specs::Paces::pace_digit))]
fn pace(n: u8) -> u8
    ensures { result ≡ pace_digit n }
{
    let ins = instruction_or_last(n);
    digit(paces(ins / 16 % 4), ins % 16)
}

// The quick way through, by the pace: a byte each.
#[tactic(auto, unfolding(crate::specs::Paces::quick_of))]
fn quick(pace: u8) -> u16
    requires { pace < 8 }
    ensures { result ≡ quick_of pace }
{
    ((0x10_08_05_0A_07_00u64 >> (pace * 8)) % 256) as u16
}

// The sum of the six T-states.
#[tactic(auto, unfolding(opcode::specs::Record::sum))]
fn total(row: u64) -> u16
    ensures { (result ≡ sum (states_from row)) × (result ≤ 90) }
{
    let [first, second, third, fourth, fifth, sixth] = states(row);
    u16::from(first + second + third + fourth + fifth + sixth)
}

// From which pace on a row has a quick way: with a condition all but 0, without one DJNZ and the rows that repeat
// themselves.
fn steady(conditional: bool) -> u8
    ensures { result ≡ cond conditional 0 3 }
{
    if conditional { 0 } else { 3 }
}

fn least(pace: u8, conditional: bool, sum: u16) -> u16
    requires { pace < 8 }
    ensures { result ≡ least_for pace conditional sum }
{
    let short = quick(pace);
    if steady(conditional) < pace {
        short
    } else {
        sum
    }
}

fn most(pace: u8, sum: u16) -> u16
    requires { sum ≤ 90 }
    ensures { result ≡ most_for pace sum }
{
    if pace == 5 { sum + 5 } else { sum }
}

// A kind whose first digit is 4 is a condition.
#[tactic(auto, using(crate::proofs::Paced::pace_is))]
pub fn row_span(row: u64) -> Span
    ensures { result ≡ span_from row }
{
    let pace = pace(instruction(row)) % 8;
    let [kind1, _, _] = kinds(row);
    let sum = total(row);
    Span {
        least: RowTime(least(pace, kind1 / 16 == 4, sum)),
        most: RowTime(most(pace, sum)),
    }
}
