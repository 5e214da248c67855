// The four edits of the T-state list on a record that its owner lends: done there, or refused and nothing altered.
#![tactic(auto)]

ghost use Rattle.opcode.specs.Timing.{insert_of, extend_of, push_of, remove_of};
ghost use Rattle.lending.specs.Lent.{Leaves};

use lending::edits;
use opcode::counts::TStates;
use opcode::record::OpCode;
use opcode::timing::Timing;

// Puts `more` in before place pos, from 0 to the count.
#[tactic(auto, unfolding(opcode::specs::Timing::insert_of))]
pub fn tstates_insert(rec: &mut OpCode, pos: usize, more: Timing) -> bool
    ensures { Leaves (λ r. insert_of r pos more) rec.old result rec.new }
{
    edits(rec, |was| timing::tstates_insert(was, pos, more))
}

// Puts `more` behind the filled places.
#[tactic(auto, unfolding(opcode::specs::Timing::extend_of))]
pub fn tstates_extend(rec: &mut OpCode, more: Timing) -> bool
    ensures { Leaves (λ r. extend_of r more) rec.old result rec.new }
{
    edits(rec, |was| timing::tstates_extend(was, more))
}

// Adds one machine cycle.
#[tactic(auto, unfolding(opcode::specs::Timing::push_of))]
pub fn tstates_push(rec: &mut OpCode, t: TStates) -> bool
    ensures { Leaves (λ r. push_of r t) rec.old result rec.new }
{
    edits(rec, |was| timing::tstates_push(was, t))
}

// Takes place pos out, from 0 to the count less 1.
#[tactic(auto, unfolding(opcode::specs::Timing::remove_of))]
pub fn tstates_remove(rec: &mut OpCode, pos: usize) -> bool
    ensures { Leaves (λ r. remove_of r pos) rec.old result rec.new }
{
    edits(rec, |was| timing::tstates_remove(was, pos))
}
