// Owners that lend a record of their own to two edits, one behind the other, and have it back.
#![tactic(auto)]

ghost use Rattle.std.specs.Prelude.{◌≡◌};
ghost use Rattle.owner.specs.Owner.{twice};
ghost use Rattle.opcode.specs.Timing.{insert_of, extend_of, push_of, remove_of};

use lending::owns_and_lends;
use lent::{tstates_extend, tstates_insert, tstates_push, tstates_remove};
use opcode::counts::TStates;
use opcode::record::OpCode;
use opcode::timing::Timing;

// Whether each of two edits was done, and the record as it then is.
#[derive(Clone, Copy)]
pub struct Twice {
    pub first: bool,
    pub second: bool,
    pub rec: OpCode,
}

// The record with `more` behind its filled places, and one machine cycle more.
pub fn extend_and_push(rec: OpCode, more: Timing, t: TStates) -> Twice
    ensures { result ≡ twice (extend_of rec more) (λ x. push_of x t) }
{
    let (first, second, rec) = owns_and_lends(
        rec,
        |rec| tstates_extend(rec, more),
        |rec| tstates_push(rec, t),
    );
    Twice { first, second, rec }
}

// The record with `more` before place `pos`, then without place `out`.
pub fn insert_and_remove(rec: OpCode, pos: usize, more: Timing, out: usize) -> Twice
    ensures { result ≡ twice (insert_of rec pos more) (λ x. remove_of x out) }
{
    let (first, second, rec) = owns_and_lends(
        rec,
        |rec| tstates_insert(rec, pos, more),
        |rec| tstates_remove(rec, out),
    );
    Twice { first, second, rec }
}
