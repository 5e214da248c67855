// Six T-state places before and after an edit, and whether it may be done.
ghost use Rattle.std.specs.Prelude.{◌≡◌, ◌+◌, ◌≤◌, ◌<◌, length, IsTrue};
ghost use Rattle.opcode.specs.Record.{six};
ghost use Rattle.opcode.specs.Timing.{written, inserted, removed, may_extend, may_insert, may_remove};

use opcode::counts::TStates;
use opcode::record::OpCode;

// With s over the places from `to` on.
#[tactic(auto, unfolding(opcode::specs::Timing::written))]
pub(crate) fn with_written(mut t: [TStates; 6], to: usize, s: &[TStates]) -> [TStates; 6]
    requires { to + length s.now ≤ 6 }
    ensures { result ≡ written t to s.now }
{
    t[to..to + s.len()].copy_from_slice(s);
    t
}

// With s put in before place pos: what stands there moves back, and what passes the sixth place is lost.
#[tactic(auto, using(crate::proofs::Laws::copying, crate::proofs::Laws::inserting))]
pub(crate) fn with_inserted(mut t: [TStates; 6], pos: usize, s: &[TStates]) -> [TStates; 6]
    requires { pos + length s.now ≤ 6 }
    ensures { result ≡ six (inserted t pos s.now) }
{
    t.copy_within(pos..OpCode::PLACES - s.len(), pos + s.len());
    with_written(t, pos, s)
}

// Without place pos: what stands behind it moves up, and the sixth place stays as it is.
#[tactic(auto, using(crate::proofs::Laws::copying, crate::proofs::Laws::removing))]
pub(crate) fn without(mut t: [TStates; 6], pos: usize) -> [TStates; 6]
    requires { pos < 6 }
    ensures { result ≡ removed t pos }
{
    t.copy_within(pos + 1.., pos);
    t
}

// Is there room for n more than the m filled ones?
#[tactic(auto, unfolding(opcode::specs::Timing::may_extend))]
pub(crate) fn may_extend(m: usize, n: usize) -> bool
    ensures rule { result ≡ may_extend m n }
    ensures room { IsTrue result → m + n ≤ 6 }
{
    m <= OpCode::PLACES && n <= OpCode::PLACES - m
}

// Is there room for n more than the m filled ones, and is pos one of these or the next?
#[tactic(auto, unfolding(opcode::specs::Timing::may_insert, opcode::specs::Timing::may_extend))]
pub(crate) fn may_insert(m: usize, pos: usize, n: usize) -> bool
    ensures rule { result ≡ may_insert m pos n }
    ensures room { IsTrue result → (pos ≤ m) × (m + n ≤ 6) }
{
    pos <= m && may_extend(m, n)
}

// Is pos one of m filled places, at most six?
#[tactic(auto, unfolding(opcode::specs::Timing::may_remove))]
pub(crate) fn may_remove(m: usize, pos: usize) -> bool
    ensures rule { result ≡ may_remove m pos }
    ensures filled { IsTrue result → (pos < m) × (m ≤ 6) }
{
    m <= OpCode::PLACES && pos < m
}
