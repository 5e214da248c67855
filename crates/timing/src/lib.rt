// The four edits of a record's T-state list, by value. An edit that lacks room, meets a count over six or names a place
// past the filled ones says no and gives the record back as it came.
#![tactic(auto)]

mod places;

ghost use Rattle.std.specs.Prelude.{◌≡◌, ◌≤◌};
ghost use Rattle.opcode.specs.Timing.{yes, insert_of, extend_of, push_of, remove_of};

use opcode::counts::{MCycles, TStates};
use opcode::record::OpCode;
use opcode::timing::{Edited, Timing};
use places::{may_extend, may_insert, may_remove, with_inserted, with_written, without};

// The record with `more` put in before place pos, from 0 to the count.
#[tactic(auto, unfolding(opcode::specs::Timing::insert_of))]
pub fn tstates_insert(rec: OpCode, pos: usize, more: Timing) -> Edited
    ensures { result ≡ insert_of rec pos more }
{
    let m = rec.mcycles.0 as usize;
    let n = more.mcycles.0 as usize;
    if !may_insert(m, pos, n) {
        return Err(rec);
    }
    let places = with_inserted(rec.tstates, pos, &more.tstates[..n]);
    done(rec, places, m + n)
}

// The record with `more` behind its filled places.
#[tactic(auto, unfolding(opcode::specs::Timing::extend_of))]
pub fn tstates_extend(rec: OpCode, more: Timing) -> Edited
    ensures { result ≡ extend_of rec more }
{
    let m = rec.mcycles.0 as usize;
    let n = more.mcycles.0 as usize;
    if !may_extend(m, n) {
        return Err(rec);
    }
    let places = with_written(rec.tstates, m, &more.tstates[..n]);
    done(rec, places, m + n)
}

// The record with one machine cycle more: of the six places only the first counts.
#[tactic(auto, unfolding(opcode::specs::Timing::push_of, opcode::specs::Timing::extend_of))]
pub fn tstates_push(rec: OpCode, t: TStates) -> Edited
    ensures { result ≡ push_of rec t }
{
    let more = Timing {
        tstates: [t; 6],
        mcycles: MCycles(1),
    };
    tstates_extend(rec, more)
}

// The record without place pos, from 0 to the count less 1.
#[tactic(auto, using(std::proofs::lemmas::List::set_split), unfolding(opcode::specs::Timing::remove_of, opcode::specs::Timing::written))]
pub fn tstates_remove(rec: OpCode, pos: usize) -> Edited
    ensures { result ≡ remove_of rec pos }
{
    let m = rec.mcycles.0 as usize;
    if !may_remove(m, pos) {
        return Err(rec);
    }
    let mut places = without(rec.tstates, pos);
    places[m - 1] = TStates(0);
    done(rec, places, m - 1)
}

// Done: the record with these places, of which the first m are filled.
fn done(rec: OpCode, places: [TStates; 6], m: usize) -> Edited
    requires { m ≤ 6 }
    ensures { result ≡ yes rec places m }
{
    Ok(OpCode {
        tstates: places,
        mcycles: MCycles(m as u8),
        ..rec
    })
}
