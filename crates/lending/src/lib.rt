// Records lent by their owner: what an edit of one leaves, in specs/, and the laws of such edits and of the owners
// that lend.
#![tactic(auto)]

ghost use Rattle.std.specs.Prelude.{is_ok};
ghost use Rattle.std.specs.Fn.{FnOnceReturnsAtMut};
ghost use Rattle.opcode.specs.declared.record.OpCode.{OpCode};
ghost use Rattle.opcode.specs.Timing.{rec_of};
ghost use Rattle.lending.specs.Lent.{answered};

use opcode::record::OpCode;
use opcode::timing::Edited;

// An edit of a lent record, by the same edit by value: the record is taken whole, that of the answer is stored, and
// what the answer says is said. So it meets whatever holds of every answer of the edit by value.
pub fn edits<F: FnOnce(OpCode) -> Edited>(rec: &mut OpCode, by_value: F) -> bool
    requires { F.pre by_value rec.old }
    ensures { F.post by_value rec.old (answered result rec.new) }
{
    match by_value(*rec) {
        Ok(edited) => {
            *rec = edited;
            true
        }
        Err(kept) => {
            *rec = kept;
            false
        }
    }
}

// A record of the function's own that is lent to an edit comes back as the edit left it.
pub fn lends<F: FnOnce(&mut OpCode) -> bool>(mut rec: OpCode, edit: F) -> Edited
    requires { F.IsAlwaysCallable edit }
    ensures { FnOnceReturnsAtMut F.FnOnce edit rec (is_ok result) (rec_of result) }
{
    if edit(&mut rec) { Ok(rec) } else { Err(rec) }
}

// Two edits, one behind the other, of a record of the function's own: the second finds what the first left, and
// what that leaves is given with what each said.
pub fn owns_and_lends<F: FnOnce(&mut OpCode) -> bool, G: FnOnce(&mut OpCode) -> bool>(
    mut rec: OpCode,
    first: F,
    second: G,
) -> (bool, bool, OpCode)
    requires first { F.IsAlwaysCallable first }
    requires second { G.IsAlwaysCallable second }
    ensures { (between : OpCode) × FnOnceReturnsAtMut F.FnOnce first rec result.0 between × FnOnceReturnsAtMut G.FnOnce second between result.1 result.2 }
{
    let once = first(&mut rec);
    let twice = second(&mut rec);
    (once, twice, rec)
}
