// The record of a row as bytes.
ghost use Rattle.std.specs.Prelude.{◌≡◌, cond};
ghost use Rattle.table.specs.Chip.{decode_in};
ghost use Rattle.exports.specs.Modes.{bad_mode, mode_of};
ghost use Rattle.exports.specs.Record.{outcome, record_outcome};

use super::modes::BAD_MODE;
use answers::decodes::{missing as missing_of, number};
use disas::find;
use layout::{SIZE, layout, layout_row};
use opcode::record::OpCode;
use table::{Answer, Mode};
use writer::give;

// Decodes `ins` in a mode, says how many bytes are missing where that is Short and, where 24 bytes are lent, writes
// the record, which is empty on a refusal, to the front of `out`.
pub fn z80_record(mode: u8, ins: &[u8], out: &mut [u8], missing: &mut u32) -> u8
    ensures { outcome result missing.new out.new ≡ cond (bad_mode mode) (outcome 35 0 out.old) (record_outcome (decode_in (mode_of mode) ins.now) out.old) }
{
    let Ok(mode) = Mode::try_from(mode) else {
        *missing = 0;
        return BAD_MODE;
    };
    match find(mode, ins) {
        Ok(found) => {
            *missing = 0;
            if out.len() < SIZE {
                return 4;
            }
            give(&layout_row(found), out);
            0
        }
        Err(refusal) => {
            let answer = Answer::from(refusal);
            *missing = u32::from(missing_of(answer));
            give(&layout(OpCode::new()), out);
            number(answer)
        }
    }
}
