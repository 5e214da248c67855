// The record of a row as bytes.
ghost use Rattle.std.specs.Prelude.{◌≡◌, cond};
ghost use Rattle.table.specs.Chip.{decode_in};
ghost use Rattle.exports.specs.Modes.{bad_mode, mode_of};
ghost use Rattle.exports.specs.Record.{outcome, record_outcome};

// Decodes `ins` in a mode, says how many bytes are missing where that is Short and, where 24 bytes are lent, writes
// the record, which is empty on a refusal, to the front of `out`.
#[unsafe(no_mangle)]
pub extern "C" fn z80_record(mode: u8, ins: &[u8], out: &mut [u8], missing: &mut u32) -> u8
    ensures { outcome result missing.new out.new ≡ cond (bad_mode mode) (outcome 35 0 out.old) (record_outcome (decode_in (mode_of mode) ins.now) out.old) }
{
    exports::record::z80_record(mode, ins, out, missing)
}
