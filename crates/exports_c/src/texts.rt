// The text of a row.
ghost use Rattle.std.specs.Prelude.{◌≡◌, cond};
ghost use Rattle.table.specs.Chip.{decode_in};
ghost use Rattle.exports.specs.Modes.{bad_mode, mode_of};
ghost use Rattle.wording.specs.Answers.{outcome, text_outcome};

// The chosen parts of the text of `ins`, decoded in a mode, to the front of `out`, their count, and how many bytes
// are missing where the decode is Short.
#[unsafe(no_mangle)]
pub extern "C" fn z80_text(
    mode: u8,
    choice: u8,
    ins: &[u8],
    out: &mut [u8],
    count: &mut u32,
    missing: &mut u32,
) -> u8
    ensures { outcome result count.new missing.new out.new ≡ cond (bad_mode mode) (outcome 35 0 0 out.old) (text_outcome choice (decode_in (mode_of mode) ins.now) out.old) }
{
    exports::texts::z80_text(mode, choice, ins, out, count, missing)
}
