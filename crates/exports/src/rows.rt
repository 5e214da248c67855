// The rows of an image.
ghost use Rattle.std.specs.Prelude.{◌≡◌, cond};
ghost use Rattle.exports.specs.Modes.{bad_mode, mode_of};
ghost use Rattle.listing.specs.Answers.{outcome, row_outcome};

use super::modes::BAD_MODE;
use answers::rows::tell;
use rom::row;
use table::Mode;

// The row at an address of the image, whose first byte stands at `origin`, in a mode: its line to the front of
// `out`, the line's count and the bytes passed.
pub fn z80_row(
    mode: u8,
    image: &[u8],
    origin: u16,
    address: u16,
    out: &mut [u8],
    count: &mut u32,
    passed: &mut u32,
) -> u8
    ensures { outcome result count.new passed.new out.new ≡ cond (bad_mode mode) (outcome 35 0 0 out.old) (row_outcome (mode_of mode) image.now origin address out.old) }
{
    let Ok(mode) = Mode::try_from(mode) else {
        *count = 0;
        *passed = 0;
        return BAD_MODE;
    };
    let told = tell(row(mode, image, origin, address, out));
    *count = told.count as u32;
    *passed = told.passed as u32;
    told.number
}
