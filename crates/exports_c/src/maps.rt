// The check of a map.
ghost use Rattle.std.specs.Prelude.{◌≡◌, false, cond};
ghost use Rattle.marking.specs.Rules.{chart};
ghost use Rattle.marking.specs.Verdict.{number_of, address_of, Verdict};
ghost use Rattle.marking.specs.Check.{check_of};
ghost use Rattle.exports.specs.Modes.{bad_mode, mode_of};
ghost use Rattle.flow.specs.Flow.{look_of};

// Whether a map meets the marking rules in a mode: the marks of an image, whose first byte stands at `origin`, and
// the entries, byte pairs, low first.
#[unsafe(no_mangle)]
pub extern "C" fn z80_map_check(
    mode: u8,
    image: &[u8],
    origin: u16,
    marks: &[u8],
    entries: &[u8],
    address: &mut u32,
) -> u8
    ensures number { result ≡ cond (bad_mode mode) 35 (number_of (check_of (look_of (mode_of mode)) (chart image.now origin marks.now) entries.now)) }
    ensures broken { address.new ≡ cond (bad_mode mode) 0 (address_of (check_of (look_of (mode_of mode)) (chart image.now origin marks.now) entries.now)) }
    ensures rules { bad_mode mode ≡ false → Verdict (look_of (mode_of mode)) (chart image.now origin marks.now) entries.now result address.new }
{
    exports::maps::z80_map_check(mode, image, origin, marks, entries, address)
}
