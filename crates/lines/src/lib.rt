// The rows of an image, by the promises of the decoder and of the line.
#![tactic(auto)]

ghost use Rattle.std.specs.Prelude.{◌≡◌, ◌+◌, ◌<◌, leb, length, drop};
ghost use Rattle.writer.specs.Puts.{Puts};
ghost use Rattle.writer.specs.Wrote.{Wrote};
ghost use Rattle.image.specs.Places.{window};
ghost use Rattle.listing.specs.Rows.{line_of, passed_of};
ghost use Rattle.listing.specs.Answers.{told_by, row_outcome};
ghost use Rattle.listing.specs.Page.{rows_outcome};

use image::Image;
use line::{LINE_MAX, passed, put_line};
use listing::{Lines, ListingRefusal};
use table::Mode;
use window::decode_at;
use writer::{Writer, give};

// The row at a place of the image: its line, and the bytes of the image that it passes.
fn put_row(mode: Mode, image: &Image, place: usize, out: &mut Writer) -> usize
    requires { place < length image.now.bytes.now }
    ensures wrote { Puts out.old (line_of mode (image.now.origin + place) (window (drop place image.now.bytes.now))) out.new }
    ensures passed { result ≡ passed_of mode (window (drop place image.now.bytes.now)) }
{
    let decoded = decode_at(mode, image.bytes, place);
    put_line(out, image.address_of(place), decoded, image.bytes[place]);
    passed(decoded)
}

// The row at a place of the image, its line to the front of lent bytes.
fn row_in(mode: Mode, image: &Image, place: usize, line: &mut [u8]) -> Lines
    requires { place < length image.now.bytes.now }
    ensures wrote { Wrote line.old 0 (line_of mode (image.now.origin + place) (window (drop place image.now.bytes.now))) line.new result.count }
    ensures passed { result.passed ≡ passed_of mode (window (drop place image.now.bytes.now)) }
{
    let mut writer = Writer::new(line);
    let passed = put_row(mode, image, place, &mut writer);
    Lines {
        count: writer.at,
        passed,
    }
}

// The row at an address of the image, whose first byte stands at `origin`, in a mode: its line to the front of `out`.
// It is made in a place of its own, so that nothing is written where it does not fit.
pub fn row(
    mode: Mode,
    image: &[u8],
    origin: u16,
    address: u16,
    out: &mut [u8],
) -> Result<Lines, ListingRefusal>
    ensures { told_by result out.new ≡ row_outcome mode image.now origin address out.old }
{
    let image = Image::new(image, origin).ok_or(ListingRefusal::ImageSize)?;
    let place = image.place_of(address).ok_or(ListingRefusal::Nothing)?;
    let mut line = [0u8; LINE_MAX];
    let Lines { count, passed } = row_in(mode, &image, place, &mut line);
    let count = give(&line[..count], out).ok_or(ListingRefusal::NoRoom)?;
    Ok(Lines { count, passed })
}

// Whether the line of the row at a place has that much room; one that has room for the longest is not made for it.
fn has_room(mode: Mode, image: &Image, place: usize, room: usize) -> bool
    requires { place < length image.now.bytes.now }
    ensures { result ≡ leb (length (line_of mode (image.now.origin + place) (window (drop place image.now.bytes.now)))) room }
{
    if LINE_MAX <= room {
        return true;
    }
    let mut line = [0u8; LINE_MAX];
    let mut writer = Writer::new(&mut line);
    put_row(mode, image, place, &mut writer);
    writer.at <= room
}

// The rows from an address on, as many whole lines as fit: their lines to the front of `out`, one behind the other.
pub fn rows(
    mode: Mode,
    image: &[u8],
    origin: u16,
    address: u16,
    out: &mut [u8],
) -> Result<Lines, ListingRefusal>
    ensures { told_by result out.new ≡ rows_outcome mode image.now origin address out.old }
{
    let image = Image::new(image, origin).ok_or(ListingRefusal::ImageSize)?;
    let start = image.place_of(address).ok_or(ListingRefusal::Nothing)?;
    let mut writer = Writer::new(out);
    let mut place = start;
    while place < image.bytes.len() && has_room(mode, &image, place, writer.buf.len() - writer.at) {
        let passed = put_row(mode, &image, place, &mut writer);
        place += passed;
    }
    if place == start {
        return Err(ListingRefusal::NoRoom);
    }
    Ok(Lines {
        count: writer.at,
        passed: place - start,
    })
}
