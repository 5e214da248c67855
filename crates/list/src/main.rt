// The listing program: an image on standard input, its rows on standard output.
#![tactic(auto)]

ghost use Rattle.std.specs.Prelude.{◌≤◌, length, IfOk};

use listing::Lines;
use rom::rows;
use std::io;
use std::io::{ErrorKind, Read, Write};
use table::Mode;

// The longest image that is listed.
const IMAGE_MAX: usize = 32768;

// One byte more than is listed, to tell an image that is too long.
const SPACE: usize = IMAGE_MAX + 1;

// As many bytes of rows as go out at once.
const PAGE: usize = 65536;

// Reads until the input ends or `image` is full, and says how many bytes came.
fn read_image<R: Read>(input: &mut R, image: &mut [u8]) -> io::Result<usize>
    ensures { IfOk result (λ n. n ≤ length image.old) }
{
    let mut done = 0;
    while done < image.len() {
        match input.read(&mut image[done..])? {
            0 => break,
            n => done += n,
        }
    }
    Ok(done)
}

// Prints the rows of an image, as far as they can be written: by the page, to make few calls.
fn print<W: Write>(output: &mut W, image: &[u8]) -> io::Result<()>
    requires { length image.now ≤ 32768 }
{
    let mut page = [0u8; PAGE];
    let mut place = 0;
    while place < image.len() {
        let Ok(Lines { count, passed }) = rows(Mode::Rust, image, 0, place as u16, &mut page) else {
            break;
        };
        output.write_all(&page[..count])?;
        place += passed;
    }
    Ok(())
}

// Lists what can be read into lent bytes, if that is not too long.
fn read_and_list<R: Read, W: Write>(
    input: &mut R,
    output: &mut W,
    space: &mut [u8],
) -> io::Result<()> {
    let size = read_image(input, space)?;
    if IMAGE_MAX < size {
        return output.write_all(b"image too long\n");
    }
    print(output, &space[..size])
}

// A reader that stops before the end is no failure.
fn main(rt: HostRuntime) -> io::Result<()> {
    let mut space = [0u8; SPACE];
    let mut input = rt.stdin();
    let mut output = rt.stdout();
    match read_and_list(&mut input, &mut output, &mut space) {
        Err(error) if error.kind() == ErrorKind::BrokenPipe => Ok(()),
        listed => listed,
    }
}
