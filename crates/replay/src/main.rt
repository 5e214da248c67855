// Replays the original's answers: for each request on standard input its line on standard output, as README.md says.
#![tactic(auto)]

ghost use Rattle.std.specs.Prelude.{◌≤◌};

use exports::record::z80_record;
use exports::texts::z80_text;
use std::io;
use std::io::{Read, Write};

// The most input bytes of a request.
const INPUT_MAX: usize = 5;

// All of the buffer is printed with a text, also what stands behind the room lent.
const BUFFER_SIZE: usize = 56;

// The choice of a text, or none for the record, the room lent, and the input bytes, of which the first `count` count.
#[derive(Drop)]
struct Request {
    choice: Option<u8>,
    room: usize,
    count: usize,
    bytes: [u8; INPUT_MAX],
    ghost room_in_buffer: { room ≤ 56 },
    ghost count_in_bytes: { count ≤ 5 },
}

impl Request {
    // The next one, unless it is cut off or can't be answered. Its first byte is 0 or one more than the choice.
    fn read<R: Read>(input: &mut R) -> Option<Request> {
        let mut fields = [0u8; INPUT_MAX + 3];
        input.read_exact(&mut fields).ok()?;
        let [asked, room, count, a, b, c, d, e] = fields;
        let (room, count) = (usize::from(room), usize::from(count));
        if BUFFER_SIZE < room || INPUT_MAX < count {
            return None;
        }
        Some(Request {
            choice: asked.checked_sub(1),
            room,
            count,
            bytes: [a, b, c, d, e],
        })
    }

    fn ins(&self) -> &[u8] {
        &self.bytes[..self.count]
    }
}

const DIGITS: [u8; 16] = *b"0123456789ABCDEF";

// A byte as two digits, which go out together: of `{byte:02X}` a zero in front would be a write of its own.
fn hex(byte: u8) -> [u8; 2] {
    [
        DIGITS[usize::from(byte / 16)],
        DIGITS[usize::from(byte % 16)],
    ]
}

// The input bytes, the answer number and the fewest missing bytes.
fn write_head<W: Write>(output: &mut W, ins: &[u8], number: u8, missing: u32) -> io::Result<()> {
    for byte in ins {
        output.write_all(&hex(*byte))?;
        output.write_all(b" ")?;
    }
    write!(output, "= {number} {missing}")
}

// The record's bytes, also those of a refusal, which begin as no record's.
fn write_record<W: Write>(output: &mut W, request: &Request) -> io::Result<()> {
    let ins = request.ins();
    let mut record = [0xFFu8; 24];
    let mut missing = u32::MAX;
    let number = z80_record(0, ins, &mut record, &mut missing);
    write_head(output, ins, number, missing)?;
    for byte in &record {
        output.write_all(b" ")?;
        output.write_all(&hex(*byte))?;
    }
    Ok(())
}

// The count, which begins as no text's, as the missing bytes do, and the buffer as it is then.
fn write_text<W: Write>(output: &mut W, request: &Request, choice: u8) -> io::Result<()> {
    let ins = request.ins();
    let mut buffer = [b'.'; BUFFER_SIZE];
    let mut count = u32::MAX;
    let mut missing = u32::MAX;
    let out = &mut buffer[..request.room];
    let number = z80_text(0, choice, ins, out, &mut count, &mut missing);
    write_head(output, ins, number, missing)?;
    write!(output, " {count} ")?;
    output.write_all(&buffer)
}

fn answer<W: Write>(output: &mut W, request: &Request) -> io::Result<()> {
    match request.choice {
        None => write_record(output, request)?,
        Some(choice) => write_text(output, request, choice)?,
    }
    output.write_all(b"\n")
}

// A proved loop has to end, and nothing says that the input does: it counts up to a number that no run uses up.
fn answer_all<R: Read, W: Write>(input: &mut R, output: &mut W) -> io::Result<()> {
    for _ in 0..u64::MAX {
        let Some(request) = Request::read(input) else {
            break;
        };
        answer(output, &request)?;
    }
    Ok(())
}

fn main(rt: HostRuntime) -> io::Result<()> {
    let mut input = rt.stdin();
    let mut output = rt.stdout();
    answer_all(&mut input, &mut output)
}
