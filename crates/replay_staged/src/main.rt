// Runs the stages: for each request on standard input the outcomes of its inputs on standard output, as README.md says.
#![tactic(auto)]

ghost use Rattle.std.specs.Prelude.{◌+◌, ◌≤◌};

use answers::decodes::{missing, number};
use layout::layout;
use staged::disas;
use std::io;
use std::io::{Read, Write};

// A request: the count of free bytes, 0 to 2, that of fixed ones, 0 to 5, then five bytes.
const REQUEST_SIZE: usize = 7;

const FREE_MAX: usize = 2;

const FIXED_MAX: usize = 5;

// The longest input: five fixed bytes and two free ones.
const INPUT_SIZE: usize = 7;

// An outcome: the answer's number, the fewest missing bytes, and the record.
const OUTCOME_SIZE: usize = 26;

// 256 outcomes go out at once: a write for each is slow.
const BUFFER_SIZE: usize = 6656;

// The bytes of an input, the fixed ones first, then room for the free ones.
#[derive(Clone, Copy)]
struct Request {
    fixed: usize,
    free: usize,
    ins: [u8; INPUT_SIZE],
    ghost in_input: { fixed + free ≤ 7 },
}

impl Request {
    // The next one, unless it is cut off or has other counts.
    fn read<R: Read>(input: &mut R) -> Option<Request> {
        let mut fields = [0u8; REQUEST_SIZE];
        input.read_exact(&mut fields).ok()?;
        let [free, fixed, a, b, c, d, e] = fields;
        let (fixed, free) = (usize::from(fixed), usize::from(free));
        if FREE_MAX < free || FIXED_MAX < fixed {
            return None;
        }
        Some(Request {
            fixed,
            free,
            ins: [a, b, c, d, e, 0, 0],
        })
    }
}

// Outcomes that are still to be written, in the first `size` bytes, with room for one more.
#[derive(Drop)]
struct Outcomes {
    bytes: [u8; BUFFER_SIZE],
    size: usize,
    ghost room: { size + 26 ≤ 6656 },
}

impl Outcomes {
    fn new() -> Outcomes {
        Outcomes {
            bytes: [0; BUFFER_SIZE],
            size: 0,
        }
    }

    // That of an input; where the next one has no room behind it, all are written.
    fn add<W: Write>(&mut self, output: &mut W, ins: &[u8]) -> io::Result<()> {
        let decoded = disas(ins);
        let end = self.size + OUTCOME_SIZE;
        let outcome = &mut self.bytes[self.size..end];
        outcome[0] = number(decoded.answer);
        outcome[1] = missing(decoded.answer);
        outcome[2..].copy_from_slice(&layout(decoded.rec));
        if BUFFER_SIZE - end < OUTCOME_SIZE {
            self.size = 0;
            return output.write_all(&self.bytes[..end]);
        }
        self.size = end;
        Ok(())
    }

    // Those of every choice of the free bytes, the first of them slowest.
    fn add_all<W: Write>(&mut self, output: &mut W, request: Request) -> io::Result<()> {
        let Request {
            fixed,
            free,
            mut ins,
        } = request;
        if free == 0 {
            return self.add(output, &ins[..fixed]);
        }
        for byte in 0..=255 {
            ins[fixed] = byte;
            let chosen = Request {
                fixed: fixed + 1,
                free: free - 1,
                ins,
            };
            self.add_all(output, chosen)?;
        }
        Ok(())
    }
}

// A proved loop has to end, and nothing says that the input does: it counts up to a number that no run uses up.
fn answer_all<R: Read, W: Write>(input: &mut R, output: &mut W) -> io::Result<()> {
    let mut outcomes = Outcomes::new();
    for _ in 0..u64::MAX {
        let Some(request) = Request::read(input) else {
            break;
        };
        outcomes.add_all(output, request)?;
    }
    output.write_all(&outcomes.bytes[..outcomes.size])
}

fn main(rt: HostRuntime) -> io::Result<()> {
    let mut input = rt.stdin();
    let mut output = rt.stdout();
    answer_all(&mut input, &mut output)
}
