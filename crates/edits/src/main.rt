// Replays the original's edits: for each request on standard input its line on standard output, as README.md says.
#![tactic(auto)]

ghost use Rattle.std.specs.Prelude.{◌≡◌, ◌≤◌, length};
ghost use Rattle.edits.specs.Edits.{edits_of};

use layout::layout;
use numerals::put_hex8;
use opcode::counts::{Bytes, MCycles, RowTime, TStates};
use opcode::instruction::Instruction;
use opcode::operand::{Operand, Place};
use opcode::record::OpCode;
use opcode::registers::RegI;
use opcode::timing::Timing;
use owner::{Twice, extend_and_push, insert_and_remove};
use std::io::{Read, Write};
use std::{array, io};
use writer::Writer;

const REQUEST_SIZE: usize = 17;

// A line: three bytes for each of the request's, five for = and the two answers, three for each of the record's 24,
// and LF.
const LINE_SIZE: usize = 129;

// The T-states of a request, six bytes and a count.
fn timing(b: &[u8]) -> Timing
    requires { length b.now ≡ 7 }
{
    Timing {
        tstates: array::from_fn(|i| TStates(b[i])),
        mcycles: MCycles(b[6]),
    }
}

// The edits that are asked for, the T-states that the record has and those that are put in, and two numbers more.
#[derive(Clone, Copy)]
struct Request {
    asked: u8,
    held: Timing,
    more: Timing,
    first: u8,
    second: u8,
}

impl Request {
    // By its 17 bytes.
    fn new(bytes: &[u8]) -> Request
        requires { length bytes.now ≡ 17 }
    {
        Request {
            asked: bytes[0],
            held: timing(&bytes[1..8]),
            more: timing(&bytes[8..15]),
            first: bytes[15],
            second: bytes[16],
        }
    }

    // What the edits leave of a record: 0 asks for extend and push, another number for insert and remove.
    fn edited(self, rec: OpCode) -> Twice
        ensures { result ≡ edits_of self.asked rec self.more self.first self.second }
    {
        let Request {
            more,
            first,
            second,
            ..
        } = self;
        match self.asked {
            0 => extend_and_push(rec, more, TStates(first)),
            _ => insert_and_remove(rec, usize::from(first), more, usize::from(second)),
        }
    }
}

// LD (IX-128), 07 with a third operand and row times of its own, so that every place has something, and with the
// request's T-states.
fn record(held: Timing) -> OpCode {
    let Timing { tstates, mcycles } = held;
    OpCode {
        length: Bytes(4),
        ins: Instruction::LD,
        op1: Place::Of(Operand::RegI(RegI::IX(-128))),
        op2: Place::Of(Operand::Imm8(7)),
        op3: Place::Of(Operand::IgnoreIO),
        data: [0xDD, 0x36, 0x80, 7],
        tstates,
        mcycles,
        least: RowTime(17),
        most: RowTime(19),
    }
}

// Each byte as two digits, with what stands before and behind each.
fn put_pairs(line: &mut Writer, bytes: &[u8], before: &[u8], behind: &[u8]) {
    for byte in bytes {
        line.put_bytes(before);
        put_hex8(line, *byte);
        line.put_bytes(behind);
    }
}

fn put_answer(line: &mut Writer, ok: bool) {
    line.put(b' ');
    line.put(if ok { b'1' } else { b'0' });
}

// The request, what the edits say, and the record as they left it.
fn write_line<W: Write>(output: &mut W, request: &[u8], left: Twice) -> io::Result<()> {
    let mut buf = [0u8; LINE_SIZE];
    let mut line = Writer::new(&mut buf);
    put_pairs(&mut line, request, b"", b" ");
    line.put(b'=');
    put_answer(&mut line, left.first);
    put_answer(&mut line, left.second);
    put_pairs(&mut line, &layout(left.rec), b" ", b"");
    line.put(b'\n');
    output.write_all(&buf)
}

// A request is answered in one line.
fn answer<W: Write>(output: &mut W, bytes: &[u8]) -> io::Result<()>
    requires { length bytes.now ≡ 17 }
{
    let request = Request::new(bytes);
    write_line(output, bytes, request.edited(record(request.held)))
}

// As many bytes of requests as are read.
const INPUT_MAX: usize = 65536;

// Reads until the input ends, a read fails or `input` is full, and says how many bytes came.
fn read_full<R: Read>(from: &mut R, input: &mut [u8]) -> usize
    ensures { result ≤ length input.old }
{
    let mut done = 0;
    while let Ok(n @ 1..) = from.read(&mut input[done..]) {
        done += n;
    }
    done
}

// All requests of the input, of which the first 65,536 bytes are read; one that is cut off is not answered.
fn main(rt: HostRuntime) -> io::Result<()> {
    let mut input = [0u8; INPUT_MAX];
    let mut output = rt.stdout();
    let got = read_full(&mut rt.stdin(), &mut input);
    for request in input[..got].chunks_exact(REQUEST_SIZE) {
        answer(&mut output, request)?;
    }
    Ok(())
}
