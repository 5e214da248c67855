// The text of a record: its bytes, mnemonic and operands, T-states, each where it is chosen.
#![tactic(auto)]

ghost use Rattle.wording.specs.Text.{times_text, operands_text, bytes_part, instruction_part, times_part, part, text_of};
ghost use Rattle.writer.specs.Puts.{Puts, Writes};

use names::put_name;
use numerals::{put_decimal, put_hex8};
use opcode::counts::TStates;
use opcode::record::OpCode;
use operands::put_place;
use writer::Writer;

// All six T-states.
fn put_times(out: &mut Writer, t: [TStates; 6])
    ensures { Puts out.old (times_text t) out.new }
{
    out.put(b'[');
    put_decimal(out, u16::from(t[0].0));
    for next in &t[1..] {
        out.put_bytes(b", ");
        put_decimal(out, u16::from(next.0));
    }
    out.put(b']');
}

// The operands, joined.
fn put_operands(out: &mut Writer, rec: OpCode)
    ensures { Puts out.old (operands_text rec) out.new }
{
    put_place(out, b"", rec.op1);
    put_place(out, b", ", rec.op2);
    put_place(out, b", ", rec.op3);
}

// The row's bytes and two tabs.
fn put_bytes_part(out: &mut Writer, rec: OpCode)
    ensures { Puts out.old (bytes_part rec) out.new }
{
    for b in rec.data.iter().take(rec.length.0 as usize) {
        put_hex8(out, *b);
        out.put(b' ');
    }
    out.put_bytes(b"\t\t");
}

// Mnemonic, tab and operands.
fn put_instruction_part(out: &mut Writer, rec: OpCode)
    ensures { Puts out.old (instruction_part rec) out.new }
{
    put_name(out, rec.ins);
    out.put(b'\t');
    put_operands(out, rec);
}

// A space and the T-states.
fn put_times_part(out: &mut Writer, rec: OpCode)
    ensures { Puts out.old (times_part rec) out.new }
{
    out.put(b' ');
    put_times(out, rec.tstates);
}

// A part where it is present.
fn put_part<F: FnOnce(&mut Writer)>(out: &mut Writer, present: bool, write: F)
    requires { F.IsAlwaysCallable write }
    ensures { (t : _) → Writes F.FnOnce write t → Puts out.old (part present t) out.new }
{
    if present {
        write(out);
    }
}

// The choice of all three parts, the largest.
pub const CHOICE_MAX: u8 = 7;

// The parts of a choice: bytes 1, instruction 2, T-states 4, added up.
#[inline(always)]
fn put_parts(out: &mut Writer, rec: OpCode, choice: u8)
    ensures { Puts out.old (text_of choice rec) out.new }
{
    put_part(out, choice & 1 != 0, |out| put_bytes_part(out, rec));
    put_part(out, choice & 2 != 0, |out| {
        put_instruction_part(out, rec)
    });
    put_part(out, choice & 4 != 0, |out| put_times_part(out, rec));
}

// They are put through a writer of its own, whose place can stay in a register.
pub fn put_text(out: &mut Writer, rec: OpCode, choice: u8)
    ensures { Puts out.old (text_of choice rec) out.new }
{
    let mut own = Writer {
        buf: &mut *out.buf,
        at: out.at,
    };
    put_parts(&mut own, rec, choice);
    out.at = own.at;
}
