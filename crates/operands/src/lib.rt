// The forms of operands. They are inlined always, which keeps the place of a text's writer in a register.
#![tactic(auto)]

ghost use Rattle.std.specs.Prelude.{◌++◌};
ghost use Rattle.wording.specs.Ascii.{ascii};
ghost use Rattle.wording.specs.Digits.{signed};
ghost use Rattle.wording.specs.Text.{operand_text, place_text};
ghost use Rattle.writer.specs.Puts.{Puts, Writes};

use names::{put_condition, put_reg8, put_reg16};
use numerals::{put_hex8, put_hex16, put_signed};
use opcode::operand::{Operand, Place};
use opcode::registers::RegI;
use writer::Writer;

// (IX+5), (IY-128): the register's part, and what stands behind it.
#[inline(always)]
fn put_index(out: &mut Writer, register: &[u8], d: i8)
    ensures { Puts out.old (register.now ++ signed d ++ ascii ")") out.new }
{
    out.put_bytes(register);
    put_signed(out, i16::from(d));
    out.put(b')');
}

// What `inside` writes, in parentheses.
#[inline(always)]
fn put_parenthesized<F: FnOnce(&mut Writer)>(out: &mut Writer, inside: F)
    requires { F.IsAlwaysCallable inside }
    ensures { (t : _) → Writes F.FnOnce inside t → Puts out.old (ascii "(" ++ t ++ ascii ")") out.new }
{
    out.put(b'(');
    inside(out);
    out.put(b')');
}

#[inline(always)]
fn put_operand(out: &mut Writer, o: Operand)
    ensures { Puts out.old (operand_text o) out.new }
{
    match o {
        Operand::Imm8(n) => put_hex8(out, n),
        Operand::Imm16(n) => put_hex16(out, n),
        Operand::RelAddr(e) => put_signed(out, e),
        Operand::Address(n) => put_parenthesized(out, |out| put_hex16(out, n)),
        Operand::IOAddress(n) => put_parenthesized(out, |out| put_hex8(out, n)),
        Operand::RegI(RegI::IX(d)) => put_index(out, b"(IX", d),
        Operand::RegI(RegI::IY(d)) => put_index(out, b"(IY", d),
        Operand::Reg8(x) => put_reg8(out, x),
        Operand::Reg16(x) => put_reg16(out, x),
        Operand::RegAddr(x) => put_parenthesized(out, |out| put_reg16(out, x)),
        Operand::RegIOAddr(x) => put_parenthesized(out, |out| put_reg8(out, x)),
        Operand::FlagCondition(x) => put_condition(out, x),
        Operand::IgnoreIO => out.put_bytes(b"ignored"),
    }
}

// A filled place, behind what stands before it.
#[inline(always)]
pub fn put_place(out: &mut Writer, before: &[u8], p: Place)
    ensures { Puts out.old (place_text before.now p) out.new }
{
    if let Place::Of(o) = p {
        out.put_bytes(before);
        put_operand(out, o);
    }
}
