// What DD and FD make of the record of the bytes behind them: DD names IX, FD names IY.
ghost use Rattle.std.specs.Prelude.{◌≡◌, ◌≤◌, ◌+◌};
ghost use Rattle.table.specs.Steps.{named};
ghost use Rattle.four_bytes.specs.Replaced.{addr_replaced, hl_replaced, operands_replaced, addr_record, hl_record, lengthened, loaded, replaced};

use from_bytes::by_prefix;
use opcode::counts::Bytes;
use opcode::operand::{Operand, Place};
use opcode::record::OpCode;
use opcode::registers::{Reg8, Reg16};
use opcode::timing::Timing;
use stage::cycles::cycles;
use stage::operands::index_addr;
use stage::rows::{Stage, pass};
use std::ops::ControlFlow;
use timing::{tstates_insert, tstates_remove};

// (HL) becomes (IX+d).
fn replace_hl_addr_op(op: Place, prefix: u8, d: u8) -> Option<Place>
    ensures { result ≡ addr_replaced (named prefix) d op }
{
    match op {
        Place::Of(Operand::RegAddr(Reg16::HL)) => Some(Place::Of(index_addr(prefix, d))),
        _ => None,
    }
}

// HL, H and L become IX, IXh and IXl.
fn replace_hl_op(op: Place, prefix: u8) -> Option<Place>
    ensures { result ≡ hl_replaced (named prefix) op }
{
    let indexed = match op {
        Place::Of(Operand::Reg16(Reg16::HL)) => {
            Operand::Reg16(by_prefix(prefix, Reg16::IX, Reg16::IY))
        }
        Place::Of(Operand::Reg8(Reg8::H)) => {
            Operand::Reg8(by_prefix(prefix, Reg8::IXh, Reg8::IYh))
        }
        Place::Of(Operand::Reg8(Reg8::L)) => {
            Operand::Reg8(by_prefix(prefix, Reg8::IXl, Reg8::IYl))
        }
        _ => return None,
    };
    Some(Place::Of(indexed))
}

// The record with what its first two operands become, where one of them is replaced.
fn with_operands(rec: OpCode, op1: Option<Place>, op2: Option<Place>) -> Option<OpCode>
    ensures { result ≡ operands_replaced rec op1 op2 }
{
    match (op1, op2) {
        (None, None) => None,
        _ => Some(OpCode {
            op1: op1.unwrap_or(rec.op1),
            op2: op2.unwrap_or(rec.op2),
            ..rec
        }),
    }
}

#[tactic(auto, using(crate::proofs::Prefixed::addr_records))]
fn replace_hl_addr(rec: OpCode, prefix: u8, d: u8) -> Option<OpCode>
    ensures { result ≡ addr_record (named prefix) d rec }
{
    with_operands(
        rec,
        replace_hl_addr_op(rec.op1, prefix, d),
        replace_hl_addr_op(rec.op2, prefix, d),
    )
}

#[tactic(auto, using(crate::proofs::Prefixed::hl_records))]
fn replace_hl(rec: OpCode, prefix: u8) -> Option<OpCode>
    ensures { result ≡ hl_record (named prefix) rec }
{
    with_operands(
        rec,
        replace_hl_op(rec.op1, prefix),
        replace_hl_op(rec.op2, prefix),
    )
}

// The prefix makes the row longer, and its cycles come after the first.
fn lengthen(rec: OpCode, bytes: u8, t: Timing) -> OpCode
    requires { rec.length.0 + bytes ≤ 6 }
    ensures { result ≡ lengthened rec bytes t }
{
    let longer = OpCode {
        length: Bytes(rec.length.0 + bytes),
        ..rec
    };
    let (Ok(timed) | Err(timed)) = tstates_insert(longer, 1, t);
    timed
}

// LD (IX+d),n takes n from the fourth byte and loses its sixth cycle.
fn fix_load(rec: OpCode, n: u8) -> OpCode
    ensures { result ≡ loaded n rec }
{
    let Place::Of(Operand::Imm8(_)) = rec.op2 else {
        return rec;
    };
    let taken = OpCode {
        op2: Place::Of(Operand::Imm8(n)),
        ..rec
    };
    let (Ok(shorter) | Err(shorter)) = tstates_remove(taken, 5);
    shorter
}

// What `disas_dd_fd_prefix` makes of the record of the bytes behind the prefix. Where nothing is to be replaced it is
// left as it is and not taken, and so is one that no row makes, of more than four bytes.
#[tactic(auto, unfolding(crate::specs::Replaced::replaced))]
pub fn replace(rec: OpCode, prefix: u8, d: u8, n: u8) -> Stage
    ensures { result ≡ replaced (named prefix) d n rec }
{
    if 4 < rec.length.0 {
        return pass(rec);
    }
    if let Some(addressed) = replace_hl_addr(rec, prefix, d) {
        let longer = lengthen(addressed, 2, cycles(&[4, 3, 5]));
        return ControlFlow::Break(fix_load(longer, n));
    }
    if let Some(named) = replace_hl(rec, prefix) {
        return ControlFlow::Break(lengthen(named, 1, cycles(&[4])));
    }
    pass(rec)
}
