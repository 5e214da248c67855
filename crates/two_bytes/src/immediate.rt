// Arithmetic with n, relative jumps, and IN and OUT with a port's number.
ghost use Rattle.std.specs.Prelude.{◌≡◌, [], ◌∷◌};
ghost use Rattle.opcode.specs.declared.operand.Operand.{Operand};
ghost use Rattle.opcode.specs.declared.operand.Place.{Place};
ghost use Rattle.table.specs.Signed.{relative_of};
ghost use Rattle.stage.specs.Stage.{took, answer};
ghost use Rattle.two_bytes.specs.Immediate.{source_only, with_a, jump_if, immediate_row};

use from_bytes::relative;
use opcode::instruction::Instruction;
use opcode::operand::Operand;
use opcode::record::OpCode;
use opcode::registers::{FlagCondition, Reg8};
use opcode::timing::Timing;
use stage::cycles::cycles;
use stage::rows::{Stage, pass, take};

// SUB, AND, OR, XOR and CP name only the source.
fn alu8imm(rec: OpCode, ins: Instruction, n: u8) -> Stage
    ensures { result ≡ answer (source_only ins) (n ∷ []) rec }
{
    take(rec, 2, ins, &[Operand::Imm8(n)], cycles(&[4, 3]))
}

// ADD, ADC and SBC carry A as first operand.
fn alu8aimm(rec: OpCode, ins: Instruction, n: u8) -> Stage
    ensures { result ≡ answer (with_a ins) (n ∷ []) rec }
{
    take(
        rec,
        2,
        ins,
        &[Operand::Reg8(Reg8::A), Operand::Imm8(n)],
        cycles(&[4, 3]),
    )
}

// DJNZ e and JR e
fn jump(rec: OpCode, ins: Instruction, e: u8, t: Timing) -> Stage
    ensures { result ≡ took rec 2 ins (Place.Of (Operand.RelAddr (relative_of e))) Place.Empty Place.Empty t }
{
    take(rec, 2, ins, &[Operand::RelAddr(relative(e))], t)
}

// JR cc, e
fn jump_if(rec: OpCode, cond: FlagCondition, e: u8) -> Stage
    ensures { result ≡ answer (jump_if cond) (e ∷ []) rec }
{
    take(
        rec,
        2,
        Instruction::JR,
        &[Operand::FlagCondition(cond), Operand::RelAddr(relative(e))],
        cycles(&[4, 3, 5]),
    )
}

pub(crate) fn disas_immediate(ins1: u8, ins2: u8, rec: OpCode) -> Stage
    ensures { result ≡ answer (immediate_row ins1) (ins2 ∷ []) rec }
{
    match ins1 {
        0x10 => jump(rec, Instruction::DJNZ, ins2, cycles(&[5, 3, 5])),
        0x18 => jump(rec, Instruction::JR, ins2, cycles(&[4, 3, 5])),
        0x38 => jump_if(rec, FlagCondition::C, ins2),
        0x30 => jump_if(rec, FlagCondition::NC, ins2),
        0x28 => jump_if(rec, FlagCondition::Z, ins2),
        0x20 => jump_if(rec, FlagCondition::NZ, ins2),
        0xC6 => alu8aimm(rec, Instruction::ADD, ins2),
        0xCE => alu8aimm(rec, Instruction::ADC, ins2),
        0xDE => alu8aimm(rec, Instruction::SBC, ins2),
        // OUT (n), A
        0xD3 => take(
            rec,
            2,
            Instruction::OUT,
            &[Operand::IOAddress(ins2), Operand::Reg8(Reg8::A)],
            cycles(&[4, 3, 4]),
        ),
        // IN A, (n)
        0xDB => take(
            rec,
            2,
            Instruction::IN,
            &[Operand::Reg8(Reg8::A), Operand::IOAddress(ins2)],
            cycles(&[4, 3, 4]),
        ),
        0xD6 => alu8imm(rec, Instruction::SUB, ins2),
        0xE6 => alu8imm(rec, Instruction::AND, ins2),
        0xF6 => alu8imm(rec, Instruction::OR, ins2),
        0xEE => alu8imm(rec, Instruction::XOR, ins2),
        0xFE => alu8imm(rec, Instruction::CP, ins2),
        _ => pass(rec),
    }
}
