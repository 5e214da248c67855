// Where each instruction, register and condition stands in the original's enums.
#![tactic(auto)]

ghost use Rattle.std.specs.Prelude.{◌≡◌};
ghost use Rattle.wording.specs.Names.{instruction_of, reg8_of, reg16_of, condition_of};

use opcode::instruction::Instruction;
use opcode::registers::{FlagCondition, Reg8, Reg16};

pub fn instruction_number(ins: Instruction) -> u8
    ensures { result ≡ instruction_of ins }
{
    ins as u8
}

pub fn reg8_number(r: Reg8) -> u8
    ensures { result ≡ reg8_of r }
{
    r as u8
}

pub fn reg16_number(q: Reg16) -> u8
    ensures { result ≡ reg16_of q }
{
    q as u8
}

pub fn condition_number(c: FlagCondition) -> u8
    ensures { result ≡ condition_of c }
{
    c as u8
}
