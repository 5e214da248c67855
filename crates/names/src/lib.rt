// How instructions, registers and conditions are spelt. The spellings stand in fixed tables, five bytes a row: four
// letters, with blanks behind a shorter spelling, and the count of those that are its own.
#![tactic(auto)]

ghost use Rattle.wording.specs.Names.{name_of, reg8_text, reg16_text, condition_text};
ghost use Rattle.writer.specs.Puts.{Puts};
ghost use Rattle.names.specs.Table.{Row, spelling};

use opcode::instruction::Instruction;
use opcode::registers::{FlagCondition, Reg8, Reg16};
use ordinals::{condition_number, instruction_number, reg8_number, reg16_number};
use writer::Writer;

// The 68 names, in the order of the enum.
const NAMES: [u8; 340] = *b"\
    ADC 3ADD 3AND 3BIT 3CALL4CCF 3CP  2CPD 3CPDR4CPI 3CPIR4CPL 3DAA 3DEC 3DI  2\
    DJNZ4EI  2EX  2EXX 3HALT4IM  2IN  2INC 3IND 3INDR4INI 3INIR4JP  2JR  2LD  2\
    LDD 3LDDR4LDI 3LDIR4NEG 3NOP 3OR  2OTDR4OTIR4OUT 3OUTD4OUTI4POP 3PUSH4RES 3\
    RET 3RETI4RETN4RL  2RLA 3RLC 3RLCA4RLD 3RR  2RRA 3RRC 3RRCA4RRD 3RST 3SBC 3\
    SCF 3SET 3SLA 3SLL 3SRA 3SRL 3SUB 3XOR 3";

// The registers, and the conditions, each in the order of its enum.
const REG8: [u8; 65] = *b"A   1B   1C   1D   1E   1H   1L   1IXh 3IXl 3IYh 3IYl 3I   1R   1";

const REG16: [u8; 40] = *b"AF  2BC  2DE  2HL  2SP  2AFp 3IX  2IY  2";

const CONDITIONS: [u8; 40] = *b"NZ  2Z   1NC  2C   1PO  2PE  2P   1M   1";

// What row k of a table spells.
fn put_spelling(out: &mut Writer, table: &[u8], k: u8)
    requires { Row table.now k }
    ensures { Puts out.old (spelling table.now k) out.new }
{
    let from = (k as usize) * 5;
    let to = from + ((table[from + 4] - b'0') as usize);
    out.put_bytes(&table[from..to]);
}

pub fn put_name(out: &mut Writer, ins: Instruction)
    ensures { Puts out.old (name_of ins) out.new }
{
    put_spelling(out, &NAMES, instruction_number(ins));
}

pub fn put_reg8(out: &mut Writer, x: Reg8)
    ensures { Puts out.old (reg8_text x) out.new }
{
    put_spelling(out, &REG8, reg8_number(x));
}

pub fn put_reg16(out: &mut Writer, x: Reg16)
    ensures { Puts out.old (reg16_text x) out.new }
{
    put_spelling(out, &REG16, reg16_number(x));
}

pub fn put_condition(out: &mut Writer, x: FlagCondition)
    ensures { Puts out.old (condition_text x) out.new }
{
    put_spelling(out, &CONDITIONS, condition_number(x));
}
