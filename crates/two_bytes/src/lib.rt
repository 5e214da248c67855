// The rows of two bytes, in two stages: LD r,n by a mask, and the rest: those with an operand byte, and the pages
// of ED and CB.
#![tactic(auto)]

ghost use Rattle.std.specs.Prelude.{◌≡◌, [], ◌∷◌};
ghost use Rattle.table.specs.Decode.{page_row, operand_bytes};
ghost use Rattle.stage.specs.Stage.{answer, of_length};
ghost use Rattle.two_bytes.specs.Words.{two_bytes};

use from_bytes::word;
use opcode::record::OpCode;
use stage::rows::{Stage, pass};

mod cb;
mod ed;
mod immediate;
mod mask;

// The rows that are two bytes long.
pub fn two_bytes(ins1: u8, ins2: u8, rec: OpCode) -> Stage
    ensures { result ≡ answer (of_length 2 (page_row ins1 ins2)) (operand_bytes (ins1 ∷ ins2 ∷ [])) rec }
{
    let rec = mask::disas_two_bytes_mask(ins1, ins2, rec)?;
    disas_two_bytes(ins1, ins2, rec)
}

// A word of code is ED or CB and the byte behind it.
#[tactic(auto, unfolding(crate::specs::Words::two_bytes))]
fn disas_two_bytes(ins1: u8, ins2: u8, rec: OpCode) -> Stage
    ensures { result ≡ two_bytes ins1 ins2 rec }
{
    let rec = immediate::disas_immediate(ins1, ins2, rec)?;
    let insw = word(ins2, ins1);
    match ins1 {
        0xED => ed::disas_ed(insw, ins2, rec),
        0xCB => cb::disas_cb(insw, ins2, rec),
        _ => pass(rec),
    }
}
