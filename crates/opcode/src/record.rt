// The record of a decoded row.
ghost use Rattle.std.specs.Prelude.{◌≡◌};
ghost use Rattle.opcode.specs.Record.{empty_of};
ghost use Rattle.opcode.specs.Times.{time_of, retimed};

use super::counts::{Bytes, MCycles, RowTime, TStates};
use super::instruction::Instruction;
use super::operand::Place;
use super::times::{Span, row_times};

// The first `mcycles` of the six T-state places are filled and the rest are zero; `data` is the input, padded with
// zeros; `least` and `most` are the quick and the slow way through the row.
#[derive(Clone, Copy)]
pub struct OpCode {
    pub length: Bytes,
    pub ins: Instruction,
    pub op1: Place,
    pub op2: Place,
    pub op3: Place,
    pub data: [u8; 4],
    pub tstates: [TStates; 6],
    pub mcycles: MCycles,
    pub least: RowTime,
    pub most: RowTime,
}

impl OpCode {
    // The largest text of a decoded record, in bytes.
    pub const TEXT_MAX: usize = 52;

    // The largest length of a row, in bytes.
    pub const LENGTH_MAX: usize = 4;

    // The T-state places of a record.
    pub const PLACES: usize = 6;

    // The empty record, which every refusal returns.
    pub fn new() -> OpCode
        ensures { result ≡ empty_of }
    {
        OpCode {
            length: Bytes(0),
            ins: Instruction::NOP,
            op1: Place::Empty,
            op2: Place::Empty,
            op3: Place::Empty,
            data: [0; 4],
            tstates: [TStates(0); 6],
            mcycles: MCycles(0),
            least: RowTime(0),
            most: RowTime(0),
        }
    }

    // The row time: the most that the row takes, by the six places, whatever `mcycles` and `most` say.
    pub fn row_time(self) -> RowTime
        ensures { result ≡ time_of self }
    {
        row_times(self.ins, self.op1, self.tstates).most
    }

    // The record with the row times that its instruction, its first operand and its six places give.
    pub fn with_row_times(self) -> OpCode
        ensures { result ≡ retimed self }
    {
        let Span { least, most } = row_times(self.ins, self.op1, self.tstates);
        OpCode {
            least,
            most,
            ..self
        }
    }
}
