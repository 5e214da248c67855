// The text of a row, made from its bytes and written to the front of lent ones.
#![tactic(auto)]

ghost use Rattle.std.specs.Prelude.{◌≡◌};
ghost use Rattle.table.specs.Chip.{decode_in};
ghost use Rattle.wording.specs.Text.{text_of};
ghost use Rattle.wording.specs.Answers.{told_by, text_outcome};
ghost use Rattle.writer.specs.Wrote.{Wrote};

use disas::disas;
use opcode::record::OpCode;
use record_text::{CHOICE_MAX, put_text};
use table::{Answer, Decoded, Mode};
use wording::TextRefusal;
use writer::{Writer, give};

// The chosen parts of a record's text to the front of a line, and their count.
fn text_in(line: &mut [u8], rec: OpCode, choice: u8) -> usize
    ensures { Wrote line.old 0 (text_of choice rec) line.new result }
{
    let mut writer = Writer::new(line);
    put_text(&mut writer, rec, choice);
    writer.at
}

// The parts of the row that `ins` decodes to in a mode that are chosen: bytes 1, instruction 2, T-states 4, added up.
// They are made in a line of their own, so that nothing is written where they do not fit.
pub fn text(mode: Mode, choice: u8, ins: &[u8], out: &mut [u8]) -> Result<usize, TextRefusal>
    ensures { told_by result out.new ≡ text_outcome choice (decode_in mode ins.now) out.old }
{
    if CHOICE_MAX < choice {
        return Err(TextRefusal::BadChoice);
    }
    let Decoded { answer, rec } = disas(mode, ins);
    match answer {
        Answer::Done => {}
        Answer::Nothing => return Err(TextRefusal::Nothing),
        Answer::Short(missing) => return Err(TextRefusal::Short(missing)),
        Answer::Long => return Err(TextRefusal::Long),
    }
    let mut line = [0u8; OpCode::TEXT_MAX];
    let count = text_in(&mut line, rec, choice);
    give(&line[..count], out).ok_or(TextRefusal::NoRoom)
}
