//! The tables of a board, from its text to the exit status.
ghost use Rattle.std.specs.Prelude.{◌≡◌, ◌≢◌, IfErr, IfOk, IfSome, OnErr, OnOk};
ghost use Rattle.scmi_board.specs.BoardLines.{described};
ghost use Rattle.scmi_board.specs.ValidBoard.{IsBoardText};
ghost use Rattle.scmi_check.specs.Check.{IsFaultOfBoard};
ghost use Rattle.scmi_check.specs.CheckError.{fault_status};
ghost use Rattle.scmi.specs.TableRun.{EndsWithFault, HoldsBoard};

use crate::table::write_table;
use scmi_board::{BoardWithLines, read_valid_board};
use scmi_check::CheckError;
use scmi_io::{CountedReader, read_rest, write_fault};
use std::alloc::Global;
use std::io;
use std::io::{Read, Write};

/// Writes the tables of a board in C, and gives the exit status: 0, or that of the error, whose
/// text is written as the only line. Nothing is written before the whole text is read and every
/// rule was checked. An output that fails gives status 1.
///
/// The board's text is that from its line `board` to its line `end`, with lines `channel`, `keep`,
/// `deny`, `absent` and `free`; only empty lines and comments may follow.
pub fn run_table<R: Read, W: Write>(alloc: Global, reader: &mut R, writer: &mut W) -> u8
    ensures board { result ≡ 0 → HoldsBoard (R.remaining reader.old) }
    ensures fault { result ≢ 0 → result ≢ 1 → EndsWithFault (R.remaining reader.old) result
        (W.contents writer.old) (W.contents writer.new) }
{
    match read_board(alloc, reader) {
        Ok(said) => status_of_output(write_table(writer, &said)),
        Err(fault) => write_fault(writer, &fault, fault.status()),
    }
}

/// The exit status once tables were written, or could not be.
fn status_of_output(output: io::Result<()>) -> u8
    ensures whole { OnOk output (result ≡ 0) }
    ensures failed { OnErr output (result ≡ fault_status CheckError.Write) }
{
    match output {
        Ok(()) => 0,
        Err(_) => CheckError::Write.status(),
    }
}

/// The board of a text, which keeps every rule, and the lines behind its rows.
fn read_board<R: Read>(alloc: Global, reader: &mut R) -> Result<BoardWithLines, CheckError>
    ensures board { IfOk result (λ said. IfSome (R.remaining reader.old)
        (λ text. IsBoardText text (described said))) }
    ensures faults { IfErr result (λ e. IfSome (R.remaining reader.old)
        (λ text. IsFaultOfBoard text e)) }
{
    let text = read_rest(alloc, &mut CountedReader::new(reader))?;
    board_of(alloc, &text)
}

/// The same of a text that was read.
fn board_of(alloc: Global, text: &[u8]) -> Result<BoardWithLines, CheckError>
    ensures board { IfOk result (λ said. IsBoardText text.now (described said)) }
    ensures faults { IfErr result (IsFaultOfBoard text.now) }
{
    let valid = read_valid_board(alloc, text)?;
    Ok(valid.described)
}
