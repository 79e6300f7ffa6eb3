//! A record, as it is checked: with numbers in place of the names in its commands.
ghost use Rattle.std.specs.Prelude.{◌≡◌, ◌≢◌, IfErr, IfOk, IfSome};
ghost use Rattle.scmi_check.specs.Check.{HasVerdict};
ghost use Rattle.scmi_live.specs.Hertz.{in_hertz};
ghost use Rattle.scmi.specs.Record.{AreNamesOf, IsNamedRecord};

use crate::board_names::BoardNames;
use scmi_check::{CheckError, CheckOptions, Style, run_check};
use scmi_io::{CountedReader, read_rest, write_fault};
use scmi_live::in_hertz;
use std::alloc::Global;
use std::io::{Read, Write};

/// Checks a record whose commands may have names as `run_check` checks one of numbers, and gives the
/// exit status. The record is read only if the board keeps every rule.
pub fn run_record<B: Read, R: Read, W: Write>(
    alloc: Global,
    board: &mut B,
    shown: &mut R,
    options: CheckOptions<'_>,
    writer: &mut W,
    style: Style,
) -> u8
    ensures checked { HasVerdict result → IfSome (B.remaining board.old)
        (λ text. IsNamedRecord options.entry (in_hertz text) (R.remaining shown.old) result) }
{
    let GivenBoard { text, names } = match read_given(alloc, board) {
        Ok(given) => given,
        Err(fault) => return write_fault(writer, &fault, fault.status()),
    };
    run_check(
        alloc,
        &mut text.as_slice(),
        shown,
        options,
        &names,
        writer,
        style,
    )
}

/// A board, as a record is checked by it.
#[derive(Drop)]
pub(crate) struct GivenBoard {
    /// Its text, in Hz.
    text: Vec<u8>,
    names: BoardNames,
}

/// A board that keeps every rule, in Hz, with its names.
fn read_given<B: Read>(alloc: Global, board: &mut B) -> Result<GivenBoard, CheckError>
    ensures text { IfOk result (λ given. IfSome (B.remaining board.old)
        (λ text. given.text.items ≡ in_hertz text)) }
    ensures names { IfOk result (λ given. AreNamesOf given.text.items given.names) }
{
    let text = read_rest(alloc, &mut CountedReader::new(board))?;
    let text = in_hertz(alloc, &text)?;
    let names = BoardNames::of_text(alloc, &text)?;
    Ok(GivenBoard { text, names })
}
