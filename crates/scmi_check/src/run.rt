//! A check from its inputs to its exit status.
ghost use Rattle.std.specs.Prelude.{◌≡◌, ◌≢◌};
ghost use Rattle.scmi_check.specs.Check.{EndsWithFault, HasVerdict, IsChecked};

use crate::check::check_record;
use crate::check_error::CheckError;
use crate::names::Names;
use crate::options::CheckOptions;
use crate::report::{Report, Style};
use scmi_codec::{BASE_PROTOCOL, CLOCK_PROTOCOL, POWER_PROTOCOL};
use scmi_io::write_fault;
use std::alloc::Global;
use std::io::{Read, Write};

/// The protocols of the profile.
pub const PROTOCOLS: [u8; 3] = [BASE_PROTOCOL, POWER_PROTOCOL, CLOCK_PROTOCOL];

/// Checks a record of a platform of a board, writes the report as it goes, and gives the exit
/// status: that of the record, or else that of the error, whose text is written as the last line, and
/// as the only one if the board's text is rejected. A report or a fault that can't be written gives
/// status 1.
///
/// The board's text is that from its line `board` to its line `end`; only empty lines and comments
/// may follow.
pub fn run_check<B: Read, R: Read, N: Names, W: Write>(
    alloc: Global,
    board: &mut B,
    source: &mut R,
    options: CheckOptions<'_>,
    names: &N,
    writer: &mut W,
    style: Style,
) -> u8
    ensures checked { HasVerdict result → IsChecked (N.means names.now) options.entry
        (B.remaining board.old) (R.remaining source.old) result }
    ensures fault { ¬ (HasVerdict result) → result ≢ 1 → EndsWithFault (N.means names.now)
        options.entry (B.remaining board.old) (R.remaining source.old) result
        (W.contents writer.old) (W.contents writer.new) }
{
    let mut report = Report::new(writer, style, options.unseen.refusals);
    let checked = match check_record(alloc, board, source, options, names, &mut report) {
        Ok(checked) => checked,
        Err(fault) => return write_fault(writer, &fault, fault.status()),
    };
    match report.finish(&checked) {
        Ok(()) => checked.status(),
        Err(_) => CheckError::Write.status(),
    }
}
