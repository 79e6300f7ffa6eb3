//! A line of an input, by what comes before it.
ghost use Rattle.std.specs.Prelude.{◌≡◌, ◌⊎◌, ◌++◌, None, Some, OnOk, IfErr};
ghost use Rattle.scmi_decode.specs.HeldRow.{lack_behind};
ghost use Rattle.scmi_decode.specs.OpenDump.{beside, closed, dump_found, judged_by};
ghost use Rattle.scmi_decode.specs.Row.{row_of};
ghost use Rattle.scmi_decode.specs.Reported.{Reported};
ghost use Rattle.scmi_decode.specs.Decoded.{dump_after, dump_after_end, dump_after_row, end_found, is_remark, line_is_area, line_found, row_found, step_found};

use crate::decode_error::DecodeError;
use crate::findings::Findings;
use crate::held_row::is_wide_line;
use crate::line::{report_line, report_open};
use crate::open_dump::OpenDump;
use crate::reading::has_wide_marks;
use crate::readings::Readings;
use crate::row::{Row, row_of};
use crate::scan::begins_with;
use std::alloc::Global;

/// How the lines begin that are skipped: a comment, and what `devmem2` prints beside each number.
pub(crate) const REMARK: &[u8] = b"#";

pub(crate) const OPENED: &[u8] = b"/dev/mem opened.";

pub(crate) const MAPPED: &[u8] = b"Memory mapped at address ";

/// Takes a line, and reports how the areas that it ends are read.
pub(crate) fn take_and_say<S: Findings, N: Readings>(
    alloc: Global,
    sink: &mut S,
    readings: &mut N,
    dump: &mut OpenDump,
    number: usize,
    line: &[u8],
) -> Result<(), DecodeError>
    ensures taken { OnOk result (Reported (S.taken sink.old) (S.taken sink.new) (
        step_found dump.old number line.now)) }
    ensures dump { OnOk result (dump.new ≡ dump_after dump.old number line.now) }
    ensures errors { IfErr result (λ e. (e ≡ DecodeError.Memory) ⊎ (e ≡ DecodeError.Write)) }
{
    take_line(alloc, sink, dump, number, line)?;
    dump.say(readings);
    Ok(())
}

/// Ends the dump, reports what is found in it, and how it is read.
pub(crate) fn close_and_say<S: Findings, N: Readings>(
    alloc: Global,
    sink: &mut S,
    readings: &mut N,
    dump: &mut OpenDump,
) -> Result<(), DecodeError>
    ensures taken { OnOk result (Reported (S.taken sink.old) (S.taken sink.new) (
        dump_found dump.old)) }
    ensures dump { OnOk result (dump.new ≡ closed dump.old) }
    ensures errors { IfErr result (λ e. (e ≡ DecodeError.Memory) ⊎ (e ≡ DecodeError.Write)) }
{
    close(alloc, sink, dump)?;
    dump.say(readings);
    Ok(())
}

/// Takes a line: a row that goes on with the dump is added to it; any other line but a comment ends
/// it, and what is found in it is reported. `Memory` when out of memory, `Write` if the output fails.
#[tactic(auto, using(crate::proofs::Reported::reported_nil), unfolding(crate::specs::Decoded::step_found, crate::specs::Decoded::dump_after))]
fn take_line<S: Findings>(
    alloc: Global,
    sink: &mut S,
    dump: &mut OpenDump,
    number: usize,
    line: &[u8],
) -> Result<(), DecodeError>
    ensures taken { OnOk result (Reported (S.taken sink.old) (S.taken sink.new) (
        step_found dump.old number line.now)) }
    ensures dump { OnOk result (dump.new ≡ dump_after dump.old number line.now) }
    ensures errors { IfErr result (λ e. (e ≡ DecodeError.Memory) ⊎ (e ≡ DecodeError.Write)) }
{
    if is_remark(line) {
        return Ok(());
    }
    if line.is_empty() {
        return close(alloc, sink, dump);
    }
    if dump.is_star(line) {
        dump.repeat();
        return Ok(());
    }
    if let Some(address) = dump.end_at(line) {
        dump.end(alloc, address)?;
        return close(alloc, sink, dump);
    }
    take_row(alloc, sink, dump, number, line)
}

/// Takes a line by the row that it is, if it is one.
fn take_row<S: Findings>(
    alloc: Global,
    sink: &mut S,
    dump: &mut OpenDump,
    number: usize,
    line: &[u8],
) -> Result<(), DecodeError>
    ensures taken { OnOk result (Reported (S.taken sink.old) (S.taken sink.new) (
        end_found dump.old number line.now None)) }
    ensures dump { OnOk result (dump.new ≡ dump_after_end dump.old number line.now None) }
    ensures errors { IfErr result (λ e. (e ≡ DecodeError.Memory) ⊎ (e ≡ DecodeError.Write)) }
{
    match row_of(alloc, line)? {
        None => take_alone(alloc, sink, dump, number, line),
        Some(row) => {
            dump.judge(alloc, line)?;
            add_row(alloc, sink, dump, number, line, &row)
        }
    }
}

/// Adds a row to the dump, or begins another with it.
#[tactic(auto, using(crate::proofs::Reported::reported_nil))]
fn add_row<S: Findings>(
    alloc: Global,
    sink: &mut S,
    dump: &mut OpenDump,
    number: usize,
    line: &[u8],
    row: &Row,
) -> Result<(), DecodeError>
    ensures taken { OnOk result (Reported (S.taken sink.old) (S.taken sink.new) (
        row_found dump.old number line.now (Some row.now))) }
    ensures dump { OnOk result
        (dump.new ≡ dump_after_row dump.old number line.now None (Some row.now)) }
    ensures errors { IfErr result (λ e. (e ≡ DecodeError.Memory) ⊎ (e ≡ DecodeError.Write)) }
{
    let other = dump.see(alloc, row)?;
    let seen = match &other {
        Some(seen) => seen,
        None => row,
    };
    if dump.goes_on(seen) {
        dump.add(alloc, seen)?;
        return Ok(());
    }
    close(alloc, sink, dump)?;
    dump.begin(number, row)?;
    dump.mark(has_wide_marks(line));
    Ok(())
}

/// Takes a line that is a dump of its own; a wide row waits for the line behind it.
fn take_alone<S: Findings>(
    alloc: Global,
    sink: &mut S,
    dump: &mut OpenDump,
    number: usize,
    line: &[u8],
) -> Result<(), DecodeError>
    ensures taken { OnOk result (Reported (S.taken sink.old) (S.taken sink.new) (
        row_found (judged_by dump.old line.now) number line.now None)) }
    ensures dump { OnOk result
        (dump.new ≡ dump_after_row (judged_by dump.old line.now) number line.now
        (lack_behind dump.old.layout dump.old.held line.now) None) }
    ensures errors { IfErr result (λ e. (e ≡ DecodeError.Memory) ⊎ (e ≡ DecodeError.Write)) }
{
    let is_wide = is_wide_line(alloc, line)?;
    let lack = dump.judge(alloc, line)?;
    if is_wide {
        close(alloc, sink, dump)?;
        dump.hold(number, line, lack)?;
        return Ok(());
    }
    take_line_alone(alloc, sink, dump, number, line)
}

/// Takes a line that is a dump of its own, and no wide row.
#[tactic(auto, using(crate::proofs::Reported::reported_trans))]
fn take_line_alone<S: Findings>(
    alloc: Global,
    sink: &mut S,
    dump: &mut OpenDump,
    number: usize,
    line: &[u8],
) -> Result<(), DecodeError>
    ensures taken { OnOk result (Reported (S.taken sink.old) (S.taken sink.new) (
        dump_found dump.old ++ line_found dump.old.layout number line.now)) }
    ensures dump { OnOk result (dump.new ≡
        beside (closed dump.old) (line_is_area dump.old.layout number line.now)) }
    ensures errors { IfErr result (λ e. (e ≡ DecodeError.Memory) ⊎ (e ≡ DecodeError.Write)) }
{
    let layout = dump.layout;
    close(alloc, sink, dump)?;
    let read = report_line(alloc, sink, layout, number, line)?;
    dump.note(number, read);
    Ok(())
}

/// Ends the dump, and reports what is found in it.
fn close<S: Findings>(alloc: Global, sink: &mut S, dump: &mut OpenDump) -> Result<(), DecodeError>
    ensures taken { OnOk result (Reported (S.taken sink.old) (S.taken sink.new) (
        dump_found dump.old)) }
    ensures dump { OnOk result (dump.new ≡ closed dump.old) }
    ensures errors { IfErr result (λ e. (e ≡ DecodeError.Memory) ⊎ (e ≡ DecodeError.Write)) }
{
    let read = report_open(alloc, sink, dump)?;
    dump.close(read);
    Ok(())
}

/// Whether a line is skipped: it begins with `#`, or as the lines that `devmem2` prints beside each
/// number.
fn is_remark(line: &[u8]) -> bool
    ensures { result ≡ is_remark line.now }
{
    begins_with(line, REMARK) || begins_with(line, OPENED) || begins_with(line, MAPPED)
}
