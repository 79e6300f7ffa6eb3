//! A run from its input to its exit status.
ghost use Rattle.std.specs.Prelude.{◌≡◌, ◌≢◌, ◌<◌, ◌≤◌, IfErr, IfOk, IfSome, IsErrOf, IsTrue, OnOk, false, length};
ghost use Rattle.scmi_io.specs.Reads.{StopsWith};
ghost use Rattle.scmi_io.specs.declared.input.TheConstants.{INPUT_BYTES};
ghost use Rattle.scmi_decode.specs.Decoded.{IsDecoded, has_area};
ghost use Rattle.scmi_decode.specs.OneDump.{ReportsForms};

use crate::decode_error::DecodeError;
use crate::findings::Findings;
use crate::layout::Layout;
use crate::open_dump::OpenDump;
use crate::printed::Printed;
use crate::readings::Readings;
use crate::step::{close_and_say, take_and_say};
use scmi_io::{CountedRead, CountedReader, Input, write_fault};
use std::alloc::Global;
use std::io::{Read, Write};

/// Decodes an input, a line at a time, writes what is found, and gives the exit status: 0, or that of
/// the error, whose text is written as the last line; `NoArea` has none. A fault that can't be written
/// gives status 1. `readings` is notified of how each area is read, if that differs from the area
/// before.
pub fn run_decode<R: Read, W: Write, N: Readings>(
    alloc: Global,
    layout: Layout,
    reader: &mut R,
    writer: &mut W,
    readings: &mut N,
) -> u8
    ensures area { result ≡ 0 →
        IfSome (R.remaining reader.old) (λ input. IsTrue (has_area layout input)) }
{
    let mut input = Input::new(CountedReader::new(reader));
    run_counted(alloc, layout, &mut input, writer, readings)
}

/// The same of a reader that counts.
pub fn run_counted<R: CountedRead + Drop, W: Write, N: Readings>(
    alloc: Global,
    layout: Layout,
    input: &mut Input<R>,
    writer: &mut W,
    readings: &mut N,
) -> u8
    ensures area { result ≡ 0 → IfSome input.old.left (λ bytes. IsTrue (has_area layout bytes)) }
    ensures stops { input.old.since_failure ≡ 0 → input.new.since_failure ≤ 1 }
{
    match print(alloc, layout, input, writer, readings) {
        Ok(()) => 0,
        Err(DecodeError::Write) => DecodeError::Write.status(),
        Err(DecodeError::NoArea) => DecodeError::NoArea.status(),
        Err(fault) => write_fault(writer, &fault, fault.status()),
    }
}

/// Writes what is found in an input.
fn print<R: CountedRead + Drop, W: Write, N: Readings>(
    alloc: Global,
    layout: Layout,
    input: &mut Input<R>,
    writer: &mut W,
    readings: &mut N,
) -> Result<(), DecodeError>
    ensures area { OnOk result (IfSome input.old.left (λ bytes. IsTrue (has_area layout bytes))) }
    ensures stops { StopsWith DecodeError.Read result input.old.since_failure
        input.new.since_failure }
{
    decode_input(alloc, layout, input, &mut Printed::new(writer), readings)
}

/// Reads an input line by line, and reports what is found in each of its dumps that has ended.
/// `NoArea` if all was reported and nothing of it is an area. `Size` at a line longer than
/// `INPUT_BYTES`, `Read` at a read that fails, `Memory` when out of memory and `Write` if the output
/// fails: what comes before is then reported.
pub fn decode_input<R: CountedRead + Drop, S: Findings, N: Readings>(
    alloc: Global,
    layout: Layout,
    input: &mut Input<R>,
    sink: &mut S,
    readings: &mut N,
) -> Result<(), DecodeError>
    ensures taken { OnOk result (
        IsDecoded layout input.old.left (S.taken sink.old) (S.taken sink.new)) }
    ensures forms { OnOk result (
        ReportsForms layout input.old.left (S.taken sink.old) (S.taken sink.new)) }
    ensures area { OnOk result (IfSome input.old.left (λ bytes. IsTrue (has_area layout bytes))) }
    ensures no_area { IsErrOf result DecodeError.NoArea →
        IfSome input.old.left (λ bytes. has_area layout bytes ≡ false) }
    ensures size { IsErrOf result DecodeError.Size →
        IfSome input.old.left (λ bytes. INPUT_BYTES < length bytes) }
    ensures stops { StopsWith DecodeError.Read result input.old.since_failure
        input.new.since_failure }
{
    if decode_lines(alloc, layout, input, sink, readings)? {
        Ok(())
    } else {
        Err(DecodeError::NoArea)
    }
}

/// Reports what is found in an input, and gives whether there is an area.
fn decode_lines<R: CountedRead + Drop, S: Findings, N: Readings>(
    alloc: Global,
    layout: Layout,
    input: &mut Input<R>,
    sink: &mut S,
    readings: &mut N,
) -> Result<bool, DecodeError>
    ensures taken { OnOk result (
        IsDecoded layout input.old.left (S.taken sink.old) (S.taken sink.new)) }
    ensures area { IfOk result (λ area.
        IfSome input.old.left (λ bytes. area ≡ has_area layout bytes)) }
    ensures size { IsErrOf result DecodeError.Size →
        IfSome input.old.left (λ bytes. INPUT_BYTES < length bytes) }
    ensures errors { IfErr result (λ e. e ≢ DecodeError.NoArea) }
    ensures stops { StopsWith DecodeError.Read result input.old.since_failure
        input.new.since_failure }
{
    let mut dump = OpenDump::new(alloc, layout);
    let mut line = Vec::new(alloc);
    'lines: for number in 1..usize::MAX {
        let ended = input.read_line(&mut line)?;
        take_and_say(alloc, sink, readings, &mut dump, number, line.as_slice())?;
        if !ended {
            close_and_say(alloc, sink, readings, &mut dump)?;
            return Ok(dump.found());
        }
    }
    Err(DecodeError::Size)
}
