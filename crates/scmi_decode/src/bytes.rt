//! A run of an input of bytes.
ghost use Rattle.std.specs.Prelude.{◌≡◌, ◌<◌, IfSome, IsErrOf, IsTrue, OnOk, None, false, length};
ghost use Rattle.scmi_io.specs.Reads.{StopsWith};
ghost use Rattle.scmi_io.specs.declared.input.TheConstants.{INPUT_BYTES};
ghost use Rattle.scmi_decode.specs.Finding.{any_area, parts_found};
ghost use Rattle.scmi_decode.specs.Reported.{Reported};

use crate::decode_error::DecodeError;
use crate::findings::Findings;
use crate::layout::Layout;
use crate::parts_found::report_parts;
use crate::printed::Printed;
use scmi_io::{CountedRead, CountedReader, read_rest, write_fault};
use std::alloc::Global;
use std::io::{Read, Write};

/// Decodes an input of bytes, writes what is found, and gives the exit status, as `run_decode` does.
pub fn run_bytes<R: Read, W: Write>(
    alloc: Global,
    layout: Layout,
    reader: &mut R,
    writer: &mut W,
) -> u8
    ensures area { result ≡ 0 → IfSome (R.remaining reader.old) (λ bytes.
        IsTrue (any_area (parts_found layout None bytes))) }
{
    let mut input = CountedReader::new(reader);
    match print(alloc, layout, &mut input, writer) {
        Ok(()) => 0,
        Err(DecodeError::Write) => DecodeError::Write.status(),
        Err(DecodeError::NoArea) => DecodeError::NoArea.status(),
        Err(fault) => write_fault(writer, &fault, fault.status()),
    }
}

/// Writes what is found in an input of bytes.
fn print<R: CountedRead, W: Write>(
    alloc: Global,
    layout: Layout,
    input: &mut R,
    writer: &mut W,
) -> Result<(), DecodeError>
    ensures area { OnOk result (IfSome (R.remaining input.old) (λ bytes.
        IsTrue (any_area (parts_found layout None bytes)))) }
{
    decode_bytes(alloc, layout, input, &mut Printed::new(writer))
}

/// Reads an input of bytes, and reports what its parts are. `NoArea` if all was reported and nothing
/// of it is an area. `Size` if it is longer than `INPUT_BYTES`, `Read` at a read that fails and
/// `Memory` when out of memory: nothing is then reported; `Write` if the output fails.
pub fn decode_bytes<R: CountedRead, S: Findings>(
    alloc: Global,
    layout: Layout,
    input: &mut R,
    sink: &mut S,
) -> Result<(), DecodeError>
    ensures taken { OnOk result (IfSome (R.remaining input.old) (λ bytes.
        Reported (S.taken sink.old) (S.taken sink.new) (parts_found layout None bytes))) }
    ensures area { OnOk result (IfSome (R.remaining input.old) (λ bytes.
        IsTrue (any_area (parts_found layout None bytes)))) }
    ensures no_area { IsErrOf result DecodeError.NoArea → IfSome (R.remaining input.old) (λ bytes.
        any_area (parts_found layout None bytes) ≡ false) }
    ensures size { IsErrOf result DecodeError.Size → IfSome (R.remaining input.old) (λ bytes.
        INPUT_BYTES < length bytes) }
    ensures stops { StopsWith DecodeError.Read result (R.since_failure input.old)
        (R.since_failure input.new) }
{
    let bytes = read_rest(alloc, input)?;
    if report_parts(sink, layout, None, &bytes)? {
        Ok(())
    } else {
        Err(DecodeError::NoArea)
    }
}
