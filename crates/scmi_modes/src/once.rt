//! The mode `once`: one area in, one area out.
ghost use Rattle.std.specs.Prelude.{◌≡◌, ◌≢◌, ◌<◌, ◌≤◌, ◌+◌, ◌⊎◌, length, Some, None, IfSome, IfErr, IsErrOf, OnOk, MatchResult};
ghost use Rattle.std.specs.Io.KnownBytes.{Appends};
ghost use Rattle.scmi_modes.specs.Once.{IsAnswerTo, area_of, area_text};
ghost use Rattle.scmi_modes.specs.Reads.{StopsAtFailure};
ghost use Rattle.scmi_io.specs.declared.input.TheConstants.{INPUT_BYTES};

use crate::answer::answer_area;
use crate::lines::only_line;
use crate::run_error::RunError;
use hex::FromHex;
use scmi_codec::AREA_BYTES;
use scmi_io::{CountedRead, CountedReader, read_rest};
use std::alloc::Global;
use std::io::{Read, Write};

/// Reads an area in hexadecimal digits, and writes it with the answer to agent 1's first command on
/// a new platform, in lower-case digits and with a line feed. `Size` if the input is longer than
/// `INPUT_BYTES`, `Read` at a read that fails, `Area` if the input is not one line of an area's
/// digits, `Memory` when out of memory: after each of these nothing is written. `Write` if the
/// output fails. What the input is to say is known of a reader that tells its bytes; how often it
/// is read is a promise of `run_once_counted`.
pub fn run_once<R: Read, W: Write>(
    alloc: Global,
    reader: &mut R,
    writer: &mut W,
) -> Result<(), RunError>
    ensures answer { OnOk result (IfSome (R.remaining reader.old)
        (λ input. IsAnswerTo input (W.contents writer.old) (W.contents writer.new))) }
    ensures area { IsErrOf result RunError.Area →
        IfSome (R.remaining reader.old) (λ input. area_of input ≡ None) }
    ensures no_area { IfSome (R.remaining reader.old) (λ input. area_of input ≡ None →
        IsErrOf result RunError.Area ⊎ IsErrOf result RunError.Size ⊎
        IsErrOf result RunError.Read ⊎ IsErrOf result RunError.Memory) }
    ensures size { IsErrOf result RunError.Size →
        IfSome (R.remaining reader.old) (λ input. INPUT_BYTES < length input) }
    ensures kept { IfErr result (λ e. e ≢ RunError.Write → writer.new ≡ writer.old) }
    ensures errors { IfErr result (λ e. (e ≡ RunError.Size) ⊎ (e ≡ RunError.Read) ⊎
        (e ≡ RunError.Area) ⊎ (e ≡ RunError.Memory) ⊎ (e ≡ RunError.Write)) }
{
    run_once_counted(alloc, &mut CountedReader::new(reader), writer)
}

/// The same of a reader that counts, by at most `INPUT_BYTES + 1` reads. A read that fails is the
/// last.
pub fn run_once_counted<R: CountedRead, W: Write>(
    alloc: Global,
    reader: &mut R,
    writer: &mut W,
) -> Result<(), RunError>
    ensures answer { OnOk result (IfSome (R.remaining reader.old)
        (λ input. IsAnswerTo input (W.contents writer.old) (W.contents writer.new))) }
    ensures area { IsErrOf result RunError.Area →
        IfSome (R.remaining reader.old) (λ input. area_of input ≡ None) }
    ensures no_area { IfSome (R.remaining reader.old) (λ input. area_of input ≡ None →
        IsErrOf result RunError.Area ⊎ IsErrOf result RunError.Size ⊎
        IsErrOf result RunError.Read ⊎ IsErrOf result RunError.Memory) }
    ensures size { IsErrOf result RunError.Size →
        IfSome (R.remaining reader.old) (λ input. INPUT_BYTES < length input) }
    ensures kept { IfErr result (λ e. e ≢ RunError.Write → writer.new ≡ writer.old) }
    ensures errors { IfErr result (λ e. (e ≡ RunError.Size) ⊎ (e ≡ RunError.Read) ⊎
        (e ≡ RunError.Area) ⊎ (e ≡ RunError.Memory) ⊎ (e ≡ RunError.Write)) }
    ensures reads { R.reads reader.new ≤ R.reads reader.old + (INPUT_BYTES + 1) }
    ensures stops { StopsAtFailure result (R.since_failure reader.old)
        (R.since_failure reader.new) }
{
    let bytes = read_rest(alloc, reader)?;
    let mut area = read_area_line(&bytes)?;
    answer_area(alloc, &mut area)?;
    write_area_line(&area, writer)
}

/// The area that the one line of an input has as its digits, of either case.
fn read_area_line(input: &[u8]) -> Result<[u8; AREA_BYTES], RunError>
    ensures { MatchResult result
        (λ area. area_of input.now ≡ Some area)
        (λ e. (e ≡ RunError.Area) × (area_of input.now ≡ None)) }
{
    let Some(line) = only_line(input) else {
        return Err(RunError::Area);
    };
    <[u8; AREA_BYTES] as FromHex>::from_hex(line).map_err(|_| RunError::Area)
}

/// Writes an area in lower-case digits, and a line feed.
fn write_area_line<W: Write>(area: &[u8; AREA_BYTES], writer: &mut W) -> Result<(), RunError>
    ensures ok { OnOk result (Appends (W.contents writer.old) (W.contents writer.new)
        (area_text area.now)) }
    ensures errors { IfErr result (λ e. e ≡ RunError.Write) }
{
    let mut digits = [0u8; 2 * AREA_BYTES];
    if hex::encode_to_slice(area, &mut digits).is_err() {
        return Err(RunError::Write);
    }
    writer.write_all(&digits).map_err(|_| RunError::Write)?;
    writer.write_all(b"\n").map_err(|_| RunError::Write)
}
