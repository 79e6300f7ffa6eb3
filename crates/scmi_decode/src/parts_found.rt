//! What is found in the bytes of a dump.
ghost use Rattle.std.specs.Prelude.{◌≡◌, ◌≤◌, ◌∷◌, ◌||◌, [], Some, OnOk, IfErr, IfOk, drop, length, map, take};
ghost use Rattle.std.specs.Option.{option_map};
ghost use Rattle.scmi_decode.specs.Finding.{any_area, bytes_found, dump_findings, is_area_found, part_finding, part_found, parts_found, shown_start};
ghost use Rattle.scmi_decode.specs.Layout.{last_part, part_at, size_of};
ghost use Rattle.scmi_decode.specs.Reported.{Reported};
ghost use Rattle.scmi_decode.specs.declared.layout.Layout.TheVariants.{Each};

use crate::channel::describe_channel;
use crate::decode_error::DecodeError;
use crate::finding::{Finding, Found};
use crate::findings::Findings;
use crate::layout::{Layout, Pieces};
use crate::no_bytes::NoBytes;
use crate::swapped::swapped_of;

/// Reports what is found in a dump that begins at this line, or why it has no bytes; gives whether
/// there is an area. `text` is the line, if that is a dump of its own. `Write` if the output fails.
pub(crate) fn report_dump<S: Findings>(
    sink: &mut S,
    layout: Layout,
    line: usize,
    text: &[u8],
    why: NoBytes,
    bytes: &Option<Vec<u8>>,
) -> Result<bool, DecodeError>
    ensures taken { OnOk result (Reported (S.taken sink.old) (S.taken sink.new) (
        dump_findings layout line why (option_map (λ bytes. bytes.items) bytes.now))) }
    ensures area { IfOk result (λ area. area ≡ any_area (
        dump_findings layout line why (option_map (λ bytes. bytes.items) bytes.now))) }
    ensures errors { IfErr result (λ e. e ≡ DecodeError.Write) }
{
    match bytes {
        Some(bytes) => report_parts(sink, layout, Some(line), bytes),
        None => {
            report_no_bytes(sink, line, text, why)?;
            Ok(false)
        }
    }
}

/// Reports why a dump has no bytes.
fn report_no_bytes<S: Findings>(
    sink: &mut S,
    line: usize,
    text: &[u8],
    why: NoBytes,
) -> Result<(), DecodeError>
    ensures taken { OnOk result (Reported (S.taken sink.old) (S.taken sink.new) (
        record { line = Some line; start = None; found = Found.NoBytes why } ∷ [])) }
    ensures errors { IfErr result (λ e. e ≡ DecodeError.Write) }
{
    let finding = Finding {
        line: Some(line),
        start: None,
        found: Found::NoBytes { why },
    };
    sink.take(&finding, text)
}

/// Reports what is found in bytes, of a dump that begins at this line or of an input of bytes, and
/// gives whether there is an area. `Write` if the output fails.
pub(crate) fn report_parts<S: Findings>(
    sink: &mut S,
    layout: Layout,
    line: Option<usize>,
    bytes: &[u8],
) -> Result<bool, DecodeError>
    ensures taken { OnOk result (Reported (S.taken sink.old) (S.taken sink.new) (
        parts_found layout line bytes.now)) }
    ensures area { IfOk result (λ area. area ≡ any_area (
        parts_found layout line bytes.now)) }
    ensures errors { IfErr result (λ e. e ≡ DecodeError.Write) }
{
    match layout {
        Layout::Whole => report_part(sink, layout, line, 0, bytes, false),
        Layout::From(offset) => {
            let part = bytes_from(bytes, offset);
            let start = bytes.len() - part.len();
            report_part(sink, layout, line, start, part, false)
        }
        Layout::Each(pieces) => report_pieces(sink, pieces, line, bytes),
    }
}

/// The same of areas of one size.
fn report_pieces<S: Findings>(
    sink: &mut S,
    pieces: Pieces,
    line: Option<usize>,
    bytes: &[u8],
) -> Result<bool, DecodeError>
    ensures taken { OnOk result (Reported (S.taken sink.old) (S.taken sink.new) (
        parts_found (Each pieces) line bytes.now)) }
    ensures area { IfOk result (λ area. area ≡ any_area (
        parts_found (Each pieces) line bytes.now)) }
    ensures errors { IfErr result (λ e. e ≡ DecodeError.Write) }
{
    let mut rest = bytes_from(bytes, pieces.offset);
    let mut has_area = false;
    'parts: while rest.len() >= pieces.size() {
        let is_found = report_first(sink, pieces, line, bytes.len(), rest, has_area)?;
        has_area = is_found;
        rest = behind_first(pieces, rest);
    }
    let has_one = report_last(sink, pieces, line, bytes.len(), rest, has_area)?;
    Ok(has_one)
}

/// Reports what the first area is in the rest of a dump of so many bytes, and gives whether it is an
/// area, or one was found before.
fn report_first<S: Findings>(
    sink: &mut S,
    pieces: Pieces,
    line: Option<usize>,
    total: usize,
    rest: &[u8],
    has_area: bool,
) -> Result<bool, DecodeError>
    requires within { length rest.now ≤ total }
    requires room { size_of pieces ≤ length rest.now }
    ensures taken { OnOk result (Reported (S.taken sink.old) (S.taken sink.new) (
        part_finding (Each pieces) line
        (part_at total rest.now (take (size_of pieces) rest.now)) ∷ [])) }
    ensures area { IfOk result (λ area. area ≡ (has_area ||
        is_area_found (part_found (Each pieces) (take (size_of pieces) rest.now)))) }
    ensures errors { IfErr result (λ e. e ≡ DecodeError.Write) }
{
    let start = total - rest.len();
    let area = &rest[..pieces.size()];
    report_part(sink, Layout::Each(pieces), line, start, area, has_area)
}

/// What follows the first area, and the gap after it.
fn behind_first(pieces: Pieces, rest: &[u8]) -> &[u8]
    ensures { result.now ≡ drop pieces.gap (drop (size_of pieces) rest.now) }
{
    bytes_from(bytes_from(rest, pieces.size()), pieces.gap)
}

/// Reports what the rest of a dump of so many bytes is, which has no room for another area, if it has
/// a byte or no area was before it; gives whether it is an area, or one was found before.
#[tactic(auto, using(crate::proofs::Reported::reported_nil))]
fn report_last<S: Findings>(
    sink: &mut S,
    pieces: Pieces,
    line: Option<usize>,
    total: usize,
    rest: &[u8],
    has_area: bool,
) -> Result<bool, DecodeError>
    requires within { length rest.now ≤ total }
    ensures taken { OnOk result (Reported (S.taken sink.old) (S.taken sink.new) (
        map (part_finding (Each pieces) line) (last_part pieces total rest.now))) }
    ensures area { IfOk result (λ area. area ≡ (has_area || any_area (
        map (part_finding (Each pieces) line) (last_part pieces total rest.now)))) }
    ensures errors { IfErr result (λ e. e ≡ DecodeError.Write) }
{
    if !rest.is_empty() || pieces.offset >= total {
        let start = total - rest.len();
        return report_part(sink, Layout::Each(pieces), line, start, rest, has_area);
    }
    Ok(has_area)
}

/// Reports what a part of a dump is, and gives whether it is an area, or one was found before.
pub(crate) fn report_part<S: Findings>(
    sink: &mut S,
    layout: Layout,
    line: Option<usize>,
    start: usize,
    bytes: &[u8],
    has_area: bool,
) -> Result<bool, DecodeError>
    ensures taken { OnOk result (Reported (S.taken sink.old) (S.taken sink.new) (
        part_finding layout line (record { start = start; bytes = bytes.now }) ∷ [])) }
    ensures area { IfOk result (λ area. area ≡
        (has_area || is_area_found (part_found layout bytes.now))) }
    ensures errors { IfErr result (λ e. e ≡ DecodeError.Write) }
{
    let finding = Finding {
        line,
        start: shown_start(layout, start),
        found: part_found(layout, bytes),
    };
    sink.take(&finding, &[])?;
    Ok(has_area || finding.found.is_area())
}

/// What a part of a dump is.
fn part_found(layout: Layout, bytes: &[u8]) -> Found
    ensures { result ≡ part_found layout bytes.now }
{
    match layout {
        Layout::Each(pieces) if bytes.len() < pieces.size() => Found::Cut {
            count: bytes.len(),
            size: pieces.size(),
        },
        _ => bytes_found(bytes),
    }
}

/// What bytes are.
fn bytes_found(bytes: &[u8]) -> Found
    ensures { result ≡ bytes_found bytes.now }
{
    match describe_channel(bytes) {
        Ok(description) => Found::Area {
            description,
            swapped: swapped_of(bytes),
        },
        Err(_) => Found::OtherSize { count: bytes.len() },
    }
}

/// Where a part begins, if not all is read as one area.
pub(crate) fn shown_start(layout: Layout, start: usize) -> Option<usize>
    ensures { result ≡ shown_start layout start }
{
    match layout {
        Layout::Whole => None,
        Layout::From(_) | Layout::Each(_) => Some(start),
    }
}

/// The bytes from this one on; none if there are fewer.
pub(crate) fn bytes_from(bytes: &[u8], start: usize) -> &[u8]
    ensures { result.now ≡ drop start bytes.now }
{
    if start < bytes.len() {
        &bytes[start..]
    } else {
        &[]
    }
}
