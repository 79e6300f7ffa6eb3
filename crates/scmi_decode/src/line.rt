//! What is found at a line, and in a dump.
ghost use Rattle.std.specs.Prelude.{◌≡◌, ◌⊎◌, OnOk, IfOk, IfErr, IfSome, map};
ghost use Rattle.std.specs.Option.{is_some};
ghost use Rattle.std.specs.List.{slice_split};
ghost use Rattle.scmi_decode.specs.Decoded.{line_found, line_is_area};
ghost use Rattle.scmi_decode.specs.Dump.{is_gap};
ghost use Rattle.scmi_decode.specs.Finding.{any_area};
ghost use Rattle.scmi_decode.specs.HeldRow.{held_found};
ghost use Rattle.scmi_decode.specs.MessageLine.{items_layout};
ghost use Rattle.scmi_decode.specs.OpenDump.{dump_found};
ghost use Rattle.scmi_decode.specs.Reading.{alone_reading};
ghost use Rattle.scmi_decode.specs.Reported.{Reported};

use crate::decode_error::DecodeError;
use crate::findings::Findings;
use crate::held_row::HeldRow;
use crate::layout::Layout;
use crate::lines::{is_described, items_of};
use crate::message_line::{alone_bytes, items_lack, items_layout};
use crate::open_dump::OpenDump;
use crate::parts_found::report_dump;
use crate::reading::{Reading, alone_reading};
use std::alloc::Global;

/// Reports what is found at a line that is a dump of its own; nothing at a line that is empty or
/// begins with `#`. Gives how it is read, if an area is found. `Memory` when out of memory, `Write`
/// if the output fails.
#[tactic(auto, using(crate::proofs::Reported::reported_nil))]
pub fn report_line<S: Findings>(
    alloc: Global,
    sink: &mut S,
    layout: Layout,
    number: usize,
    line: &[u8],
) -> Result<Option<Reading>, DecodeError>
    ensures taken { OnOk result (Reported (S.taken sink.old) (S.taken sink.new) (
        line_found layout number line.now)) }
    ensures area { IfOk result (λ read. is_some read ≡ line_is_area layout number line.now) }
    ensures reading { IfOk result (λ read. IfSome read (λ reading.
        reading ≡ alone_reading (slice_split is_gap line.now))) }
    ensures errors { IfErr result (λ e. (e ≡ DecodeError.Memory) ⊎ (e ≡ DecodeError.Write)) }
{
    if !is_described(line) {
        return Ok(None);
    }
    let items = items_of(alloc, line)?;
    let found = alone_bytes(alloc, items.as_slice())?;
    let lack = items_lack(alloc, items.as_slice())?;
    let layout = items_layout(layout, items.as_slice());
    if report_dump(sink, layout, number, line, lack, &found)? {
        Ok(Some(alone_reading(items.as_slice())))
    } else {
        Ok(None)
    }
}

/// Reports what is found in a row that is held. Gives how it is read, if it is an area.
fn report_held<S: Findings>(
    alloc: Global,
    sink: &mut S,
    layout: Layout,
    row: &HeldRow,
) -> Result<Option<Reading>, DecodeError>
    ensures taken { OnOk result (Reported (S.taken sink.old) (S.taken sink.new) (
        held_found layout row.now)) }
    ensures area { IfOk result (λ read. is_some read ≡ any_area (held_found layout row.now)) }
    ensures errors { IfErr result (λ e. (e ≡ DecodeError.Memory) ⊎ (e ≡ DecodeError.Write)) }
{
    let items = items_of(alloc, row.line.as_slice())?;
    let own = alone_bytes(alloc, items.as_slice())?;
    let (found, lack) = match (own, row.lack) {
        (Some(_), Some(lack)) => (None, lack),
        (own, _) => (own, items_lack(alloc, items.as_slice())?),
    };
    if report_dump(sink, layout, row.number, row.line.as_slice(), lack, &found)? {
        Ok(Some(alone_reading(items.as_slice())))
    } else {
        Ok(None)
    }
}

/// Reports what is found in a dump; nothing if none is open. Gives how it is read, if it is an area.
#[tactic(auto, using(crate::proofs::Reported::reported_nil))]
pub(crate) fn report_open<S: Findings>(
    alloc: Global,
    sink: &mut S,
    dump: &OpenDump,
) -> Result<Option<Reading>, DecodeError>
    ensures taken { OnOk result (Reported (S.taken sink.old) (S.taken sink.new) (
        dump_found dump.now)) }
    ensures area { IfOk result (λ read. is_some read ≡ any_area (dump_found dump.now)) }
    ensures errors { IfErr result (λ e. (e ≡ DecodeError.Memory) ⊎ (e ≡ DecodeError.Write)) }
{
    if dump.held.is_held() {
        return report_held(alloc, sink, dump.layout, &dump.held);
    }
    if !dump.is_open() {
        return Ok(None);
    }
    let found = dump.bytes(alloc)?;
    if report_dump(sink, dump.layout, dump.first, &[], dump.lack(), &found)? {
        Ok(Some(dump.reading()))
    } else {
        Ok(None)
    }
}
