//! A row of more bytes than others have, which waits for the line behind it.
ghost use Rattle.std.specs.Prelude.{◌≡◌, OnOk, IfOk, map};
ghost use Rattle.scmi_decode.specs.HeldRow.{address_column, column_behind, are_wide, counts_on, filling, fit_one_area, held_row, is_held, is_more, is_repeated, is_wide_line, items_size, judged_row, lack_behind, line_size, may_be_parts, next_column, no_held, pair_lack, released, repeated_row, slack_behind};

use crate::dump::items_cells;
use crate::first_column::{FirstColumn, column_after, has_base, met_by, no_column};
use crate::layout::Layout;
use crate::lines::items_of;
use crate::message_line::is_message;
use crate::no_bytes::NoBytes;
use crate::row::{ROW_BYTES, item_column};
use crate::scan::{after_item, first_item, has_one_item};
use crate::wide_row::is_wide_row;
use scmi_codec::AREA_BYTES;
use std::alloc::{AllocError, Global};
use std::marker::Model;

/// A wide row, which is held since it and the line behind it may be of one dump: the number of its
/// line, its line, which is empty if no row is held, and why the lines beside it refuse it.
#[derive(Drop)]
pub(crate) struct HeldRow {
    pub(crate) number: usize,
    pub(crate) line: Vec<u8>,
    pub(crate) lack: Option<NoBytes>,
}

impl Model for HeldRow {
    ghost use Rattle.scmi_decode.specs.HeldRow.{HeldView};

    ghost Value = { HeldView };

    ghost view = { λ h. record {
      number = h.number;
      line = h.line.items;
      lack = h.lack;
    } };
}

impl HeldRow {
    /// No row.
    pub(crate) fn new(alloc: Global) -> HeldRow
        ensures { result ≡ no_held }
    {
        HeldRow {
            number: 0,
            line: Vec::new(alloc),
            lack: None,
        }
    }

    /// Whether a row is held.
    pub(crate) fn is_held(&self) -> bool
        ensures { result ≡ is_held self.now }
    {
        !self.line.is_empty()
    }

    /// Holds the row of a line of this number, and why the line before refuses it.
    pub(crate) fn hold(
        &mut self,
        number: usize,
        line: &[u8],
        lack: Option<NoBytes>,
    ) -> Result<(), AllocError>
        ensures { OnOk result (self.new ≡ held_row number line.now lack) }
    {
        self.line.clear();
        self.line.extend_from_slice(line)?;
        self.number = number;
        self.lack = lack;
        Ok(())
    }

    /// Holds the row no more.
    #[tactic(auto, unfolding(crate::specs::HeldRow::released))]
    pub(crate) fn release(&mut self)
        ensures { self.new ≡ released self.old }
    {
        self.line.clear();
        self.lack = None;
    }

    /// Notes why the row is refused, if it is and was not before.
    #[tactic(auto, unfolding(crate::specs::HeldRow::judged_row))]
    pub(crate) fn judge(&mut self, lack: Option<NoBytes>)
        ensures { self.new ≡ judged_row self.old lack }
    {
        self.lack = self.lack.or(lack);
    }

    /// Notes that the row repeats.
    #[tactic(auto, unfolding(crate::specs::HeldRow::repeated_row))]
    pub(crate) fn repeat(&mut self)
        ensures { self.new ≡ repeated_row self.old }
    {
        self.lack = Some(NoBytes::Repeats);
    }

    /// Why the row and the line behind it are refused. The only error is out of memory.
    pub(crate) fn lack_behind(
        &self,
        alloc: Global,
        layout: Layout,
        line: &[u8],
    ) -> Result<Option<NoBytes>, AllocError>
        ensures { IfOk result (λ lack. lack ≡ lack_behind layout self.now line.now) }
    {
        if !self.is_held() {
            Ok(None)
        } else if is_repeated(self.lack) {
            Ok(Some(NoBytes::Repeats))
        } else {
            pair_lack(alloc, layout, self.line.as_slice(), line)
        }
    }
}

/// Why a row that does not repeat and the line behind it are refused.
fn pair_lack(
    alloc: Global,
    layout: Layout,
    row: &[u8],
    line: &[u8],
) -> Result<Option<NoBytes>, AllocError>
    ensures { IfOk result (λ lack. lack ≡ pair_lack layout row.now line.now) }
{
    if counts_on(alloc, row, line)? {
        return Ok(Some(NoBytes::WideRow));
    }
    let size = line_size(alloc, row)?;
    let behind = line_size(alloc, line)?;
    if may_be_parts(layout, filling(line), size, behind) {
        Ok(Some(NoBytes::Part))
    } else {
        Ok(None)
    }
}

/// Whether a row is refused since it repeats.
fn is_repeated(lack: Option<NoBytes>) -> bool
    ensures { result ≡ is_repeated lack }
{
    match lack {
        Some(NoBytes::Repeats) => true,
        _ => false,
    }
}

/// Whether a row and the line behind it may be parts of one area: a size of areas says that they
/// are not.
fn may_be_parts(layout: Layout, fill: usize, row: Option<usize>, line: Option<usize>) -> bool
    ensures { result ≡ may_be_parts layout fill row line }
{
    match (layout, row, line) {
        (Layout::Whole, Some(row), Some(line)) => fit_one_area(0, fill, row, line),
        (Layout::From(offset), Some(row), Some(line)) => fit_one_area(offset, fill, row, line),
        _ => false,
    }
}

/// Whether the line behind a row has bytes, no more than the row, and both together have no more
/// from an offset on than an area, without what fills up the last number.
fn fit_one_area(offset: usize, fill: usize, row: usize, line: usize) -> bool
    ensures { result ≡ fit_one_area offset fill row line }
{
    let first = row.saturating_sub(offset);
    let rest = line.saturating_sub(fill);
    line > 0 && line <= row && first.saturating_add(rest) <= AREA_BYTES
}

/// Whether the first items of a wide row and of the line behind it count its bytes.
fn counts_on(alloc: Global, row: &[u8], line: &[u8]) -> Result<bool, AllocError>
    ensures { IfOk result (λ counts. counts ≡ counts_on row.now line.now) }
{
    let next = next_column(alloc, row)?;
    let found = address_column(first_item(line));
    Ok(has_base(met_by(slack_behind(row, line), next, found)))
}

/// The addresses after a wide row, if its first item is one.
fn next_column(alloc: Global, row: &[u8]) -> Result<FirstColumn, AllocError>
    ensures { IfOk result (λ column. column ≡ next_column row.now) }
{
    let size = line_size(alloc, after_item(row))?;
    Ok(column_behind(address_column(first_item(row)), size))
}

/// The addresses after so many bytes, if these are known.
fn column_behind(column: FirstColumn, size: Option<usize>) -> FirstColumn
    ensures { result ≡ column_behind column size }
{
    match size {
        Some(size) => column_after(size, column),
        None => no_column(),
    }
}

/// With how many bytes od may have filled up the last number of a line, by the digits of its first.
fn filling(line: &[u8]) -> usize
    ensures { result ≡ filling line.now }
{
    let digits = first_item(line).len();
    if digits < 17 {
        (digits / 2).saturating_sub(1)
    } else {
        0
    }
}

/// How many bytes the address of a line may be less than the expected one: in the last line of od,
/// which has one item, it may be in the number before it.
fn slack_behind(row: &[u8], line: &[u8]) -> usize
    ensures { result ≡ slack_behind row.now line.now }
{
    if has_one_item(line) { filling(row) } else { 0 }
}

/// An item as an address, if it has as many digits as an address alone.
fn address_column(item: &[u8]) -> FirstColumn
    ensures { result ≡ address_column item.now }
{
    if item.len() > 5 && item.len() < 17 {
        item_column(item)
    } else {
        no_column()
    }
}

/// Whether a line is a wide row. The only error is out of memory.
pub(crate) fn is_wide_line(alloc: Global, line: &[u8]) -> Result<bool, AllocError>
    ensures { IfOk result (λ is_wide. is_wide ≡ is_wide_line line.now) }
{
    let items = items_of(alloc, line)?;
    let size = items_size(alloc, items.as_slice())?;
    Ok(are_wide(items.as_slice(), size))
}

/// Whether items of so many bytes are a wide row: they report no message, and have more bytes than a
/// row, or may have an address before them.
fn are_wide(items: &[&[u8]], size: Option<usize>) -> bool
    ensures { result ≡ are_wide (map (λ item. item.now) items.now) size }
{
    !is_message(items) && (is_wide_row(items) || is_more(size))
}

/// Whether so many bytes are more than a row has.
fn is_more(size: Option<usize>) -> bool
    ensures { result ≡ is_more size }
{
    match size {
        Some(size) => size > ROW_BYTES,
        None => false,
    }
}

/// How many bytes a line has, if each of its items has some.
fn line_size(alloc: Global, line: &[u8]) -> Result<Option<usize>, AllocError>
    ensures { IfOk result (λ size. size ≡ line_size line.now) }
{
    let items = items_of(alloc, line)?;
    items_size(alloc, items.as_slice())
}

/// How many bytes items have, if each of them has some.
fn items_size(alloc: Global, items: &[&[u8]]) -> Result<Option<usize>, AllocError>
    ensures { IfOk result (λ size. size ≡ items_size (map (λ item. item.now) items.now)) }
{
    match items_cells(alloc, items)? {
        Some(cells) => Ok(Some(cells.len())),
        None => Ok(None),
    }
}
