//! Where a dump ends.
ghost use Rattle.std.specs.Prelude.{◌≡◌, ◌≤◌, ◌+◌, ◌-◌, ◌%◌, ◌^◌, length, OnOk};
ghost use Rattle.scmi_decode.specs.DumpEnd.{are_zeros, bytes_after_group, bytes_before, bytes_behind, column_begun, column_with, cut, emptied, end_of, ended_at, extended, extended_to, has_its_groups, is_even, is_filled_from, is_in_last_group, line_end, no_end, reaches, row_bare, slack_of, takes};

use crate::cell::{Cell, is_zero_in, order_shown};
use crate::first_column::{FirstColumn, column_after, followed, has_base, no_column};
use crate::form::Form;
use crate::order::Order;
use crate::row::{Row, address_of};
use crate::scan::{first_item, has_one_item};
use std::alloc::{AllocError, Global};
use std::marker::Model;

mod repeated;

/// The rows of a dump so far, and where they end: the address after the last one, how many bytes the
/// first one has, how many digits the first group of the last one has, in which order those of the
/// first one are, whether the last one repeats up to the next address, whether it is unclear how often a
/// row of it repeats, the addresses that their first items may be, their bytes, and those without the
/// first items if these may be addresses.
#[derive(Drop)]
pub(crate) struct DumpEnd {
    pub(crate) next: u64,
    pub(crate) width: usize,
    pub(crate) group: usize,
    pub(crate) order: Order,
    pub(crate) repeats: bool,
    pub(crate) unclear: bool,
    pub(crate) column: FirstColumn,
    pub(crate) cells: Vec<Cell>,
    pub(crate) bare: Vec<Cell>,
}

impl Model for DumpEnd {
    ghost use Rattle.scmi_decode.specs.DumpEnd.{EndView};

    ghost Value = { EndView };

    ghost view = { λ e. record {
      next = e.next;
      width = e.width;
      group = e.group;
      order = e.order;
      repeats = e.repeats;
      unclear = e.unclear;
      column = e.column;
      cells = e.cells.items;
      bare = e.bare.items;
    } };
}

impl DumpEnd {
    /// No rows.
    pub(crate) fn new(alloc: Global) -> DumpEnd
        ensures { result ≡ no_end }
    {
        DumpEnd {
            next: 0,
            width: 0,
            group: 0,
            order: Order::Straight,
            repeats: false,
            unclear: false,
            column: no_column(),
            cells: Vec::new(alloc),
            bare: Vec::new(alloc),
        }
    }

    /// The addresses that the first items of the rows may be.
    pub(crate) fn column(&self) -> FirstColumn
        ensures { result ≡ self.now.column }
    {
        self.column
    }

    /// Whether a row has the same groups as the rows so far, and is not longer than the first; and no
    /// shorter row came before it.
    pub(crate) fn takes(&self, row: &Row) -> bool
        ensures { result ≡ takes self.now row.now }
    {
        self.has_its_groups(row) && self.is_even() && row.cells.len() <= self.width
    }

    /// Whether the groups of a row are those of the first row; those of a shorter row may be shorter.
    fn has_its_groups(&self, row: &Row) -> bool
        ensures { result ≡ has_its_groups self.now row.now }
    {
        row.group == self.group || row.group < self.group && row.cells.len() < self.width
    }

    /// Whether the rows so far have the same length.
    pub(crate) fn is_even(&self) -> bool
        ensures { result ≡ is_even self.now }
    {
        self.width != 0 && self.cells.len() % self.width == 0
    }

    /// Whether a row at an address, or an end there, is of the same dump: it is the one after the last
    /// row, or rows between them are left out.
    pub(crate) fn reaches(&self, address: u64) -> bool
        ensures { result ≡ reaches self.now address }
    {
        self.lacks_rows() || address == self.next
    }

    /// Its bytes before an address that is not after its last row.
    fn bytes_before(&self, address: u64) -> &[Cell]
        ensures { result.now ≡ bytes_before self.now address }
    {
        &self.cells[..self.count_before(address)]
    }

    /// Its bytes from such an address on.
    fn bytes_behind(&self, address: u64) -> &[Cell]
        ensures { result.now ≡ bytes_behind self.now address }
    {
        &self.cells[self.count_before(address)..]
    }

    /// How many bytes it has before such an address.
    fn count_before(&self, address: u64) -> usize
        ensures value { result ≡ length self.now.cells - (self.now.next - address) }
        ensures bound { result ≤ length self.now.cells }
    {
        let count = self.cells.len() as u64;
        count.saturating_sub(self.next.saturating_sub(address)) as usize
    }

    /// Leaves out its bytes from such an address on; none if it is unclear how often a row repeats.
    #[tactic(auto, unfolding(crate::specs::DumpEnd::cut))]
    fn cut(&mut self, address: u64)
        ensures { self.new ≡ cut self.old address }
    {
        if self.unclear {
            return;
        }
        let count = self.count_before(address);
        self.cells.truncate(count);
    }

    /// Ends at an address: the last row is repeated up to there, or what fills the last group is left
    /// out.
    pub(crate) fn end_at(&mut self, alloc: Global, address: u64) -> Result<(), AllocError>
        ensures { OnOk result (self.new ≡ ended_at self.old address) }
    {
        self.fill(alloc, address)?;
        self.cut(address);
        Ok(())
    }

    /// Goes on with a row.
    #[tactic(auto, unfolding(crate::specs::DumpEnd::extended))]
    fn extend(&mut self, row: &Row) -> Result<(), AllocError>
        ensures { OnOk result (self.new ≡ extended self.old row.now) }
    {
        self.cells.extend_from_slice(row.cells.as_slice())?;
        let bare = row_bare(row);
        if !bare.is_empty() {
            self.bare.extend_from_slice(bare)?;
        }
        self.next = address_after(row);
        self.group = row.group;
        self.column = column_with(self.column, row);
        Ok(())
    }

    /// Goes on with a row, after its last row is repeated up to there.
    pub(crate) fn extend_to(&mut self, alloc: Global, row: &Row) -> Result<(), AllocError>
        ensures { OnOk result (self.new ≡ extended_to self.old row.now) }
    {
        self.fill(alloc, row.address)?;
        self.extend(row)
    }

    /// Begins with a row.
    #[tactic(auto, unfolding(crate::specs::DumpEnd::end_of))]
    pub(crate) fn begin(&mut self, row: &Row) -> Result<(), AllocError>
        ensures { OnOk result (self.new ≡ end_of row.now) }
    {
        self.cells.clear();
        self.cells.extend_from_slice(row.cells.as_slice())?;
        self.bare.clear();
        self.bare.extend_from_slice(row_bare(row))?;
        self.next = address_after(row);
        self.width = row.cells.len();
        self.group = row.group;
        self.order = row.order;
        self.repeats = false;
        self.unclear = false;
        self.column = column_begun(row);
        Ok(())
    }

    /// Leaves out its bytes.
    #[tactic(auto, unfolding(crate::specs::DumpEnd::emptied))]
    pub(crate) fn clear(&mut self)
        ensures { self.new ≡ emptied self.old }
    {
        self.cells.clear();
        self.bare.clear();
    }

    /// The address of a line that has an address alone, that at which the bytes end, or any if rows are
    /// left out.
    #[tactic(auto, unfolding(crate::specs::DumpEnd::line_end))]
    pub(crate) fn line_end(&self, line: &[u8]) -> Option<u64>
        ensures { result ≡ line_end self.now line.now }
    {
        if !has_one_item(line) {
            return None;
        }
        let address = address_of(Form::Offset, first_item(line))?;
        if self.reaches(address) || self.is_filled_from(address) {
            Some(address)
        } else {
            None
        }
    }

    /// Whether the last group is filled up from an address on, as od does by zeros.
    #[tactic(auto, unfolding(crate::specs::DumpEnd::is_filled_from))]
    fn is_filled_from(&self, address: u64) -> bool
        ensures { result ≡ is_filled_from self.now address }
    {
        self.is_in_last_group(address)
            && are_zeros(
                self.order,
                self.bytes_before(address),
                self.bytes_behind(address),
            )
    }

    /// Whether an address is in the last group, and not at its begin.
    fn is_in_last_group(&self, address: u64) -> bool
        ensures { result ≡ is_in_last_group self.now address }
    {
        address < self.next && self.next - address < self.group as u64 / 2
    }
}

/// Whether bytes are zeros in the order that the bytes before them have.
fn are_zeros(order: Order, before: &[Cell], behind: &[Cell]) -> bool
    ensures { result ≡ are_zeros order before.now behind.now }
{
    let order = order_shown(order, before);
    behind.iter().all(|cell| is_zero_in(order, cell))
}

/// The address after a row.
fn address_after(row: &Row) -> u64
    ensures { result ≡ (row.now.address + length row.now.cells) % 2 ^ 64 }
{
    row.address.wrapping_add(row.cells.len() as u64)
}

/// The bytes of a row without its first item, if that may be an address.
pub(crate) fn row_bare(row: &Row) -> &[Cell]
    ensures { result.now ≡ row_bare row.now }
{
    if has_base(row.column) {
        &row.cells[(row.group / 2).min(row.cells.len())..]
    } else {
        &[]
    }
}

/// The column of one row: an address alone begins none.
fn column_begun(row: &Row) -> FirstColumn
    ensures { result ≡ column_begun row.now }
{
    let count = bytes_after_group(row);
    if count == 0 {
        no_column()
    } else {
        column_after(count, row.column)
    }
}

/// A column with one more row.
fn column_with(column: FirstColumn, row: &Row) -> FirstColumn
    ensures { result ≡ column_with column row.now }
{
    followed(slack_of(row), bytes_after_group(row), column, row.column)
}

/// How many bytes the item of a row may be less than the expected address: an address alone, after a
/// number that od filled up, is in that number.
fn slack_of(row: &Row) -> usize
    ensures { result ≡ slack_of row.now }
{
    if bytes_after_group(row) == 0 {
        (row.group / 2).saturating_sub(1)
    } else {
        0
    }
}

/// How many bytes of a row come after its first group.
fn bytes_after_group(row: &Row) -> usize
    ensures { result ≡ bytes_after_group row.now }
{
    row.cells.len().saturating_sub(row.group / 2)
}
