//! How often a row of a dump repeats.
ghost use Rattle.std.specs.Prelude.{◌≡◌, OnOk, IfOk};
ghost use Rattle.scmi_decode.specs.DumpEnd.{addressed, copies, filled, is_base_sure, is_rows_on, lacks_rows, last_row, made_unclear, repeated_to, repeating, rows_before};

use crate::cell::Cell;
use crate::dump_end::DumpEnd;
use crate::first_column::no_column;
use crate::order::Order;
use std::alloc::{AllocError, Global};
use std::mem;

/// The most bytes that `*` repeats (own).
pub(crate) const REPEATED_BYTES: u64 = 0x1_0000;

/// After so many bytes of rows the next address shows its base (own). If rows follow one another in two
/// bases, so that their addresses grow by as much in both, only the last digit has changed: the digits
/// before it are worth more in the larger base, the more the larger they are. So the addresses have grown
/// by at most 9 in decimal and hexadecimal digits, and by at most 7 if one base is octal.
pub(crate) const SURE_BYTES: usize = 10;

impl DumpEnd {
    /// Whether rows are fewer than their dump has: it is unclear how often one repeats, or no address
    /// says it.
    pub(crate) fn lacks_rows(&self) -> bool
        ensures { result ≡ lacks_rows self.now }
    {
        self.unclear || self.repeats
    }

    /// Whether the base of addresses is sure.
    pub(crate) fn is_base_sure(&self) -> bool
        ensures { result ≡ is_base_sure self.now }
    {
        self.cells.len().saturating_sub(self.width) >= SURE_BYTES
    }

    /// Whether an address is whole rows after the last one, and not too far.
    fn is_rows_on(&self, address: u64) -> bool
        ensures { result ≡ is_rows_on self.now address }
    {
        self.width != 0
            && self.next <= address
            && address - self.next <= REPEATED_BYTES
            && (address - self.next) % self.width as u64 == 0
    }

    /// How many rows the last one is repeated before an address.
    fn rows_before(&self, address: u64) -> u64
        ensures { result ≡ rows_before self.now address }
    {
        if self.width == 0 {
            0
        } else {
            address.saturating_sub(self.next) / self.width as u64
        }
    }

    /// The last row.
    fn last_row(&self) -> &[Cell]
        ensures { result.now ≡ last_row self.now }
    {
        &self.cells[self.cells.len().saturating_sub(self.width)..]
    }

    /// Repeats the last row, if it repeats, up to an address, if that is whole rows on.
    #[tactic(auto, unfolding(crate::specs::DumpEnd::filled))]
    pub(super) fn fill(&mut self, alloc: Global, address: u64) -> Result<(), AllocError>
        ensures { OnOk result (self.new ≡ filled self.old address) }
    {
        if !self.repeats {
            return Ok(());
        }
        if self.is_rows_on(address) {
            return self.repeat_to(alloc, address);
        }
        self.make_unclear();
        Ok(())
    }

    /// Repeats the last row up to an address.
    #[tactic(auto, unfolding(crate::specs::DumpEnd::repeated_to))]
    fn repeat_to(&mut self, alloc: Global, address: u64) -> Result<(), AllocError>
        ensures { OnOk result (self.new ≡ repeated_to self.old address) }
    {
        let count = self.rows_before(address);
        let row = copies(alloc, count, self.last_row())?;
        self.cells.extend_from_slice(row.as_slice())?;
        self.repeats = false;
        self.column = no_column();
        Ok(())
    }

    /// Repeats the last row up to the next address.
    #[tactic(auto, unfolding(crate::specs::DumpEnd::repeating))]
    pub(crate) fn repeat(&mut self)
        ensures { self.new ≡ repeating self.old }
    {
        self.repeats = true;
    }

    /// Notes that it is unclear how often a row of it repeats.
    #[tactic(auto, unfolding(crate::specs::DumpEnd::made_unclear))]
    pub(crate) fn make_unclear(&mut self)
        ensures { self.new ≡ made_unclear self.old }
    {
        self.repeats = false;
        self.unclear = true;
    }

    /// Repeats the last row, if the first items are addresses, of which this is the next. The rows have
    /// no bytes before that is read.
    #[tactic(auto, unfolding(crate::specs::DumpEnd::addressed))]
    pub(crate) fn repeat_addressed(&mut self, next: u64)
        ensures { self.new ≡ addressed self.old next }
    {
        self.next = next;
        self.width = self.width.saturating_sub(self.group / 2);
        self.order = Order::Turned;
        self.repeats = true;
        mem::swap(&mut self.cells, &mut self.bare);
        self.bare.clear();
    }
}

/// Copies of a row, as many as the number.
fn copies(alloc: Global, count: u64, row: &[Cell]) -> Result<Vec<Cell>, AllocError>
    ensures { IfOk result (λ all. all.items ≡ copies count row.now) }
{
    let mut all = Vec::new(alloc);
    'copies: for _ in 0..count {
        all.extend_from_slice(row)?;
    }
    Ok(all)
}
