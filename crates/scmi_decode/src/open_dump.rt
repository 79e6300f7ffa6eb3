//! A dump over several lines.
ghost use Rattle.std.specs.Prelude.{◌≡◌, OnOk, IfOk};
ghost use Rattle.std.specs.Option.{is_some, option_map};
ghost use Rattle.scmi_decode.specs.Finding.{any_area};
ghost use Rattle.scmi_decode.specs.OpenDump.{added, begun, beside, closed, dump_bytes, dump_found, dump_lack, end_at, end_repeated, ended, form_repeated, goes_on, has_addresses, holding, is_open, is_star, judged_by, may_repeat, no_dump, or_row, repeated, row_at, rows_repeated, same_form, seen};
ghost use Rattle.scmi_decode.specs.HeldRow.{lack_behind};

use crate::cell::{order_shown, settled};
use crate::dump_end::{DumpEnd, row_bare};
use crate::first_column::{counts, is_hexadecimal_alone, lack_beside};
use crate::form::Form;
use crate::held_row::HeldRow;
use crate::layout::Layout;
use crate::no_bytes::NoBytes;
use crate::order::Order;
use crate::reading::{Reading, rows_reading};
use crate::readings::{Readings, Unsaid};
use crate::row::Row;
use crate::scan::{after_gap, has_one_item, item_length};
use std::alloc::{AllocError, Global};
use std::marker::Model;

/// A dump over several lines, as far as it was read, and whether an area was found before it. How it is
/// read is beside what a contract sees.
#[derive(Drop)]
pub(crate) struct OpenDump {
    pub(crate) layout: Layout,
    pub(crate) first: usize,
    form: Form,
    end: DumpEnd,
    pub(crate) held: HeldRow,
    found: bool,
    has_wide_marks: bool,
    unsaid: Unsaid,
}

impl Model for OpenDump {
    ghost use Rattle.scmi_decode.specs.OpenDump.{DumpView};

    ghost Value = { DumpView };

    ghost view = { λ d. record {
      layout = d.layout;
      first = d.first;
      form = d.form;
      end = d.end;
      held = d.held;
      found = d.found;
    } };
}

impl OpenDump {
    /// No dump, and no area found. Dumps have their areas as the layout says.
    pub(crate) fn new(alloc: Global, layout: Layout) -> OpenDump
        ensures { result ≡ no_dump layout }
    {
        OpenDump {
            layout,
            first: 0,
            form: Form::Plain,
            end: DumpEnd::new(alloc),
            held: HeldRow::new(alloc),
            found: false,
            has_wide_marks: false,
            unsaid: Unsaid::new(),
        }
    }

    /// Whether a dump is open.
    pub(crate) fn is_open(&self) -> bool
        ensures { result ≡ is_open self.now }
    {
        !self.end.cells.is_empty()
    }

    /// Its bytes, in the order of its digits; `None` if that is unclear, if its first column may be one
    /// of addresses, or if it is unclear how often a row repeats.
    pub(crate) fn bytes(&self, alloc: Global) -> Result<Option<Vec<u8>>, AllocError>
        ensures { IfOk result (λ found.
            option_map (λ bytes. bytes.items) found ≡ dump_bytes self.now) }
    {
        if self.end.lacks_rows() || counts(self.end.column) {
            return Ok(None);
        }
        settled(alloc, self.end.order, self.end.cells.as_slice())
    }

    /// Why it has no bytes, if it has none.
    pub(crate) fn lack(&self) -> NoBytes
        ensures { result ≡ dump_lack self.now }
    {
        if self.end.lacks_rows() && !counts(self.end.column) {
            NoBytes::Repeats
        } else {
            lack_beside(self.end.column)
        }
    }

    /// Whether an area was found.
    pub(crate) fn found(&self) -> bool
        ensures { result ≡ self.now.found }
    {
        self.found
    }

    /// A row as it is after the rows of the dump, if that is not as it is alone: if these have
    /// addresses alone, its first item is one too.
    pub(crate) fn see(&self, alloc: Global, row: &Row) -> Result<Option<Row>, AllocError>
        ensures { IfOk result (λ other. or_row other row.now ≡ seen self.now row.now) }
    {
        if same_form(self.form, Form::Offset) && same_form(row.form, Form::Plain) {
            row_at(alloc, row)
        } else {
            Ok(None)
        }
    }

    /// Whether a row goes on with the dump.
    #[tactic(auto, unfolding(crate::specs::OpenDump::goes_on))]
    pub(crate) fn goes_on(&self, row: &Row) -> bool
        ensures { result ≡ goes_on self.now row.now }
    {
        self.is_open()
            && same_form(self.form, row.form)
            && self.end.takes(row)
            && (same_form(row.form, Form::Plain) || self.end.reaches(row.address))
    }

    /// Ends at an address: the last row is repeated up to there, or what fills the last group is left
    /// out.
    #[tactic(auto, unfolding(crate::specs::OpenDump::ended))]
    pub(crate) fn end(&mut self, alloc: Global, address: u64) -> Result<(), AllocError>
        ensures { OnOk result (self.new ≡ ended self.old address) }
    {
        self.end.end_at(alloc, address)
    }

    /// Goes on with a row, after its last row is repeated up to there.
    #[tactic(auto, unfolding(crate::specs::OpenDump::added))]
    pub(crate) fn add(&mut self, alloc: Global, row: &Row) -> Result<(), AllocError>
        ensures { OnOk result (self.new ≡ added self.old row.now) }
    {
        self.end.extend_to(alloc, row)
    }

    /// Begins with a row, at a line of this number.
    #[tactic(auto, unfolding(crate::specs::OpenDump::begun))]
    pub(crate) fn begin(&mut self, number: usize, row: &Row) -> Result<(), AllocError>
        ensures { OnOk result (self.new ≡ begun self.old number row.now) }
    {
        self.end.begin(row)?;
        self.first = number;
        self.form = row.form;
        Ok(())
    }

    /// Ends, if it is known whether it has an area, and how that is read.
    #[tactic(auto, unfolding(crate::specs::OpenDump::closed))]
    pub(crate) fn close(&mut self, read: Option<Reading>)
        requires area { is_some read ≡ any_area (dump_found self.old) }
        ensures { self.new ≡ closed self.old }
    {
        if let Some(reading) = read {
            let number = self.number();
            self.unsaid.take_dump(number, reading);
            self.found = true;
        }
        self.end.clear();
        self.held.release();
    }

    /// The number of its first line, or of its wide row.
    fn number(&self) -> usize {
        if self.held.is_held() {
            self.held.number
        } else {
            self.first
        }
    }

    /// Becomes the wide row of a line of this number, and why the line before refuses it.
    #[tactic(auto, unfolding(crate::specs::OpenDump::holding))]
    pub(crate) fn hold(
        &mut self,
        number: usize,
        line: &[u8],
        lack: Option<NoBytes>,
    ) -> Result<(), AllocError>
        ensures { OnOk result (self.new ≡ holding self.old number line.now lack) }
    {
        self.held.hold(number, line, lack)
    }

    /// Notes and gives why its wide row, if it is one, and the line behind it are refused.
    #[tactic(auto, unfolding(crate::specs::OpenDump::judged))]
    pub(crate) fn judge(
        &mut self,
        alloc: Global,
        line: &[u8],
    ) -> Result<Option<NoBytes>, AllocError>
        ensures lack { IfOk result (λ lack.
            lack ≡ lack_behind self.old.layout self.old.held line.now) }
        ensures judged { OnOk result (self.new ≡ judged_by self.old line.now) }
    {
        let lack = self.held.lack_behind(alloc, self.layout, line)?;
        if self.held.is_held() {
            self.held.judge(lack);
        }
        Ok(lack)
    }

    /// How its rows are read.
    pub(crate) fn reading(&self) -> Reading {
        let order = order_shown(self.end.order, self.end.cells.as_slice());
        rows_reading(
            self.form,
            self.has_wide_marks || matches!(order, Order::Turned),
        )
    }

    /// Notes how a line beside the dump was read, if it is an area.
    #[tactic(auto, unfolding(crate::specs::OpenDump::beside))]
    pub(crate) fn note(&mut self, number: usize, read: Option<Reading>)
        ensures { self.new ≡ beside self.old (is_some read) }
    {
        if let Some(reading) = read {
            self.unsaid.take_line(number, reading);
            self.found = true;
        }
    }

    /// Notes whether it has numbers of several bytes, with their mark.
    pub(crate) fn mark(&mut self, has_wide_marks: bool)
        ensures { self.new ≡ self.old }
    {
        self.has_wide_marks = has_wide_marks;
    }

    /// Reports how the areas that have ended are read, if that differs from before.
    pub(crate) fn say<N: Readings>(&mut self, readings: &mut N)
        ensures { self.new ≡ self.old }
    {
        self.unsaid.say(readings);
    }

    /// Whether a line is `*` alone, by which the last row of a dump repeats.
    #[tactic(auto, unfolding(crate::specs::OpenDump::is_star))]
    pub(crate) fn is_star(&self, line: &[u8]) -> bool
        ensures { result ≡ is_star self.now line.now }
    {
        let text = after_gap(line);
        !text.is_empty()
            && text[0] == b'*'
            && (self.held.is_held() || self.is_open())
            && item_length(text) == 1
            && has_one_item(line)
    }

    /// Repeats the last row; how often a wide one does is unclear.
    #[tactic(auto, unfolding(crate::specs::OpenDump::repeated))]
    pub(crate) fn repeat(&mut self)
        ensures { self.new ≡ repeated self.old }
    {
        if self.held.is_held() {
            self.held.repeat();
        } else {
            self.repeat_rows();
        }
    }

    /// Repeats the last row up to the next address, if that will show how often.
    fn repeat_rows(&mut self)
        ensures { self.new ≡ rows_repeated self.old }
    {
        if !may_repeat(self.form, &self.end) {
            self.end.make_unclear();
            return;
        }
        match (self.form, self.end.column().hexadecimal) {
            (Form::Plain, Some(next)) => self.end.repeat_addressed(next),
            _ => self.end.repeat(),
        }
        self.form = form_repeated(self.form);
    }

    /// The address of a line that ends the dump as `hexdump` and `od` do: it has an address alone,
    /// that at which the dump's bytes end, or any if rows are left out.
    #[tactic(auto, unfolding(crate::specs::OpenDump::end_at))]
    pub(crate) fn end_at(&self, line: &[u8]) -> Option<u64>
        ensures { result ≡ end_at self.now line.now }
    {
        if self.is_open() && same_form(self.form, Form::Offset) {
            self.end.line_end(line)
        } else {
            None
        }
    }
}

/// The form of a dump whose last row repeats: then its first items are addresses.
fn form_repeated(form: Form) -> Form
    ensures { result ≡ form_repeated form }
{
    match form {
        Form::Plain => Form::Offset,
        _ => form,
    }
}

/// Whether the next address will show how often the last row repeats: addresses are known, and no
/// shorter row and no unclear `*` came before.
fn may_repeat(form: Form, end: &DumpEnd) -> bool
    ensures { result ≡ may_repeat form end.now }
{
    !end.unclear && end.is_even() && has_addresses(form, end)
}

/// Whether the addresses of rows of a form, and their base, are known: a dump without addresses has a
/// first column that counts its bytes.
fn has_addresses(form: Form, end: &DumpEnd) -> bool
    ensures { result ≡ has_addresses form end.now }
{
    match form {
        Form::Plain => counts(end.column) && is_hexadecimal_alone(end.column),
        Form::Marked | Form::Offset | Form::Equals | Form::Value => end.is_base_sure(),
    }
}

/// A row whose first item is an address, if it is a number.
fn row_at(alloc: Global, row: &Row) -> Result<Option<Row>, AllocError>
    ensures { IfOk result (λ other.
        or_row other row.now ≡ row_at row.now row.now.column.hexadecimal) }
{
    match row.column.hexadecimal {
        Some(address) => {
            let row = Row::offset(alloc, address, row.group, row_bare(row))?;
            Ok(Some(row))
        }
        None => Ok(None),
    }
}

/// Whether two forms are the same.
fn same_form(first: Form, second: Form) -> bool
    ensures { result ≡ same_form first second }
{
    match (first, second) {
        (Form::Plain, Form::Plain)
        | (Form::Marked, Form::Marked)
        | (Form::Offset, Form::Offset)
        | (Form::Equals, Form::Equals)
        | (Form::Value, Form::Value) => true,
        _ => false,
    }
}
