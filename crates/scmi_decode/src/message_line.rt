//! Lines that report a message: of Linux's event `scmi_msg_dump`, or of a script.
ghost use Rattle.std.specs.Prelude.{◌≡◌, IfOk, map};
ghost use Rattle.std.specs.Option.{option_map};
ghost use Rattle.scmi_decode.specs.MessageLine.{behind_event, behind_got, got_or_own, is_agent, is_got, is_message, items_alone, items_lack, items_layout, own_bytes, own_order};

use crate::cell::{bytes_in, bytes_of_order};
use crate::dump::items_cells;
use crate::event::{digits_number, event_area};
use crate::form::Form;
use crate::group_order::{group_of, order_of};
use crate::layout::Layout;
use crate::lines::first_full;
use crate::message_area::message_area;
use crate::message_words::{EVENT, GOT, P2A, REPLY};
use crate::no_bytes::NoBytes;
use crate::order::Order;
use crate::wide_row::is_wide_row;
use std::alloc::{AllocError, Global};

/// The bytes that the items of a line encode alone: the area of the message that they report, or
/// else their own. The only possible error: out of memory.
pub(crate) fn alone_bytes(alloc: Global, items: &[&[u8]]) -> Result<Option<Vec<u8>>, AllocError>
    ensures { IfOk result (λ found. option_map (λ bytes. bytes.items) found ≡
        items_alone (map (λ item. item.now) items.now)) }
{
    match behind_event(items) {
        Some(behind) => event_area(alloc, behind),
        None => got_or_own(alloc, items),
    }
}

/// What follows the name of the event, if it is among the items.
pub(crate) fn behind_event<'a, 'b>(items: &'b [&'a [u8]]) -> Option<&'b [&'a [u8]]>
    ensures { option_map (λ behind. map (λ item. item.now) behind.now) result
        ≡ behind_event (map (λ item. item.now) items.now) }
{
    let mut rest = items;
    'items: while let [item, behind @ ..] = rest {
        if *item == EVENT {
            return Some(behind);
        }
        rest = behind;
    }
    None
}

/// The area of the message that an agent has got by a line, or else the bytes of its items.
fn got_or_own(alloc: Global, items: &[&[u8]]) -> Result<Option<Vec<u8>>, AllocError>
    ensures { IfOk result (λ found. option_map (λ bytes. bytes.items) found ≡
        got_or_own (behind_got (map (λ item. item.now) items.now))
        (map (λ item. item.now) items.now)) }
{
    let Some(behind) = behind_got(items) else {
        return own_bytes(alloc, items);
    };
    let Some(cells) = items_cells(alloc, behind)? else {
        return Ok(None);
    };
    let message = bytes_in(alloc, true, cells.as_slice())?;
    message_area(alloc, 1, message.as_slice())
}

/// The bytes of a line that reports no message; none if it may be a row that is too wide.
fn own_bytes(alloc: Global, items: &[&[u8]]) -> Result<Option<Vec<u8>>, AllocError>
    ensures { IfOk result (λ found. option_map (λ bytes. bytes.items) found ≡
        own_bytes (map (λ item. item.now) items.now)) }
{
    if is_wide_row(items) {
        return Ok(None);
    }
    match items_cells(alloc, items)? {
        Some(cells) => bytes_of_order(alloc, own_order(items), cells.as_slice()),
        None => Ok(None),
    }
}

/// The order of the digits of a line that has several items.
fn own_order(items: &[&[u8]]) -> Order
    ensures { result ≡ own_order (map (λ item. item.now) items.now) }
{
    order_of(Form::Plain, group_of(first_full(items)), 0, false)
}

/// Which bytes of a line that is a dump of its own are areas: a message that is reported is one area,
/// whatever the layout of dumps.
pub(crate) fn items_layout(layout: Layout, items: &[&[u8]]) -> Layout
    ensures { result ≡ items_layout layout (map (λ item. item.now) items.now) }
{
    if is_message(items) {
        Layout::Whole
    } else {
        layout
    }
}

/// Whether a line reports a message.
pub(crate) fn is_message(items: &[&[u8]]) -> bool
    ensures { result ≡ is_message (map (λ item. item.now) items.now) }
{
    behind_event(items).is_some() || behind_got(items).is_some()
}

/// Why items have no bytes, if they have none.
pub(crate) fn items_lack(alloc: Global, items: &[&[u8]]) -> Result<NoBytes, AllocError>
    ensures { IfOk result (λ lack. lack ≡ items_lack (map (λ item. item.now) items.now)) }
{
    if !is_message(items) && is_wide_row(items) {
        Ok(NoBytes::WideRow)
    } else if items_cells(alloc, items)?.is_some() {
        Ok(NoBytes::Order)
    } else {
        Ok(NoBytes::Digits)
    }
}

/// What follows an agent and the word for a message that it has got.
pub(crate) fn behind_got<'a, 'b>(items: &'b [&'a [u8]]) -> Option<&'b [&'a [u8]]>
    ensures { option_map (λ behind. map (λ item. item.now) behind.now) result
        ≡ behind_got (map (λ item. item.now) items.now) }
{
    let [agent, items @ ..] = items else {
        return None;
    };
    let [got, items @ ..] = items else {
        return None;
    };
    if is_agent(agent) && is_got(got) {
        Some(items)
    } else {
        None
    }
}

/// Whether an item is the number of an agent.
fn is_agent(item: &[u8]) -> bool
    ensures { result ≡ is_agent item.now }
{
    digits_number(10, 0x1_0000_0000, item).is_some()
}

/// Whether an item reports that an agent has got the message after it.
fn is_got(item: &[u8]) -> bool
    ensures { result ≡ is_got item.now }
{
    item == REPLY || item == GOT || item == P2A
}
