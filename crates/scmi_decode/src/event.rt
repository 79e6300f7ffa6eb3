//! The message that a line of Linux's event `scmi_msg_dump` reports, by its fields.
ghost use Rattle.std.specs.Prelude.{◌≡◌, ◌<◌, IfOk, IfSome, map};
ghost use Rattle.std.specs.Int.{to_le_bytes, w32};
ghost use Rattle.std.specs.Option.{option_copied, option_map};
ghost use Rattle.scmi_decode.specs.Event.{behind_name, channel_word, digits_number, event_area, event_area_of, event_header, event_payload, has_status, kind_of, message_type, payload_bytes, signed_word, status_bytes, status_word, value_of, begins_with_minus, negative_word};

use crate::dump::bytes_of;
use crate::message_area::message_area;
use crate::message_words::{
    COMMAND, DELAYED, KIND, MESSAGE_ID, NOTIFICATION, PAYLOAD, PROTOCOL, RESPONSE, STATUS, TOKEN,
};
use crate::number::number_from;
use scmi_codec::Header;
use std::alloc::{AllocError, Global};

/// What an event is of.
#[derive(Clone, Copy)]
pub enum EventKind {
    Command,
    Response,
    Delayed,
    Notification,
}

/// The area that holds an event's message, of the items after the event's name: a response in a
/// free channel, any other message in a busy one. `None` if a field is missing or has another form.
#[tactic(auto, unfolding(crate::specs::Event::event_area))]
pub(crate) fn event_area(alloc: Global, items: &[&[u8]]) -> Result<Option<Vec<u8>>, AllocError>
    ensures { IfOk result (λ found.
        option_map (λ bytes. bytes.items) found ≡ event_area (map (λ item. item.now) items.now)) }
{
    match kind_of(value_of(KIND, items)) {
        Some(kind) => event_area_of(alloc, kind, items),
        None => Ok(None),
    }
}

/// The same, if it is known what the event is of.
fn event_area_of(
    alloc: Global,
    kind: EventKind,
    items: &[&[u8]],
) -> Result<Option<Vec<u8>>, AllocError>
    ensures { IfOk result (λ found. option_map (λ bytes. bytes.items) found ≡
        event_area_of (Some kind) (map (λ item. item.now) items.now)) }
{
    let Some(header) = event_header(kind, items) else {
        return Ok(None);
    };
    let Some(payload) = event_payload(alloc, kind, items)? else {
        return Ok(None);
    };
    let mut message = word_bytes(alloc, header.pack())?;
    message.extend_from_slice(payload.as_slice())?;
    message_area(alloc, channel_word(kind), message.as_slice())
}

/// The header of an event's message: `pt=` has its protocol, `msg_id=` its message id and `seq=` its
/// token.
#[tactic(auto, unfolding(crate::specs::Event::event_header))]
pub(crate) fn event_header(kind: EventKind, items: &[&[u8]]) -> Option<Header>
    ensures { result ≡ event_header kind (map (λ item. item.now) items.now) }
{
    let protocol = digits_number(16, 256, value_of(PROTOCOL, items)?)?;
    let id = digits_number(16, 256, value_of(MESSAGE_ID, items)?)?;
    let token = digits_number(16, 1024, value_of(TOKEN, items)?)?;
    Some(Header::new(message_type(kind), protocol as u8, token as u16, id as u8))
}

/// The payload of an event's message: `s=` has its status, if it has one, and `pyld=` the bytes
/// after it.
#[tactic(auto, unfolding(crate::specs::Event::event_payload))]
pub(crate) fn event_payload(
    alloc: Global,
    kind: EventKind,
    items: &[&[u8]],
) -> Result<Option<Vec<u8>>, AllocError>
    ensures { IfOk result (λ found. option_map (λ bytes. bytes.items) found ≡
        event_payload kind (map (λ item. item.now) items.now)) }
{
    let found = payload_bytes(alloc, value_of(PAYLOAD, items))?;
    if !has_status(kind) {
        return Ok(found);
    }
    let Some(status) = status_word(value_of(STATUS, items)) else {
        return Ok(None);
    };
    let Some(bytes) = found else {
        return Ok(None);
    };
    let mut payload = word_bytes(alloc, status)?;
    payload.extend_from_slice(bytes.as_slice())?;
    Ok(Some(payload))
}

/// The value of a field, which follows its name in the first item that begins with it.
pub(crate) fn value_of<'a>(name: &[u8], items: &[&'a [u8]]) -> Option<&'a [u8]>
    ensures { option_copied result ≡ value_of name.now (map (λ item. item.now) items.now) }
{
    let mut rest = items;
    'items: while let [item, behind @ ..] = rest {
        if let Some(value) = behind_name(name, item) {
            return Some(value);
        }
        rest = behind;
    }
    None
}

/// What follows a name at the beginning of an item, if the item begins with it.
pub(crate) fn behind_name<'a>(name: &[u8], item: &'a [u8]) -> Option<&'a [u8]>
    ensures { option_copied result ≡ behind_name name.now item.now }
{
    item.strip_prefix(name)
}

/// What an event is of, by its field `t=`.
pub(crate) fn kind_of(value: Option<&[u8]>) -> Option<EventKind>
    ensures { result ≡ kind_of (option_copied value.entry) }
{
    let value = value?;
    if value == COMMAND {
        Some(EventKind::Command)
    } else if value == RESPONSE {
        Some(EventKind::Response)
    } else if value == DELAYED {
        Some(EventKind::Delayed)
    } else if value == NOTIFICATION {
        Some(EventKind::Notification)
    } else {
        None
    }
}

/// The message type of an event's message.
fn message_type(kind: EventKind) -> u8
    ensures { result ≡ message_type kind }
{
    match kind {
        EventKind::Command | EventKind::Response => 0,
        EventKind::Delayed => 2,
        EventKind::Notification => 3,
    }
}

/// Whether the payload of an event's message begins with the status.
fn has_status(kind: EventKind) -> bool
    ensures { result ≡ has_status kind }
{
    match kind {
        EventKind::Response | EventKind::Delayed => true,
        EventKind::Command | EventKind::Notification => false,
    }
}

/// The status word of the channel that holds an event's message.
fn channel_word(kind: EventKind) -> u32
    ensures { result ≡ channel_word kind }
{
    match kind {
        EventKind::Response => 1,
        EventKind::Command | EventKind::Delayed | EventKind::Notification => 0,
    }
}

/// The number below a limit that digits of a base are, one digit at least.
pub(crate) fn digits_number(base: u64, limit: u64, digits: &[u8]) -> Option<u64>
    ensures number { result ≡ digits_number base limit digits.now }
    ensures below { IfSome result (λ number. number < limit) }
{
    if digits.is_empty() {
        return None;
    }
    let number = number_from(base, 0, digits)?;
    if number < limit { Some(number) } else { None }
}

/// The word of the field `s=`.
fn status_word(value: Option<&[u8]>) -> Option<u32>
    ensures { result ≡ status_word (option_copied value.entry) }
{
    match value {
        Some(digits) => signed_word(digits),
        None => None,
    }
}

/// The word of a number with or without a sign, in decimal digits.
#[tactic(auto, unfolding(crate::specs::Event::signed_word))]
fn signed_word(digits: &[u8]) -> Option<u32>
    ensures { result ≡ signed_word digits.now }
{
    if begins_with_minus(digits) {
        return negative_word(digits_number(10, 0x80000001, &digits[1..]));
    }
    match digits_number(10, 0x80000000, digits) {
        Some(number) => Some(number as u32),
        None => None,
    }
}

fn begins_with_minus(digits: &[u8]) -> bool
    ensures { result ≡ begins_with_minus digits.now }
{
    match digits {
        [byte, ..] => *byte == b'-',
        [] => false,
    }
}

/// The word of a negative number.
fn negative_word(number: Option<u64>) -> Option<u32>
    requires small { IfSome number (λ number. number < 0x80000001) }
    ensures { result ≡ negative_word number }
{
    match number {
        Some(number) => Some((number as u32).wrapping_neg()),
        None => None,
    }
}

/// The bytes of the field `pyld=`.
fn payload_bytes(alloc: Global, value: Option<&[u8]>) -> Result<Option<Vec<u8>>, AllocError>
    ensures { IfOk result (λ found. option_map (λ bytes. bytes.items) found ≡
        payload_bytes (option_copied value.entry)) }
{
    match value {
        Some(digits) => bytes_of(alloc, digits),
        None => Ok(None),
    }
}

/// The bytes of a word, the lowest first.
fn word_bytes(alloc: Global, word: u32) -> Result<Vec<u8>, AllocError>
    ensures { IfOk result (λ bytes. bytes.items ≡ to_le_bytes w32 word) }
{
    let mut bytes = Vec::new(alloc);
    bytes.extend_from_slice(&word.to_le_bytes())?;
    Ok(bytes)
}
