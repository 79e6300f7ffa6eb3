//! Lines of Linux's ftrace, and the messages that they report.
ghost use Rattle.std.specs.Prelude.{◌≡◌, ◌∷◌, [], IfOk, Some, map};
ghost use Rattle.std.specs.Option.{option_copied, option_map};
ghost use Rattle.scmi_codec.specs.Word.{word_at};
ghost use Rattle.scmi_decode.specs.Traced.{event_traced, event_traced_of, instance_of, is_event_name, names_event, other_traced, traced_in, words_behind};

use crate::event::{
    EventKind, behind_name, digits_number, event_header, event_payload, kind_of, value_of,
};
use crate::lines::items_of;
use crate::message_line::behind_event;
use crate::message_words::{EVENT_START, INSTANCE, KIND};
use crate::parts::ends_in_colon;
use arrayvec::ArrayVec;
use byteorder::{ByteOrder, LittleEndian};
use scmi_codec::{Message, Payload};
use std::alloc::{AllocError, Global};

/// What a line is, as one of Linux's ftrace.
#[derive(Drop)]
pub enum Traced {
    /// The message that an event `scmi_msg_dump` reports, and its instance of SCMI.
    Message {
        instance: u32,
        kind: EventKind,
        message: Message,
    },
    /// Such an event, but a field of it is missing or has another form.
    Unreadable,
    /// Another event of SCMI.
    Other,
    /// No event of SCMI.
    Nothing,
}

/// What a line is: the message that its event `scmi_msg_dump` reports, or else whether an item of
/// it is the name of another event, which begins with `scmi_` and ends with `:`. The only possible
/// error: out of memory.
pub fn read_traced(alloc: Global, line: &[u8]) -> Result<Traced, AllocError>
    ensures { IfOk result (λ traced. traced ≡ traced_in line.now) }
{
    let items = items_of(alloc, line)?;
    match behind_event(items.as_slice()) {
        Some(behind) => read_event(alloc, behind),
        None => Ok(other_event(items.as_slice())),
    }
}

/// What items are that hold no event `scmi_msg_dump`.
fn other_event(items: &[&[u8]]) -> Traced
    ensures { result ≡ other_traced (map (λ item. item.now) items.now) }
{
    if names_event(items) {
        Traced::Other
    } else {
        Traced::Nothing
    }
}

/// Whether an item is the name of an event of SCMI.
fn names_event(items: &[&[u8]]) -> bool
    ensures { result ≡ names_event (map (λ item. item.now) items.now) }
{
    let mut rest = items;
    'items: while let [item, behind @ ..] = rest {
        if is_event_name(item) {
            return true;
        }
        rest = behind;
    }
    false
}

/// Whether an item is the name of an event of SCMI: it begins with `scmi_` and ends with `:`.
fn is_event_name(item: &[u8]) -> bool
    ensures { result ≡ is_event_name item.now }
{
    behind_name(EVENT_START, item).is_some() && ends_in_colon(item)
}

/// The message of an event, of the items after its name.
#[tactic(auto, unfolding(crate::specs::Traced::event_traced))]
fn read_event(alloc: Global, items: &[&[u8]]) -> Result<Traced, AllocError>
    ensures { IfOk result (λ traced. traced ≡ event_traced (map (λ item. item.now) items.now)) }
{
    match kind_of(value_of(KIND, items)) {
        Some(kind) => read_event_of(alloc, kind, items),
        None => Ok(Traced::Unreadable),
    }
}

/// The same, if it is known what the event is of.
fn read_event_of(alloc: Global, kind: EventKind, items: &[&[u8]]) -> Result<Traced, AllocError>
    ensures { IfOk result (λ traced.
        traced ≡ event_traced_of (Some kind) (map (λ item. item.now) items.now)) }
{
    let Some(instance) = instance_of(value_of(INSTANCE, items)) else {
        return Ok(Traced::Unreadable);
    };
    let Some(header) = event_header(kind, items) else {
        return Ok(Traced::Unreadable);
    };
    let Some(bytes) = event_payload(alloc, kind, items)? else {
        return Ok(Traced::Unreadable);
    };
    let Some(payload) = words_behind(ArrayVec::new(), bytes.as_slice()) else {
        return Ok(Traced::Unreadable);
    };
    Ok(Traced::Message {
        instance,
        kind,
        message: Message { header, payload },
    })
}

/// The instance of SCMI that an event is of: a decimal number, 0 without the field.
fn instance_of(value: Option<&[u8]>) -> Option<u32>
    ensures { result ≡ instance_of (option_copied value.entry) }
{
    match value {
        Some(digits) => match digits_number(10, 0x1_0000_0000, digits) {
            Some(number) => Some(number as u32),
            None => None,
        },
        None => Some(0),
    }
}

/// These payload words, and those of bytes behind them, the lowest byte first. `None` if the last
/// of them is not whole, or there are more than `PAYLOAD_WORDS`.
fn words_behind(mut words: Payload, bytes: &[u8]) -> Option<Payload>
    ensures { option_map (λ payload. payload.items) result ≡ words_behind words.items bytes.now }
{
    let mut rest = bytes;
    'words: while let [a, b, c, d, behind @ ..] = rest {
        if words.is_full() {
            return None;
        }
        words.push(word_of(*a, *b, *c, *d));
        rest = behind;
    }
    if rest.is_empty() { Some(words) } else { None }
}

/// The word of four bytes, the lowest first.
fn word_of(a: u8, b: u8, c: u8, d: u8) -> u32
    ensures { result ≡ word_at 0 (a ∷ b ∷ c ∷ d ∷ []) }
{
    LittleEndian::read_u32(&[a, b, c, d])
}
