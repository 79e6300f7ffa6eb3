//! Replies, delayed responses and notifications: their forms and their fields.
ghost use Rattle.std.specs.Prelude.{◌≡◌, ◌+◌, ◌/◌};
ghost use Rattle.scmi_decode.specs.Replies.{response_status, has_reply_form, has_protocols, has_rates, reply_fields, delayed_fields, notification_fields};

use crate::field::{Field, Fields, fields_of};
use crate::field_parts::{fields_by, has_list, row_of, words_of};
use scmi_codec::{BASE_PROTOCOL, CLOCK_PROTOCOL, Message, POWER_PROTOCOL, Status};

/// The status of a message that has the form of a reply: its first word is a status, and what follows
/// is nothing for a refusal, and for SUCCESS as many words as the reply to this message has; a list of
/// rates has one at least. `None` for any other form.
pub fn response_status(message: &Message) -> Option<Status>
    ensures { result ≡ response_status message.now }
{
    let [word, words @ ..] = message.payload.as_slice() else {
        return None;
    };
    let status = Status::of_word(*word)?;
    let fits = match status {
        Status::Success => has_reply_form(message.header.protocol(), message.header.id(), words),
        _ => words.is_empty(),
    };
    if fits { Some(status) } else { None }
}

/// Whether these words may follow the status of a successful reply to this message.
fn has_reply_form(protocol: u8, id: u8, words: &[u32]) -> bool
    ensures { result ≡ has_reply_form protocol id words.now }
{
    if protocol == BASE_PROTOCOL && id == 0x6 {
        return has_protocols(words);
    }
    if protocol == CLOCK_PROTOCOL && id == 0x4 {
        return has_rates(words);
    }
    match reply_fields(protocol, id, words) {
        Ok(_) => true,
        Err(Status::NotSupported) => words.is_empty(),
        Err(_) => false,
    }
}

/// Whether words are a number and that many ids of protocols, four to a word.
fn has_protocols(words: &[u32]) -> bool
    ensures { result ≡ has_protocols words.now }
{
    match words {
        [count, ids @ ..] => ids.len() == id_words(*count),
        [] => false,
    }
}

/// The words of so many ids.
fn id_words(count: u32) -> usize
    ensures { result ≡ (count + 3) / 4 }
{
    (count as usize + 3) / 4
}

/// Whether words are a flags word and as many rates as it encodes, one at least.
fn has_rates(words: &[u32]) -> bool
    ensures { result ≡ has_rates words.now }
{
    match words {
        [flags, rates @ ..] => {
            let count = *flags as usize % 4096;
            count != 0 && rates.len() == 2 * count
        }
        [] => false,
    }
}

/// The fields of a successful reply to this message after its status: NOT_SUPPORTED for a message
/// that is not of the profile or whose reply is a list, PROTOCOL_ERROR for another number of words
/// than the reply has.
pub fn reply_fields(protocol: u8, id: u8, words: &[u32]) -> Result<Fields, Status>
    ensures { result ≡ reply_fields protocol id words.now }
{
    let Some(row) = row_of(protocol, id) else {
        return Err(Status::NotSupported);
    };
    if has_list(row.gives) {
        return Err(Status::NotSupported);
    }
    if words.len() != words_of(row.gives) {
        return Err(Status::ProtocolError);
    }
    Ok(fields_by(row.gives, words))
}

/// The fields of a delayed response after its status; none if it has another form.
pub fn delayed_fields(message: &Message) -> Fields
    ensures { result.items ≡ delayed_fields message.now }
{
    let header = message.header;
    let Some(row) = row_of(header.protocol(), header.id()) else {
        return fields_of(&[]);
    };
    match message.payload.as_slice() {
        [_, words @ ..] if words.len() == words_of(row.later) => fields_by(row.later, words),
        _ => fields_of(&[]),
    }
}

/// The fields of a notification; none if it has another form.
pub fn notification_fields(message: &Message) -> Fields
    ensures { result.items ≡ notification_fields message.now }
{
    let header = message.header;
    match (header.protocol(), header.id(), message.payload.as_slice()) {
        (POWER_PROTOCOL, 0x0, [agent, domain, state]) => fields_of(&[
            Field::By(*agent),
            Field::Domain(*domain),
            Field::State(*state),
        ]),
        _ => fields_of(&[]),
    }
}
