//! The commands that items encode.
ghost use Rattle.std.specs.Prelude.{◌≡◌, map};
ghost use Rattle.scmi_plan.specs.RawPlan.{asked_board};
ghost use Rattle.scmi_live.specs.NamedStep.{call_by, call_of, call_of_message, call_of_name, call_of_protocol};

use crate::messages::{id_of, message_named, protocol_of};
use crate::payload::payload_meant;
use scmi_plan::RawPlan;
use scmi_text::Call;

/// The command of a message by its name, or of a protocol and a message of it; the payload follows.
pub(crate) fn call_of(board: &RawPlan, items: &[&[u8]]) -> Option<Call>
    ensures { result ≡ call_of (asked_board board.now) (map (λ item. item.now) items.now) }
{
    match items {
        [first, rest @ ..] => call_by(board, protocol_of(*first), *first, rest),
        [] => None,
    }
}

/// The command of a protocol if the first item encodes one, and else of the message of that name.
fn call_by(board: &RawPlan, protocol: Option<u8>, first: &[u8], items: &[&[u8]]) -> Option<Call>
    ensures { result ≡ call_by (asked_board board.now) protocol first.now
        (map (λ item. item.now) items.now) }
{
    match protocol {
        Some(protocol) => call_of_protocol(board, protocol, items),
        None => call_of_name(board, first, items),
    }
}

/// The command of a protocol, of which the message comes first.
fn call_of_protocol(board: &RawPlan, protocol: u8, items: &[&[u8]]) -> Option<Call>
    ensures { result ≡ call_of_protocol (asked_board board.now) protocol
        (map (λ item. item.now) items.now) }
{
    match items {
        [message, rest @ ..] => call_of_message(board, protocol, id_of(protocol, *message)?, rest),
        [] => None,
    }
}

/// The command whose message has this name.
fn call_of_name(board: &RawPlan, name: &[u8], items: &[&[u8]]) -> Option<Call>
    ensures { result ≡ call_of_name (asked_board board.now) name.now
        (map (λ item. item.now) items.now) }
{
    let (protocol, id) = message_named(name)?;
    call_of_message(board, protocol, id, items)
}

/// The command of a message whose payload follows.
fn call_of_message(board: &RawPlan, protocol: u8, message: u8, items: &[&[u8]]) -> Option<Call>
    ensures { result ≡ call_of_message (asked_board board.now) protocol message
        (map (λ item. item.now) items.now) }
{
    let payload = payload_meant(board, protocol, message, items)?;
    Some(Call {
        protocol,
        message,
        payload,
    })
}
