//! Why a line with names encodes no step.

use crate::items::items_of;
use crate::messages::{id_in, id_of, message_named, protocol_of};
use crate::named_step::{agent_of, step_form};
use crate::rate::zeros_of;
use crate::reports::report_form;
use crate::word::{is_flags, words_of_item};
use scmi_board::word;
use scmi_codec::{CLOCK_PROTOCOL, Fault, POWER_PROTOCOL, PROTOCOLS, Part, listed_row, rows_of};
use scmi_decode::protocol_name;
use scmi_plan::RawPlan;
use scmi_text::{AgentForm, CommandForm, ReportForm, StepForm};
use std::alloc::Global;

/// Why a line encodes no step, when its names are looked up.
#[derive(Clone, Copy)]
pub enum Unknown<'a> {
    /// This item is not an agent of the board.
    Agent(&'a [u8]),
    /// This item is not a message, a protocol or a number.
    Message(&'a [u8]),
    /// More protocols than one have this message.
    Shared(&'a [u8]),
    /// This item is a message of this protocol alone, and the item before it is another protocol.
    Elsewhere(&'a [u8], &'static str, &'a [u8]),
    /// This item is a protocol whose messages have no names here.
    Nameless(&'a [u8]),
    /// This item, of this number in the line, does not encode this part of the message.
    Part(usize, &'a [u8], Part),
    /// This item is no status by which hardware refuses a change.
    Status(&'a [u8]),
    /// This item, of this number in the line, is a unit without its number.
    Unit(usize, &'a [u8]),
    /// The message, of this name, has these parts, and there are more or fewer items.
    Count(&'static str, &'static [Part]),
}

/// Why a line encodes no step, if it has names: `None` if its form is not known, all its items are
/// numbers, or a byte of it is not a printable character, such as a carriage return at its end.
pub fn unknown_in<'a>(
    alloc: Global,
    board: &RawPlan,
    agents: u32,
    text: &'a [u8],
) -> Option<Unknown<'a>> {
    if !text
        .iter()
        .all(|byte| byte.is_ascii_graphic() || *byte == b' ')
    {
        return None;
    }
    let items = items_of(alloc, text).ok()?;
    match items.as_slice() {
        [first, second, rest @ ..] => match step_form(*first)? {
            StepForm::Advance => None,
            StepForm::Report => unknown_report(board, *second, rest),
            StepForm::Of(form) => unknown_of_agent(board, agents, form, *second, rest),
        },
        _ => None,
    }
}

/// Why an agent and the items after it encode no step of this form.
fn unknown_of_agent<'a>(
    board: &RawPlan,
    agents: u32,
    form: AgentForm,
    who: &'a [u8],
    items: &[&'a [u8]],
) -> Option<Unknown<'a>> {
    if word(who).is_some() && items.iter().all(|item| word(*item).is_some()) {
        return None;
    }
    if agent_of(board, agents, who).is_none() {
        return Some(Unknown::Agent(who));
    }
    match form {
        AgentForm::Command(CommandForm::Refuse) => match items {
            [status, ..] if Fault::of_name(*status).is_none() => Some(Unknown::Status(*status)),
            [_, command @ ..] => unknown_command(board, 4, command),
            [] => None,
        },
        AgentForm::Command(_) => unknown_command(board, 3, items),
        _ => None,
    }
}

/// Why the items of a report encode nothing.
fn unknown_report<'a>(board: &RawPlan, kind: &[u8], items: &[&'a [u8]]) -> Option<Unknown<'a>> {
    let (protocol, parts) = parts_of(report_form(kind)?)?;
    if let Some(unit) = unit_alone(&parts, 3, items) {
        return Some(unit);
    }
    let mut number: usize = 3;
    for (item, part) in items.iter().zip(parts.iter()) {
        if words_of_item(board, protocol, *part, *item).is_none() {
            return Some(Unknown::Part(number, *item, *part));
        }
        number = number.saturating_add(1);
    }
    None
}

/// What a report of this form has that may have a name, and the protocol of its messages.
fn parts_of(form: ReportForm) -> Option<(u8, [Part; 2])> {
    match form {
        ReportForm::State => Some((POWER_PROTOCOL, [Part::Domain, Part::State])),
        ReportForm::Rate | ReportForm::Settled => {
            Some((CLOCK_PROTOCOL, [Part::Clock, Part::Rate]))
        }
        ReportForm::Enabled => Some((CLOCK_PROTOCOL, [Part::Clock, Part::Enable])),
        ReportForm::First => None,
    }
}

/// Why items, of which the first has this number in the line, encode no command.
fn unknown_command<'a>(board: &RawPlan, number: usize, items: &[&'a [u8]]) -> Option<Unknown<'a>> {
    let next = number.saturating_add(1);
    match items {
        [first, rest @ ..] => match (protocol_of(*first), rest) {
            (Some(protocol), [message, behind @ ..]) => match id_of(protocol, *message) {
                Some(id) => unknown_payload(board, protocol, id, next.saturating_add(1), behind),
                None => Some(unknown_message(*first, protocol, *message)),
            },
            (Some(_), []) => None,
            (None, _) => unknown_name(board, *first, next, rest),
        },
        [] => None,
    }
}

/// Why an item is no message of the protocol that the item before it encodes.
fn unknown_message<'a>(asked: &'a [u8], protocol: u8, message: &'a [u8]) -> Unknown<'a> {
    if rows_of(protocol).is_empty() {
        return Unknown::Nameless(asked);
    }
    match message_named(message).and_then(|(own, _)| protocol_name(own)) {
        Some(own) => Unknown::Elsewhere(message, own, asked),
        None => Unknown::Message(message),
    }
}

/// The same if the item before these is to be the name of a message.
fn unknown_name<'a>(
    board: &RawPlan,
    name: &'a [u8],
    number: usize,
    items: &[&'a [u8]],
) -> Option<Unknown<'a>> {
    if let Some((protocol, id)) = message_named(name) {
        return unknown_payload(board, protocol, id, number, items);
    }
    if PROTOCOLS
        .iter()
        .any(|row| id_in(row.messages, name).is_some())
    {
        return Some(Unknown::Shared(name));
    }
    Some(Unknown::Message(name))
}

/// Why items, of which the first has this number in the line, are not the payload of a message.
fn unknown_payload<'a>(
    board: &RawPlan,
    protocol: u8,
    id: u8,
    mut number: usize,
    mut items: &[&'a [u8]],
) -> Option<Unknown<'a>> {
    let row = listed_row(protocol, u32::from(id))?;
    let mut parts = row.asks;
    if let Some(unit) = unit_alone(parts, number, items) {
        return Some(unit);
    }
    let flags = parts.iter().filter(|part| is_flags(**part)).count();
    if items.len() > parts.len() || items.len() + flags < parts.len() {
        return Some(Unknown::Count(row.name, row.asks));
    }
    while let [part, behind @ ..] = parts {
        parts = behind;
        if is_flags(*part) && items.len() == behind.len() {
            continue;
        }
        let [item, left @ ..] = items else {
            return Some(Unknown::Count(row.name, row.asks));
        };
        if words_of_item(board, protocol, *part, *item).is_none() {
            return Some(Unknown::Part(number, *item, *part));
        }
        number = number.saturating_add(1);
        items = left;
    }
    Some(Unknown::Count(row.name, row.asks))
}

/// The first of these items that is a unit without its number, if the message has a rate.
fn unit_alone<'a>(parts: &[Part], mut number: usize, items: &[&'a [u8]]) -> Option<Unknown<'a>> {
    if !parts.iter().any(|part| *part == Part::Rate) {
        return None;
    }
    for item in items {
        if zeros_of(*item).is_some() {
            return Some(Unknown::Unit(number, *item));
        }
        number = number.saturating_add(1);
    }
    None
}
