//! Why a line with names encodes no step, in words.

use scmi_codec::{HeldProtocol, HeldRow, PROTOCOLS, Part};
use scmi_explain::{HardwareStatuses, nearest};
use scmi_live::{Unknown, flags_of};
use scmi_plan::RawPlan;
use std::alloc::Global;
use std::fmt;
use std::str::from_utf8;

/// Why a line encodes no step on a board, as a person reads it.
#[derive(Clone, Copy)]
pub struct UnknownText<'a, 'b> {
    pub unknown: Unknown<'a>,
    pub board: &'b RawPlan,
    pub alloc: Global,
}

impl fmt::Display for UnknownText<'_, '_> {
    fn fmt<W: fmt::Write>(&self, f: &mut fmt::Formatter<W>) -> fmt::Result {
        match self.unknown {
            Unknown::Agent(item) => write_part(f, self.board, 2, item, Part::Agent),
            Unknown::Message(item) => write_message(f, self.alloc, item),
            Unknown::Shared(item) => write_item(
                f,
                "each protocol has a message ",
                item,
                "; write base, power or clock before it",
            ),
            Unknown::Elsewhere(message, own, asked) => write_elsewhere(f, message, own, asked),
            Unknown::Nameless(protocol) => write_item(
                f,
                "the messages of protocol ",
                protocol,
                " have no names here; write the message as a number",
            ),
            Unknown::Part(number, item, part) => write_part(f, self.board, number, item, part),
            Unknown::Status(item) => {
                write_item(f, "field 3: \"", item, "\" is not ")?;
                write!(f, "{HardwareStatuses}")
            }
            Unknown::Unit(number, item) => {
                write!(f, "field {number}: a unit follows its number")?;
                write_item(f, " without a space, as in 600", item, "")
            }
            Unknown::Count(name, parts) => fmt::Display::fmt(&Usage { name, parts }, f),
        }
    }
}

/// Writes an item between two texts.
fn write_item<W: fmt::Write>(
    f: &mut fmt::Formatter<W>,
    before: &str,
    item: &[u8],
    behind: &str,
) -> fmt::Result {
    f.write_str(before)?;
    f.write_str(text_or(item, "(not UTF-8)"))?;
    f.write_str(behind)
}

/// Bytes as a text, or another text if they are none.
pub(crate) fn text_or<'a>(bytes: &'a [u8], other: &'a str) -> &'a str {
    match from_utf8(bytes) {
        Ok(text) => text,
        Err(_) => other,
    }
}

/// Writes that an item is no message and no protocol, and the message that it may mean.
fn write_message<W: fmt::Write>(
    f: &mut fmt::Formatter<W>,
    alloc: Global,
    item: &[u8],
) -> fmt::Result {
    write_item(f, "unknown message or protocol \"", item, "\"")?;
    match near_message(alloc, text_or(item, "")) {
        Some(name) => write!(f, "; did you mean {name}?"),
        None => f.write_str("; docs/PROTOCOL.md has the messages"),
    }
}

/// Writes that a message is of its own protocol, and not of the one that is asked for.
fn write_elsewhere<W: fmt::Write>(
    f: &mut fmt::Formatter<W>,
    message: &[u8],
    own: &str,
    asked: &[u8],
) -> fmt::Result {
    write_item(f, "", message, " is a message of the ")?;
    write!(f, "{own} protocol")?;
    write_item(f, ", not of ", asked, "")
}

/// Writes that the item of this number is not this part of a message, and which names there are for
/// the part.
fn write_part<W: fmt::Write>(
    f: &mut fmt::Formatter<W>,
    board: &RawPlan,
    number: usize,
    item: &[u8],
    part: Part,
) -> fmt::Result {
    write!(f, "field {number}")?;
    write_item(f, ": \"", item, "\" is not ")?;
    f.write_str(text_of(part))?;
    write_known(f, board, part)?;
    write_flags(f, part)
}

/// The message whose name is near.
fn near_message(alloc: Global, text: &str) -> Option<&'static str> {
    for protocol in &protocols() {
        if let Some(name) = near_row(alloc, protocol.messages, text) {
            return Some(name);
        }
    }
    None
}

/// The first name of these messages that is near.
fn near_row(alloc: Global, rows: &[HeldRow], text: &str) -> Option<&'static str> {
    let mut names = Vec::new(alloc);
    for row in rows {
        names.push(row.name).ok()?;
    }
    nearest(alloc, &names, text)
}

/// The protocols, with the tables of their messages, which are named here alone, as the table of
/// tasks is.
pub(crate) fn protocols() -> [HeldProtocol; 3] {
    PROTOCOLS
}

/// What a message has in the place of this part.
fn text_of(part: Part) -> &'static str {
    match part {
        Part::Agent | Part::Subject => "an agent",
        Part::Device => "a device's number",
        Part::Protocol => "a protocol",
        Part::Message => "a message of the protocol",
        Part::Domain => "a domain",
        Part::Clock => "a clock",
        Part::State => "a state (on, off or a number)",
        Part::Enable | Part::ClockAttributes => "on, off or a number",
        Part::Rate => "a rate: a whole number of Hz, or with a unit as in 600MHz or 1.5GHz",
        Part::PermitFlags | Part::ResetFlags | Part::PowerFlags | Part::RateFlags => {
            "a flag of this message; expected a number"
        }
        _ => "a number",
    }
}

/// Writes which names the board has for a part.
fn write_known<W: fmt::Write>(
    f: &mut fmt::Formatter<W>,
    board: &RawPlan,
    part: Part,
) -> fmt::Result {
    if !matches!(
        part,
        Part::Agent | Part::Subject | Part::Domain | Part::Clock
    ) {
        return Ok(());
    }
    f.write_str(": the board has")?;
    for place in 0..usize::MAX {
        let Some((number, name)) = named_at(board, part, place) else {
            break;
        };
        write!(f, " {number} {name}")?;
    }
    Ok(())
}

/// The number and the name of the agent, domain or clock in this place of the board, if a part is
/// one and there are so many.
pub(crate) fn named_at(board: &RawPlan, part: Part, place: usize) -> Option<(usize, &str)> {
    match part {
        Part::Agent | Part::Subject => Some((
            place.saturating_add(1),
            board.agents.get(place)?.as_str(),
        )),
        Part::Domain => Some((place, board.domains.get(place)?.name.as_str())),
        Part::Clock => Some((place, board.clocks.get(place)?.name.as_str())),
        _ => None,
    }
}

/// Writes which names flags have in the place of this part.
fn write_flags<W: fmt::Write>(f: &mut fmt::Formatter<W>, part: Part) -> fmt::Result {
    for row in flags_of(part) {
        write_item(f, ", ", row.name, "")?;
    }
    Ok(())
}

/// How the message of this name is used, which has these parts.
#[derive(Clone, Copy)]
pub struct Usage {
    pub name: &'static str,
    pub parts: &'static [Part],
}

impl fmt::Display for Usage {
    fn fmt<W: fmt::Write>(&self, f: &mut fmt::Formatter<W>) -> fmt::Result {
        write!(f, "usage: do AGENT {}", self.name)?;
        for part in self.parts {
            write!(f, " {}", name_of(*part))?;
        }
        Ok(())
    }
}

/// The word for a part in a usage.
fn name_of(part: Part) -> &'static str {
    match part {
        Part::Agent | Part::Subject => "AGENT",
        Part::Device => "DEVICE",
        Part::Protocol => "PROTOCOL",
        Part::Message => "MESSAGE",
        Part::Domain => "DOMAIN",
        Part::Clock => "CLOCK",
        Part::State => "STATE",
        Part::Enable | Part::ClockAttributes => "on|off",
        Part::Rate => "RATE",
        Part::PermitFlags | Part::ResetFlags | Part::PowerFlags | Part::RateFlags => "[FLAGS]",
        Part::Index => "INDEX",
        Part::Skip => "SKIP",
        _ => "NUMBER",
    }
}
