//! Fields, as they are written.

use crate::field::Field;
use crate::flags::{Flags, POWER_FLAGS, RATE_FLAGS, RESET_FLAGS, Reserved, SUPPORTS, Switch};
use crate::name_text::NameText;
use std::io::Write;
use std::{fmt, io};

/// Writes each field on a line of its own, its name and what it contains. The error is the
/// writer's; some parts may then be written.
pub(crate) fn write_fields<W: Write>(writer: &mut W, fields: &[Field]) -> io::Result<()> {
    for field in fields {
        writeln!(writer, "    {field}")?;
    }
    Ok(())
}

impl fmt::Display for Field {
    fn fmt<W: fmt::Write>(&self, f: &mut fmt::Formatter<W>) -> fmt::Result {
        match *self {
            Field::Version(word) => write!(f, "version     {}.{}", word >> 16, word & 0xffff),
            Field::Counts(word) => write_counts(f, word),
            Field::Message(id) => write_id(f, "message     ", id),
            Field::Attributes(word) => write_word(f, "attributes  ", word),
            Field::Name(words) => write!(f, "name        {}", NameText(words)),
            Field::Implementation(word) => write_word(f, "version     ", word),
            Field::Skip(count) => write_number(f, "skip        ", count),
            Field::Agent(agent) => write_agent(f, agent, "the caller"),
            Field::Subject(agent) => write_agent(f, agent, "no agent, 0xffffffff"),
            Field::Device(device) => write_number(f, "device      ", device),
            Field::Protocol(protocol) => write_id(f, "protocol    ", protocol),
            Field::PermitFlags(word) => write_switch(
                f,
                "flags       ",
                Switch(word, "allow", "deny"),
            ),
            Field::ResetFlags(word) => write_flags(f, "flags      ", Flags(word, &RESET_FLAGS)),
            Field::Domains(word) => write_domains(f, word),
            Field::Statistics(words) => write_statistics(f, words),
            Field::Domain(domain) => write_number(f, "domain      ", domain),
            Field::DomainAttributes(word) => write_flags(f, "supports   ", Flags(word, &SUPPORTS)),
            Field::PowerFlags(word) => write_flags(f, "flags      ", Flags(word, &POWER_FLAGS)),
            Field::State(word) => write_state(f, word),
            Field::Enable(word) => write_switch(f, "notify      ", Switch(word, "on", "off")),
            Field::Clocks(word) => write_clocks(f, word),
            Field::Clock(clock) => write_number(f, "clock       ", clock),
            Field::ClockAttributes(word) => write_switch(
                f,
                "attributes  ",
                Switch(word, "on", "off"),
            ),
            Field::Index(index) => write_number(f, "index       ", index),
            Field::RateFlags(word) => write_flags(f, "flags      ", Flags(word, &RATE_FLAGS)),
            Field::Rate(rate) => write!(f, "rate        {rate} Hz"),
            Field::By(0) => f.write_str("by          platform"),
            Field::By(agent) => write_number(f, "by          agent ", agent),
        }
    }
}

/// Writes a number in decimal digits after a name.
fn write_number<W: fmt::Write>(f: &mut fmt::Formatter<W>, name: &str, number: u32) -> fmt::Result {
    write!(f, "{name}{number}")
}

/// Writes a number in hexadecimal digits after a name.
fn write_id<W: fmt::Write>(f: &mut fmt::Formatter<W>, name: &str, id: u32) -> fmt::Result {
    write!(f, "{name}0x{id:x}")
}

/// Writes a word of eight hexadecimal digits after a name.
fn write_word<W: fmt::Write>(f: &mut fmt::Formatter<W>, name: &str, word: u32) -> fmt::Result {
    write!(f, "{name}0x{word:08x}")
}

fn write_switch<W: fmt::Write>(
    f: &mut fmt::Formatter<W>,
    name: &str,
    switch: Switch,
) -> fmt::Result {
    write!(f, "{name}{switch}")
}

fn write_flags<W: fmt::Write>(
    f: &mut fmt::Formatter<W>,
    name: &str,
    flags: Flags<'_>,
) -> fmt::Result {
    write!(f, "{name}{flags}")
}

/// Writes the attributes of the base protocol.
fn write_counts<W: fmt::Write>(f: &mut fmt::Formatter<W>, word: u32) -> fmt::Result {
    let agents = word >> 8 & 0xff;
    let protocols = word & 0xff;
    let reserved = Reserved(word & 0xffff_0000);
    write!(
        f,
        "has         {agents} agents, {protocols} protocols{reserved}"
    )
}

/// Writes an agent, or what the number of no agent is here.
fn write_agent<W: fmt::Write>(f: &mut fmt::Formatter<W>, agent: u32, highest: &str) -> fmt::Result {
    match agent {
        0xffff_ffff => write!(f, "agent       {highest}"),
        0 => f.write_str("agent       0 (platform)"),
        _ => write!(f, "agent       {agent}"),
    }
}

/// Writes the attributes of the power protocol.
fn write_domains<W: fmt::Write>(f: &mut fmt::Formatter<W>, word: u32) -> fmt::Result {
    let domains = word & 0xffff;
    let reserved = Reserved(word & 0xffff_0000);
    write!(f, "domains     {domains}{reserved}")
}

/// Writes statistics memory, by its address and its length.
fn write_statistics<W: fmt::Write>(f: &mut fmt::Formatter<W>, words: [u32; 3]) -> fmt::Result {
    match words {
        [0, 0, 0] => f.write_str("statistics  none"),
        [low, high, length] => write!(f, "statistics  0x{high:08x}{low:08x}, {length} bytes"),
    }
}

fn write_state<W: fmt::Write>(f: &mut fmt::Formatter<W>, word: u32) -> fmt::Result {
    match word {
        0 => f.write_str("state       ON"),
        0x4000_0000 => f.write_str("state       OFF"),
        _ => write!(f, "state       no state, 0x{word:08x}"),
    }
}

/// Writes the attributes of the clock protocol.
fn write_clocks<W: fmt::Write>(f: &mut fmt::Formatter<W>, word: u32) -> fmt::Result {
    let clocks = word & 0xffff;
    let pending = word >> 16 & 0xff;
    let reserved = Reserved(word & 0xff00_0000);
    write!(f, "clocks      {clocks}, {pending} pending{reserved}")
}
