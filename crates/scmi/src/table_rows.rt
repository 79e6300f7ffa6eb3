//! The tables of a board, a row a line. A table without rows is left out.

use crate::table_said::{InString, channel_of, denied_to};
use scmi_board::{BoardLine, BoardWithLines};
use scmi_codec::{AREA_BYTES, PAYLOAD_WORDS};
use scmi_plan::{Device, PENDING_SETS, Rates, RawClock, RawDomain, Resource, Scope};
use std::fmt;
use std::io::{self, Write};

/// The bytes of an area before its payload.
const HEAD_BYTES: u64 = (AREA_BYTES - 4 * PAYLOAD_WORDS) as u64;

pub(crate) fn write_agents<W: Write>(writer: &mut W, said: &BoardWithLines) -> io::Result<()> {
    if said.board.agents.is_empty() {
        return Ok(());
    }
    writeln!(writer, "static const scmi_board_agent board_agents[] = {{")?;
    for (agent, name) in (1..u32::MAX).zip(said.board.agents.iter()) {
        write_agent(writer, agent, name, &said.lines)?;
    }
    write_end(writer)
}

fn write_agent<W: Write>(
    writer: &mut W,
    agent: u32,
    name: &str,
    lines: &[BoardLine],
) -> io::Result<()> {
    let name = InString(name);
    let channel = channel_of(lines, agent);
    let bytes = HEAD_BYTES + 4 * channel.words as u64;
    let one_way = channel.one_way as u8;
    let devices = Mask("denied", denied_to(lines, agent, Scope::Device));
    let power = Mask("denied_power", denied_to(lines, agent, Scope::Power));
    let clocks = Mask("denied_clocks", denied_to(lines, agent, Scope::Clock));
    write!(
        writer,
        "    {{ .name = \"{name}\", .bytes = {bytes}, .one_way = {one_way}"
    )?;
    write_share(writer, channel.share)?;
    writeln!(writer, "{devices}{power}{clocks} }},")
}

/// Writes how many of the pending sets may be an agent's, if they are not all of them.
fn write_share<W: Write>(writer: &mut W, share: u32) -> io::Result<()> {
    if share as usize == PENDING_SETS {
        return Ok(());
    }
    write!(writer, ", .pending = {share}")
}

/// A field with the devices of a mask; nothing if it has none.
#[derive(Clone, Copy)]
struct Mask(&'static str, u32);

impl fmt::Display for Mask {
    fn fmt<W: fmt::Write>(&self, f: &mut fmt::Formatter<W>) -> fmt::Result {
        let Mask(field, devices) = *self;
        if devices == 0 {
            return Ok(());
        }
        write!(f, ", .{field} = 0x{devices:x}")
    }
}

/// Writes what lines of the board say of a domain or a clock, and the end of its row.
fn write_said<W: Write>(writer: &mut W, lines: &[BoardLine], resource: Resource) -> io::Result<()> {
    let kept = text_if(lines, BoardLine::Keep(resource), ", .kept = 1");
    let absent = text_if(lines, BoardLine::Absent(resource), ", .absent = 1");
    let free = match resource {
        Resource::Clock(clock) => text_if(lines, BoardLine::Free(clock), ", .free = 1"),
        Resource::Domain(_) => "",
    };
    writeln!(writer, "{kept}{absent}{free} }},")
}

/// A text, if the board has this line, or else none.
fn text_if(lines: &[BoardLine], line: BoardLine, text: &'static str) -> &'static str {
    if lines.contains(&line) { text } else { "" }
}

pub(crate) fn write_domains<W: Write>(writer: &mut W, said: &BoardWithLines) -> io::Result<()> {
    if said.board.domains.is_empty() {
        return Ok(());
    }
    writeln!(
        writer,
        "static const scmi_board_domain board_domains[] = {{"
    )?;
    for (number, domain) in (0..u32::MAX).zip(said.board.domains.iter()) {
        write_domain(writer, domain)?;
        write_said(writer, &said.lines, Resource::Domain(number))?;
    }
    write_end(writer)
}

/// Writes the beginning of a domain's row.
fn write_domain<W: Write>(writer: &mut W, domain: &RawDomain) -> io::Result<()> {
    let name = InString(&domain.name);
    let on = domain.on as u8;
    let synchronous = domain.synchronous as u8;
    let asynchronous = domain.asynchronous as u8;
    let notify = domain.notify as u8;
    write!(
        writer,
        "    {{ .name = \"{name}\", .on = {on}, .synchronous = {synchronous}, \
         .asynchronous = {asynchronous}, .notify = {notify}"
    )
}

/// Writes clocks, each with the place of its list in the table of rates.
pub(crate) fn write_clocks<W: Write>(writer: &mut W, said: &BoardWithLines) -> io::Result<()> {
    if said.board.clocks.is_empty() {
        return Ok(());
    }
    writeln!(writer, "static const scmi_board_clock board_clocks[] = {{")?;
    let mut first = 0usize;
    for (number, clock) in (0..u32::MAX).zip(said.board.clocks.iter()) {
        write_clock(writer, first, clock)?;
        write_said(writer, &said.lines, Resource::Clock(number))?;
        first = first.saturating_add(list_of(clock).len());
    }
    write_end(writer)
}

/// Writes the beginning of a clock's row.
fn write_clock<W: Write>(writer: &mut W, first: usize, clock: &RawClock) -> io::Result<()> {
    let name = InString(&clock.name);
    let enabled = clock.enabled as u8;
    let rate = clock.rate;
    write!(
        writer,
        "    {{ .name = \"{name}\", .enabled = {enabled}, .rate = {rate}u, "
    )?;
    match &clock.rates {
        Rates::List(list) => {
            let count = list.len();
            write!(writer, ".first = {first}, .count = {count}")
        }
        Rates::Steps { low, high, step } => {
            write!(writer, ".low = {low}u, .high = {high}u, .step = {step}u")
        }
    }
}

/// Writes the rates of the lists of clocks.
pub(crate) fn write_rates<W: Write>(writer: &mut W, clocks: &[RawClock]) -> io::Result<()> {
    if rate_count(clocks) == 0 {
        return Ok(());
    }
    writeln!(writer, "static const uint64_t board_rates[] = {{")?;
    for rate in clocks.iter().flat_map(list_of) {
        writeln!(writer, "    {rate}u,")?;
    }
    write_end(writer)
}

/// How many rates the lists of clocks have.
pub(crate) fn rate_count(clocks: &[RawClock]) -> usize {
    let mut count = 0usize;
    for clock in clocks {
        count = count.saturating_add(list_of(clock).len());
    }
    count
}

/// The rates of a clock's list.
fn list_of(clock: &RawClock) -> &[u64] {
    match &clock.rates {
        Rates::List(list) => list,
        Rates::Steps { .. } => &[],
    }
}

pub(crate) fn write_devices<W: Write>(writer: &mut W, devices: &[Device]) -> io::Result<()> {
    if devices.is_empty() {
        return Ok(());
    }
    writeln!(
        writer,
        "static const scmi_board_device board_devices[] = {{"
    )?;
    for device in devices {
        let domains = device.domains;
        let clocks = device.clocks;
        writeln!(
            writer,
            "    {{ .domains = 0x{domains:x}, .clocks = 0x{clocks:x} }},"
        )?;
    }
    write_end(writer)
}

/// Writes the last line of a table.
fn write_end<W: Write>(writer: &mut W) -> io::Result<()> {
    writeln!(writer, "}};\n")
}
