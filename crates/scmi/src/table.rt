//! A board as a file in C.

use crate::table_rows::{
    rate_count, write_agents, write_clocks, write_devices, write_domains, write_rates,
};
use crate::table_said::{InString, protocols_of};
use scmi_board::{BoardLine, BoardWithLines};
use scmi_plan::RawPlan;
use std::io;
use std::io::Write;

/// Writes a board as a file in C: its tables with one row a line, and the board over them. The
/// error is the writer's; some parts may then be written.
pub(crate) fn write_table<W: Write>(writer: &mut W, said: &BoardWithLines) -> io::Result<()> {
    writeln!(writer, "#include \"scmi.h\"\n")?;
    write_agents(writer, said)?;
    write_domains(writer, said)?;
    write_clocks(writer, said)?;
    write_rates(writer, &said.board.clocks)?;
    write_devices(writer, &said.board.devices)?;
    write_board(writer, said)
}

/// Writes the board: its heading, and its tables that have rows.
fn write_board<W: Write>(writer: &mut W, said: &BoardWithLines) -> io::Result<()> {
    let board = &said.board;
    writeln!(writer, "const scmi_board board = {{")?;
    write_heading(writer, board, &said.lines)?;
    write_field(writer, "agent", board.agents.len())?;
    write_field(writer, "domain", board.domains.len())?;
    write_field(writer, "clock", board.clocks.len())?;
    write_field(writer, "rate", rate_count(&board.clocks))?;
    write_field(writer, "device", board.devices.len())?;
    writeln!(writer, "}};")
}

fn write_heading<W: Write>(writer: &mut W, board: &RawPlan, lines: &[BoardLine]) -> io::Result<()> {
    let vendor = InString(&board.vendor);
    let sub_vendor = InString(&board.sub_vendor);
    let version = board.version;
    let trusted = board.trusted;
    write!(
        writer,
        "    .heading = {{ .vendor = \"{vendor}\", .sub_vendor = \"{sub_vendor}\", \
         .version = 0x{version:x}, .trusted = {trusted}"
    )?;
    if let Some(ids) = protocols_of(lines) {
        write_protocols(writer, ids)?;
    }
    writeln!(writer, " }},")
}

/// Writes the ids of the board's protocols.
fn write_protocols<W: Write>(writer: &mut W, ids: &[u8]) -> io::Result<()> {
    write!(writer, ", .protocols = {{ ")?;
    let mut between = "";
    for id in ids {
        write!(writer, "{between}0x{id:x}")?;
        between = ", ";
    }
    write!(writer, " }}")
}

/// Writes the line of the table of these rows, if it has any.
fn write_field<W: Write>(writer: &mut W, row: &str, count: usize) -> io::Result<()> {
    match count {
        0 => Ok(()),
        _ => writeln!(
            writer,
            "    .{row}s = board_{row}s, .{row}_count = {count},"
        ),
    }
}
