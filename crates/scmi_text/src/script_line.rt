//! The lines of agents that run in threads, as they are written.
ghost use Rattle.std.specs.Prelude.{◌≡◌, OnOk};
ghost use Rattle.std.specs.Io.KnownBytes.{Appends};
ghost use Rattle.scmi_text.specs.ScriptLine.{line_text, lines_text};

use crate::lines::{CLOSE, CLOSED, ERROR, GOT, LIMIT, NOT_POSTED, UNTIL_LIMIT, UNTIL_OK};
use crate::names::{close_error_name, closing_name, refusal_name};
use crate::received::write_frame;
use crate::value::Value::{Name, Number, Words};
use crate::value::write_agent_line;
use scmi_io::write_filled;
use scmi_link::Line;
use std::io;
use std::io::Write;

/// Writes the line of an agent (own), straight to the writer. The error is the writer's; some parts
/// may then be written.
pub fn write_script_line<W: Write>(writer: &mut W, agent: u32, line: &Line) -> io::Result<()>
    ensures { OnOk result
        (Appends (W.contents writer.old) (W.contents writer.new) (line_text agent line.now)) }
{
    match line {
        Line::Got(payload) => write_agent_line(writer, GOT, agent, Words(payload.as_slice())),
        Line::Error => write_filled(writer, ERROR, &[Number(agent)]),
        Line::Closed => write_filled(writer, CLOSED, &[Number(agent)]),
        Line::NotPosted(refusal) => {
            write_agent_line(writer, NOT_POSTED, agent, Name(refusal_name(*refusal)))
        }
        Line::Limit => write_filled(writer, LIMIT, &[Number(agent)]),
        Line::UntilOk => write_filled(writer, UNTIL_OK, &[Number(agent)]),
        Line::UntilLimit => write_filled(writer, UNTIL_LIMIT, &[Number(agent)]),
        Line::P2a(frame) => write_frame(writer, agent, frame),
        Line::Close(closing) => {
            write_agent_line(writer, CLOSE, agent, Name(closing_name(*closing)))
        }
        Line::NotClosed(error) => {
            write_agent_line(writer, CLOSE, agent, Name(close_error_name(*error)))
        }
    }
}

/// Writes the lines of an agent in their order. The error is the writer's; some of them may then be
/// written.
pub fn write_script_lines<W: Write>(writer: &mut W, agent: u32, lines: &[Line]) -> io::Result<()>
    ensures { OnOk result
        (Appends (W.contents writer.old) (W.contents writer.new) (lines_text agent lines.now)) }
{
    'lines: for line in lines {
        write_script_line(writer, agent, line)?;
    }
    Ok(())
}
