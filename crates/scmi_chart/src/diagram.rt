//! A run as a sequence diagram in the text of Mermaid, which GitHub and most editors draw.
ghost use Rattle.std.specs.Prelude.{OnOk};
ghost use Rattle.std.specs.Io.KnownBytes.{Appends};
ghost use Rattle.scmi_chart.specs.Diagram.{agents_text, beside_text, diagram_text, mark_text, marks_text, message_text};

use crate::chart::{Chart, Lifeline};
use crate::diagram_value::DiagramValue;
use crate::mark::{Mark, Message, Side};
use scmi_io::write_filled;
use std::io;
use std::io::Write;

/// The first lines: the title.
const HEAD: &str = "sequenceDiagram\n  title %\n";
/// An agent: number, name, number.
const AGENT: &str = "  participant A% as % (agent %)\n";

const PLATFORM: &str = "  participant P as platform\n";
/// A command that was executed: agent and words. So for the others.
const COMMAND: &str = "  A%->>P: %\n";

const WITHDRAWN: &str = "  A%-xP: % (not executed)\n";

const REFUSED: &str = "  Note over A%: %\n";

const REPLY: &str = "  P-->>A%: %\n";
/// A message of the platform's own accord.
const POSTED: &str = "  P-)A%: %\n";
/// An advance of the pending sets.
const ADVANCE: &str = "  Note over P: advance %\n";
/// Words beside an agent, and beside the platform.
const BESIDE_AGENT: &str = "  Note over A%: %\n";

const BESIDE_PLATFORM: &str = "  Note over P: %\n";
/// The restart of an agent, which the platform was notified of: number and name.
const RESTARTED: &str = "  Note over A%,P: restart %\n";

/// Writes a chart as a diagram: a line for each agent, and one for each mark, in order. It has no
/// states and no slots. The error is the writer's; some lines may then be written.
#[tactic(auto, unfolding(crate::specs::Diagram::diagram_text))]
pub fn write_diagram<W: Write>(writer: &mut W, chart: &Chart) -> io::Result<()>
    ensures { OnOk result (Appends (W.contents writer.old) (W.contents writer.new)
        (diagram_text chart.now)) }
{
    write_filled(writer, HEAD, &[DiagramValue::Outside(&chart.title)])?;
    write_agents(writer, &chart.lifelines)?;
    writer.write_all(PLATFORM.as_bytes())?;
    write_marks(writer, &chart.marks)
}

fn write_agents<W: Write>(writer: &mut W, lifelines: &[Lifeline]) -> io::Result<()>
    ensures { OnOk result (Appends (W.contents writer.old) (W.contents writer.new)
        (agents_text lifelines.now)) }
{
    'agents: for lifeline in lifelines {
        let number = DiagramValue::Number(u32::from(lifeline.agent));
        write_filled(
            writer,
            AGENT,
            &[number, DiagramValue::Outside(&lifeline.name), number],
        )?;
    }
    Ok(())
}

fn write_marks<W: Write>(writer: &mut W, marks: &[Mark]) -> io::Result<()>
    ensures { OnOk result (Appends (W.contents writer.old) (W.contents writer.new)
        (marks_text marks.now)) }
{
    'marks: for mark in marks {
        write_mark(writer, mark)?;
    }
    Ok(())
}

/// Writes a mark; where the platform executes and posts is no line of its own.
fn write_mark<W: Write>(writer: &mut W, mark: &Mark) -> io::Result<()>
    ensures { OnOk result (Appends (W.contents writer.old) (W.contents writer.new)
        (mark_text mark.now)) }
{
    match mark {
        Mark::Command { message, .. } => write_message(writer, COMMAND, message),
        Mark::Withdrawn { message, .. } => write_message(writer, WITHDRAWN, message),
        Mark::Refused { message } => write_message(writer, REFUSED, message),
        Mark::Reply { message, .. } => write_message(writer, REPLY, message),
        Mark::Delayed { message, .. } | Mark::Notification { message } => {
            write_message(writer, POSTED, message)
        }
        Mark::Advance { text, .. } | Mark::Failed { text, .. } => {
            write_filled(writer, ADVANCE, &[DiagramValue::Outside(text)])
        }
        Mark::Closed {
            agent,
            by,
            text,
            ..
        } => write_beside(writer, *by, *agent, text),
        Mark::Remark {
            agent,
            beside,
            text,
            ..
        } => write_beside(writer, *beside, *agent, text),
        Mark::Fault { text, .. } => {
            write_filled(writer, BESIDE_PLATFORM, &[DiagramValue::Outside(text)])
        }
        Mark::Restarted { agent, text, .. } => write_filled(
            writer,
            RESTARTED,
            &[
                DiagramValue::Number(u32::from(*agent)),
                DiagramValue::Outside(text),
            ],
        ),
        Mark::Execution { .. } | Mark::Posted { .. } => Ok(()),
    }
}

fn write_beside<W: Write>(writer: &mut W, side: Side, agent: u8, text: &[u8]) -> io::Result<()>
    ensures { OnOk result (Appends (W.contents writer.old) (W.contents writer.new)
        (beside_text side agent text.now)) }
{
    match side {
        Side::Agent => write_filled(
            writer,
            BESIDE_AGENT,
            &[
                DiagramValue::Number(u32::from(agent)),
                DiagramValue::Outside(text),
            ],
        ),
        Side::Platform => write_filled(writer, BESIDE_PLATFORM, &[DiagramValue::Outside(text)]),
    }
}

fn write_message<W: Write>(writer: &mut W, text: &str, message: &Message) -> io::Result<()>
    ensures { OnOk result (Appends (W.contents writer.old) (W.contents writer.new)
        (message_text text.now message.now)) }
{
    let agent = DiagramValue::Number(u32::from(message.agent));
    write_filled(writer, text, &[agent, DiagramValue::Words(&message.label)])
}
