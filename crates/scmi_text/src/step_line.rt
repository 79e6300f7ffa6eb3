//! The lines of a script that runs on one thread, as they are written.
ghost use Rattle.std.specs.Prelude.{OnOk};
ghost use Rattle.std.specs.Io.KnownBytes.{Appends};
ghost use Rattle.scmi_text.specs.StepLine.{step_text};

use crate::lines::{
    ADVANCE_FAILED, ADVANCED, CLOSE, FLUSHED, NOT_POSTED, POSTED, REPORTED, RESTARTED, SERVED,
    SHUT, TOKEN, TRACE,
};
use crate::names::{close_name, flushed_name, refusal_name, served_name, shut_name, yes_or_no};
use crate::received::{write_collected, write_p2a};
use crate::value::Value::{Count, Name, Number};
use crate::value::write_agent_line;
use scmi_codec::Frame;
use scmi_io::write_filled;
use scmi_link::{CloseError, Closing, Collected, Flushed, PostError, Served, ShutError};
use std::io;
use std::io::Write;

/// What came of a step, or of the run: one line of the output.
#[derive(PartialEq, Eq, Debug, Drop)]
pub enum StepLine {
    /// A command was posted with this token.
    Token {
        agent: u32,
        token: u16,
    },
    /// A frame was posted.
    Posted {
        agent: u32,
    },
    /// A post was refused.
    NotPosted {
        agent: u32,
        refusal: PostError,
    },
    /// The platform served the agent.
    Served {
        agent: u32,
        served: Served,
    },
    /// The agent collected.
    Collected {
        agent: u32,
        collected: Collected,
    },
    /// The platform was to complete a pending set; `more` is whether there was one.
    Advanced {
        more: bool,
    },
    /// The platform was to end a pending set, whose change the hardware refuses; `more` is whether
    /// there was one.
    AdvanceFailed {
        more: bool,
    },
    /// The hardware reported a change of its own; `taken` is whether the platform took it over.
    Reported {
        taken: bool,
    },
    /// The platform was to post the first message of the agent's outbox.
    Flushed {
        agent: u32,
        flushed: Flushed,
    },
    /// The agent was to take a P2A message.
    P2a {
        agent: u32,
        frame: Option<Frame>,
    },
    /// The agent's endpoint was to be closed.
    Closed {
        agent: u32,
        closing: Result<Closing, CloseError>,
    },
    /// The platform's endpoint of the agent's channels was to be closed.
    Shut {
        agent: u32,
        result: Result<(), ShutError>,
    },
    /// The platform ended what the agent asked for, which has restarted.
    Restarted {
        agent: u32,
    },
    /// The run has ended, with this many events in its trace.
    Trace {
        events: usize,
    },
}

/// Writes a line (own), straight to the writer, by as many writes as it has parts. The error is the
/// writer's; some parts may then be written.
pub fn write_step_line<W: Write>(writer: &mut W, line: &StepLine) -> io::Result<()>
    ensures { OnOk result (Appends (W.contents writer.old) (W.contents writer.new)
        (step_text line.now)) }
{
    match line {
        StepLine::Token { agent, token } => {
            write_agent_line(writer, TOKEN, *agent, Number(u32::from(*token)))
        }
        StepLine::Posted { agent } => write_filled(writer, POSTED, &[Number(*agent)]),
        StepLine::NotPosted { agent, refusal } => {
            write_agent_line(writer, NOT_POSTED, *agent, Name(refusal_name(*refusal)))
        }
        StepLine::Served { agent, served } => {
            write_agent_line(writer, SERVED, *agent, Name(served_name(*served)))
        }
        StepLine::Collected { agent, collected } => write_collected(writer, *agent, collected),
        StepLine::Advanced { more } => write_filled(writer, ADVANCED, &[Name(yes_or_no(*more))]),
        StepLine::AdvanceFailed { more } => {
            write_filled(writer, ADVANCE_FAILED, &[Name(yes_or_no(*more))])
        }
        StepLine::Reported { taken } => write_filled(writer, REPORTED, &[Name(yes_or_no(*taken))]),
        StepLine::Flushed { agent, flushed } => {
            write_agent_line(writer, FLUSHED, *agent, Name(flushed_name(*flushed)))
        }
        StepLine::P2a { agent, frame } => write_p2a(writer, *agent, frame),
        StepLine::Closed { agent, closing } => {
            write_agent_line(writer, CLOSE, *agent, Name(close_name(closing)))
        }
        StepLine::Shut {
            agent,
            result: closing,
        } => { write_agent_line(writer, SHUT, *agent, Name(shut_name(closing))) }
        StepLine::Restarted { agent } => write_filled(writer, RESTARTED, &[Number(*agent)]),
        StepLine::Trace { events } => write_filled(writer, TRACE, &[Count(*events)]),
    }
}
