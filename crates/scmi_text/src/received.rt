//! The lines of what an agent received, as they are written.
ghost use Rattle.std.specs.Prelude.{OnOk};
ghost use Rattle.std.specs.Io.KnownBytes.{Appends};
ghost use Rattle.scmi_text.specs.StepLine.{collected_text, frame_text, p2a_text};

use crate::lines::{CLOSED, ERROR, NO_P2A, NOT_ANSWERED, P2A, P2A_ERROR, RELEASED, REPLY};
use crate::value::Value::{Message, Number};
use crate::value::write_agent_line;
use scmi_codec::{Answer, Frame};
use scmi_io::write_filled;
use scmi_link::Collected;
use std::io;
use std::io::Write;

/// Writes the line of what an agent collected.
pub(crate) fn write_collected<W: Write>(
    writer: &mut W,
    agent: u32,
    collected: &Collected,
) -> io::Result<()>
    ensures { OnOk result (Appends (W.contents writer.old) (W.contents writer.new)
        (collected_text agent collected.now)) }
{
    match collected {
        Collected::Nothing => write_filled(writer, NOT_ANSWERED, &[Number(agent)]),
        Collected::Got(Answer::Reply(message)) => {
            write_agent_line(writer, REPLY, agent, Message(message))
        }
        Collected::Got(Answer::Released) => write_filled(writer, RELEASED, &[Number(agent)]),
        Collected::Got(Answer::ChannelError) => write_filled(writer, ERROR, &[Number(agent)]),
        Collected::Closed => write_filled(writer, CLOSED, &[Number(agent)]),
    }
}

/// Writes the line of the P2A frame that an agent took, if there was one.
pub(crate) fn write_p2a<W: Write>(
    writer: &mut W,
    agent: u32,
    frame: &Option<Frame>,
) -> io::Result<()>
    ensures { OnOk result (Appends (W.contents writer.old) (W.contents writer.new)
        (p2a_text agent frame.now)) }
{
    match frame {
        None => write_filled(writer, NO_P2A, &[Number(agent)]),
        Some(frame) => write_frame(writer, agent, frame),
    }
}

/// Writes the line of a P2A frame that an agent took.
pub(crate) fn write_frame<W: Write>(writer: &mut W, agent: u32, frame: &Frame) -> io::Result<()>
    ensures { OnOk result (Appends (W.contents writer.old) (W.contents writer.new)
        (frame_text agent frame.now)) }
{
    match frame {
        Frame::Good(message) => write_agent_line(writer, P2A, agent, Message(message)),
        Frame::Malformed { .. } => write_filled(writer, P2A_ERROR, &[Number(agent)]),
    }
}
