//! Replies in words, as comments after their lines.
ghost use Rattle.std.specs.Prelude.{IfErr};
ghost use Rattle.scmi_live.specs.LiveError.{IsRefused};

use scmi_codec::{Answer, Frame};
use scmi_decode::{Description, describe_message, write_description};
use scmi_link::Collected;
use scmi_live::LiveError;
use scmi_text::StepLine;
use std::alloc::Global;
use std::io;
use std::io::Write;

/// Writes what a line gives in words, each line of it after a mark that makes it a comment; nothing
/// of a line that gives no message. `Memory` when out of memory, and `Write` if the output fails.
pub fn write_remark<W: Write>(
    alloc: Global,
    writer: &mut W,
    line: &StepLine,
) -> Result<(), LiveError>
    ensures errors { IfErr result IsRefused }
{
    let Some(description) = described_line(line) else {
        return Ok(());
    };
    let mut text = Vec::new(alloc);
    let Ok(()) = write_description(&mut text, &description) else {
        return Err(LiveError::Memory);
    };
    match write_marked(writer, &text) {
        Ok(()) => Ok(()),
        Err(_) => Err(LiveError::Write),
    }
}

/// What the message of a line is: a reply that was collected, or what an agent took from P2A.
fn described_line(line: &StepLine) -> Option<Description> {
    match line {
        StepLine::Collected { collected, .. } => match collected {
            Collected::Got(Answer::Reply(message)) => Some(describe_message(message.copy())),
            _ => None,
        },
        StepLine::P2a { frame, .. } => match frame {
            Some(Frame::Good(message)) => Some(describe_message(message.copy())),
            _ => None,
        },
        _ => None,
    }
}

/// Writes lines, each after a mark.
fn write_marked<W: Write>(writer: &mut W, text: &[u8]) -> io::Result<()> {
    let mut begins = true;
    for byte in text {
        if begins {
            writer.write_all(b"# ")?;
        }
        writer.write_all(&[*byte])?;
        begins = *byte == b'\n';
    }
    Ok(())
}
