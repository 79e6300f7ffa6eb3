//! Marks, as they are drawn.

use crate::drawn_label::write_label;
use crate::event::{close, execution, fault, note, pill, post, restart};
use crate::mark::{Mark, Outcome};
use crate::message::{token_of, way_of};
use crate::place::Place;
use crate::shape::{NONE, Point, Shape, write_shapes};
use crate::value::Value;
use std::io;
use std::io::Write;

const BEGIN: &str = "<g class=\"mark %\">\n";
/// What is shown when a reader points at a mark.
const DETAIL: &str = "<title>%</title>\n";

const END: &str = "</g>\n";

/// Writes a mark, as one group of its class.
pub(crate) fn write_mark<W: Write>(
    writer: &mut W,
    place: Place<'_>,
    mark: &Mark,
) -> io::Result<()> {
    write_shapes(writer, &head_of(mark))?;
    write_sign(writer, place, mark)?;
    if let Some(message) = mark.message() {
        write_shapes(writer, &way_of(place, mark, message))?;
        let at = Point {
            x: place.words_x(message.agent),
            y: place.line_y(message.slot).saturating_sub(6),
        };
        write_label(writer, &message.label, at, place.room)?;
    }
    write_shapes(writer, &token_of(place, mark))?;
    writer.write_all(END.as_bytes())
}

/// The beginning of a mark, and the header and words of its message.
fn head_of(mark: &Mark) -> [Shape<'_>; 2] {
    let class = Value::Words(class_of(mark).as_bytes());
    let (text, detail) = match mark.message() {
        Some(message) if !message.detail.is_empty() => (DETAIL, Value::Outside(&message.detail)),
        _ => ("", NONE),
    };
    [
        Shape {
            text: BEGIN,
            values: [class, NONE, NONE, NONE, NONE, NONE],
        },
        Shape {
            text,
            values: [detail, NONE, NONE, NONE, NONE, NONE],
        },
    ]
}

/// The classes of a mark.
pub(crate) fn class_of(mark: &Mark) -> &'static str {
    match mark {
        Mark::Command { .. } => "command",
        Mark::Withdrawn { .. } => "withdrawn",
        Mark::Refused { .. } => "refused",
        Mark::Execution { .. } => "execution",
        Mark::Reply { outcome, .. } => match *outcome {
            Outcome::Success => "reply",
            Outcome::Pending => "reply pending",
            Outcome::Refusal => "reply refusal",
        },
        Mark::Delayed { .. } => "delayed",
        Mark::Notification { .. } => "notification",
        Mark::Posted { .. } => "posted",
        Mark::Advance {
            is_effective: true,
            ..
        } => "advance",
        Mark::Advance { .. } => "advance idle",
        Mark::Closed { .. } => "closed",
        Mark::Remark { .. } => "remark",
        Mark::Failed { .. } => "advance refusal",
        Mark::Fault { .. } => "fault",
        Mark::Restarted { .. } => "restart",
    }
}

/// Writes what is drawn of a mark, but for its message.
fn write_sign<W: Write>(writer: &mut W, place: Place<'_>, mark: &Mark) -> io::Result<()> {
    match mark {
        Mark::Execution { slot, until } => write_shapes(writer, &[execution(place, *slot, *until)]),
        Mark::Posted { slot } => write_shapes(writer, &[post(place, *slot)]),
        Mark::Advance { slot, text, .. } | Mark::Failed { slot, text } => {
            write_shapes(writer, &pill(place, *slot, "advance", text))
        }
        Mark::Closed {
            agent,
            slot,
            by,
            text,
        } => write_shapes(writer, &close(place, *agent, *slot, *by, text)),
        Mark::Remark {
            agent,
            slot,
            beside,
            text,
        } => write_shapes(writer, &note(place, *agent, *slot, *beside, text, 10)),
        Mark::Fault { agent, slot, text } => {
            write_shapes(writer, &fault(place, *agent, *slot, text))
        }
        Mark::Restarted { agent, slot, text } => {
            write_shapes(writer, &restart(place, *agent, *slot, text))
        }
        _ => Ok(()),
    }
}
