//! The lines of the script beside the lifelines.

use crate::chart::Step;
use crate::place::{Place, SLOT};
use crate::shape::{NONE, NOTHING, Point, Shape, drawn, write_shapes};
use crate::value::Value;
use std::io;
use std::io::Write;

/// For how many characters the sign has room that marks the cut of a line.
const SIGN: usize = 2;

const SHADE: &str = "<rect class=\"%\" x=\"%\" y=\"%\" width=\"%\" height=\"%\" rx=\"4\"/>\n";
/// A line of the script after its number.
const LINE: &str = "<text class=\"mono line\" x=\"46\" y=\"%\">%</text>\n\
<text class=\"mono\" x=\"56\" y=\"%\">%%</text>\n";

/// Writes the steps of the script, each second one on a shade.
pub(crate) fn write_steps<W: Write>(
    writer: &mut W,
    place: Place<'_>,
    steps: &[Step],
) -> io::Result<()> {
    for step in steps {
        write_shapes(writer, &[shade_of(place, step), line_of(place, step)])?;
    }
    Ok(())
}

fn shade_of(place: Place<'_>, step: &Step) -> Shape<'static> {
    if step.number % 2 == 1 {
        return NOTHING;
    }
    let corner = Point {
        x: 14,
        y: place.slot_y(step.slot),
    };
    let width = place.width().saturating_sub(28);
    let height = SLOT * u32::from(step.slots);
    let size = [Value::Number(width), Value::Number(height), NONE];
    drawn(SHADE, Value::Words(b"band"), corner, size)
}

/// The line of the script after its number.
fn line_of<'a>(place: Place<'_>, step: &'a Step) -> Shape<'a> {
    let y = Value::Number(place.slot_y(step.slot).saturating_add(20));
    let (text, sign): (&[u8], &[u8]) = if step.text.len() <= place.shown {
        (&step.text, b"")
    } else {
        let room = place.shown.saturating_sub(SIGN);
        (beginning_of(&step.text, room), b" &#8230;")
    };
    let (text, sign) = (Value::Outside(text), Value::Words(sign));
    Shape {
        text: LINE,
        values: [y, Value::Number(step.line), y, text, sign, NONE],
    }
}

/// The beginning of a long line: the words that there is room for.
fn beginning_of(text: &[u8], room: usize) -> &[u8] {
    let shown = &text[..text.len().min(room)];
    match shown.iter().rposition(|byte: &u8| *byte == b' ') {
        Some(space) => &shown[..space],
        None => shown,
    }
}
