//! Lines, boxes, rings, crosses and words: texts whose holes numbers and words fill.

use crate::measure::{size_in, width_of};
use crate::value::Value;
use scmi_io::write_filled;
use std::io;
use std::io::Write;

/// A place, in pixels from the left upper corner.
#[derive(Clone, Copy)]
pub(crate) struct Point {
    pub x: u32,
    pub y: u32,
}

impl Point {
    /// The place that is this much to the left, and this much higher.
    pub fn before(self, left: u32, up: u32) -> Point {
        Point {
            x: self.x.saturating_sub(left),
            y: self.y.saturating_sub(up),
        }
    }

    /// The place that is this much to the right, and this much lower.
    pub fn behind(self, right: u32, down: u32) -> Point {
        Point {
            x: self.x.saturating_add(right),
            y: self.y.saturating_add(down),
        }
    }
}

/// What is drawn: a text, and the values of its holes, in order. There are as many for each shape;
/// those that have no hole are empty.
#[derive(Clone, Copy)]
pub(crate) struct Shape<'a> {
    pub text: &'static str,
    pub values: [Value<'a>; 6],
}

/// The value that has no hole.
pub(crate) const NONE: Value<'static> = Value::Words(b"");

/// What is not drawn.
pub(crate) const NOTHING: Shape<'static> = Shape {
    text: "",
    values: [NONE; 6],
};

const LINE: &str = "<line class=\"%\" x1=\"%\" y1=\"%\" x2=\"%\" y2=\"%\"/>\n";

const BAR: &str = "<rect class=\"%\" x=\"%\" y=\"%\" width=\"%\" height=\"%\"/>\n";

const CROSS: &str = "<path class=\"%\" d=\"M% %m-5 -5l10 10m0 -10l-10 10\"/>\n";

const WORDS: &str = "<text class=\"%\" x=\"%\" y=\"%\">%</text>\n";

const FITTED: &str = "<text class=\"%\" x=\"%\" y=\"%\" font-size=\"%\">%</text>\n";

/// Writes shapes, in order.
pub(crate) fn write_shapes<W: Write>(writer: &mut W, shapes: &[Shape<'_>]) -> io::Result<()> {
    for shape in shapes {
        write_filled(writer, shape.text, &shape.values)?;
    }
    Ok(())
}

/// A shape of this class at a point: the text has holes for these, and then for more values.
pub(crate) fn drawn<'a>(
    text: &'static str,
    class: Value<'a>,
    at: Point,
    more: [Value<'a>; 3],
) -> Shape<'a> {
    let (x, y) = (Value::Number(at.x), Value::Number(at.y));
    Shape {
        text,
        values: [class, x, y, more[0], more[1], more[2]],
    }
}

/// A line of this class.
pub(crate) fn line(class: &'static str, from: Point, to: Point) -> Shape<'static> {
    let class = Value::Words(class.as_bytes());
    drawn(
        LINE,
        class,
        from,
        [Value::Number(to.x), Value::Number(to.y), NONE],
    )
}

/// A box of this class, with its left upper corner at a point.
pub(crate) fn bar(class: &'static str, corner: Point, width: u32, height: u32) -> Shape<'static> {
    let class = Value::Words(class.as_bytes());
    drawn(
        BAR,
        class,
        corner,
        [Value::Number(width), Value::Number(height), NONE],
    )
}

/// A cross of this class over a point.
pub(crate) fn cross(class: &'static str, center: Point) -> Shape<'static> {
    drawn(CROSS, Value::Words(class.as_bytes()), center, [NONE; 3])
}

/// A text of this class at a point.
pub(crate) fn words<'a>(class: &'static str, at: Point, text: Value<'a>) -> Shape<'a> {
    drawn(
        WORDS,
        Value::Words(class.as_bytes()),
        at,
        [text, NONE, NONE],
    )
}

/// A text of this class at a point, in this size or in a smaller one for which there is room.
pub(crate) fn fitted<'a>(
    class: &'static str,
    at: Point,
    text: &'a [u8],
    room: u32,
    size: u32,
) -> Shape<'a> {
    let class = Value::Words(class.as_bytes());
    let size = Value::Number(size_in(width_of(text), room, size));
    drawn(FITTED, class, at, [size, Value::Outside(text), NONE])
}
