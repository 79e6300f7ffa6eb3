//! The words of a message, above its line: in one row if there is room, else in two.

use crate::mark::Label;
use crate::measure::{pixels, size_in, width_of};
use crate::shape::{NONE, NOTHING, Point, Shape, write_shapes};
use crate::value::Value;
use std::io;
use std::io::Write;

/// The size of the words in one row, and the least for which they are in one.
const SIZE: u32 = 12;

const ONE_ROW: u32 = 11;
/// The size of the words in two rows, and the distance between these.
const TWO_ROWS: u32 = 10;

const ROW: u32 = 11;

const BEGIN: &str = "<text x=\"%\" y=\"%\" font-size=\"%\">";

const END: &str = "</text>\n";

/// A part of a label: how its letters are written, how wide that is before them in hundredths of
/// the font's size, and its letters.
#[derive(Clone, Copy)]
struct Part<'a> {
    form: &'static str,
    before: u32,
    text: &'a [u8],
}

/// Two rows of parts: which part is the first of the second row, and how wide the wider row is, in
/// hundredths of the font's size.
#[derive(Clone, Copy)]
struct Rows {
    second: usize,
    width: u32,
}

fn parts_of(label: &Label) -> [Part<'_>; 4] {
    [
        Part {
            form: "<tspan class=\"name\">%</tspan>",
            before: 0,
            text: &label.name,
        },
        Part {
            form: "<tspan class=\"object\" dx=\"6\">%</tspan>",
            before: 50,
            text: &label.object,
        },
        Part {
            form: "<tspan class=\"object\" dx=\"4\">&#8594; %</tspan>",
            before: 190,
            text: &label.value,
        },
        Part {
            form: "<tspan class=\"tag\" dx=\"6\">%</tspan>",
            before: 50,
            text: &label.tag,
        },
    ]
}

/// How wide parts are side by side, in hundredths of the font's size.
fn width_of_parts(parts: &[Part<'_>]) -> u32 {
    let mut width = 0u32;
    for part in parts {
        if !part.text.is_empty() {
            width = width
                .saturating_add(part.before)
                .saturating_add(width_of(part.text));
        }
    }
    width
}

/// The two rows of which the wider one is the narrowest.
fn rows_of(parts: &[Part<'_>]) -> Rows {
    let mut rows = Rows {
        second: parts.len(),
        width: width_of_parts(parts),
    };
    for second in 1..parts.len() {
        let (above, below) = parts.split_at(second);
        let width = width_of_parts(above).max(width_of_parts(below));
        if width < rows.width {
            rows = Rows { second, width };
        }
    }
    rows
}

/// The room that a label needs, if there is at most this much.
pub(crate) fn label_needs(label: &Label, room: u32) -> u32 {
    let parts = parts_of(label);
    let one_row = pixels(width_of_parts(&parts), ONE_ROW);
    if one_row <= room {
        one_row
    } else {
        pixels(rows_of(&parts).width, TWO_ROWS)
    }
}

/// Writes a label around a point, in this much room.
pub(crate) fn write_label<W: Write>(
    writer: &mut W,
    label: &Label,
    at: Point,
    room: u32,
) -> io::Result<()> {
    let parts = parts_of(label);
    let width = width_of_parts(&parts);
    let rows = rows_of(&parts);
    if pixels(width, ONE_ROW) <= room || rows.width == width {
        return write_row(writer, &parts, at, size_in(width, room, SIZE));
    }
    let size = size_in(rows.width, room, TWO_ROWS);
    let (above, below) = parts.split_at(rows.second.min(parts.len()));
    let lower = at.behind(0, 1);
    write_row(writer, above, lower.before(0, ROW), size)?;
    write_row(writer, below, lower, size)
}

/// Writes parts of a label side by side around a point.
fn write_row<W: Write>(writer: &mut W, parts: &[Part<'_>], at: Point, size: u32) -> io::Result<()> {
    let (x, y) = (Value::Number(at.x), Value::Number(at.y));
    let begin = Shape {
        text: BEGIN,
        values: [x, y, Value::Number(size), NONE, NONE, NONE],
    };
    write_shapes(writer, &[begin])?;
    for part in parts {
        write_shapes(writer, &[shape_of(part)])?;
    }
    writer.write_all(END.as_bytes())
}

/// A part of a label, if it has any letters.
fn shape_of<'a>(part: &Part<'a>) -> Shape<'a> {
    if part.text.is_empty() {
        return NOTHING;
    }
    Shape {
        text: part.form,
        values: [Value::Outside(part.text), NONE, NONE, NONE, NONE, NONE],
    }
}
