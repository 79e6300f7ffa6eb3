//! The columns of states.

use crate::chart::{Column, Dropped, Kind, Span, State};
use crate::place::Place;
use crate::shape::{NONE, NOTHING, Point, Shape, bar, drawn, fitted, words, write_shapes};
use crate::value::Value;
use std::io;
use std::io::Write;

/// The size of the name of a column.
const NAME: u32 = 12;
/// An outbox in the colour of its agent, and how many messages wait there.
const QUEUE: &str = "<rect class=\"a% queue\" x=\"%\" y=\"%\" width=\"%\" height=\"%\"/>\n";

const COUNT: &str = "<text class=\"a% count\" x=\"%\" y=\"%\" dx=\"%\" dy=\"12\">%</text>\n";
/// Which notifications were dropped, with a cross, and how many.
const DROPPED: &str = "<g class=\"dropped\">\n<title>%</title>\n\
<path class=\"lost\" d=\"M% %m57 -9l10 10m0 -10l-10 10\"/>\n\
<text x=\"%\" y=\"%\" dx=\"72\">% dropped</text>\n</g>\n";
/// The same of one.
const ONE_DROPPED: &str = "<g class=\"dropped\">\n<title>%</title>\n\
<path class=\"lost\" d=\"M% %m57 -9l10 10m0 -10l-10 10\"/>\n\
<text x=\"%\" y=\"%\" dx=\"72\">dropped</text>\n</g>\n";

pub(crate) fn write_columns<W: Write>(
    writer: &mut W,
    place: Place<'_>,
    columns: &[Column],
) -> io::Result<()> {
    for column in columns {
        write_column(writer, place, column)?;
    }
    Ok(())
}

fn write_column<W: Write>(writer: &mut W, place: Place<'_>, column: &Column) -> io::Result<()> {
    write_shapes(writer, &head_of(place, column))?;
    for span in &column.spans {
        write_shapes(writer, &span_of(place, column, span))?;
    }
    for dropped in &column.drops {
        write_shapes(writer, &[dropped_of(place, column, dropped)])?;
    }
    Ok(())
}

/// The name of a column, and its kind.
fn head_of<'a>(place: Place<'_>, column: &'a Column) -> [Shape<'a>; 2] {
    let x = place.column_x(column.place).saturating_sub(6);
    let kind = match column.kind {
        Kind::Domain => "domain",
        Kind::Clock => "clock",
        Kind::Outbox(_) => "outbox",
    };
    let room = place.name_room(column.kind);
    [
        fitted("track", Point { x, y: 103 }, &column.name, room, NAME),
        words("kind", Point { x, y: 119 }, Value::Words(kind.as_bytes())),
    ]
}

/// A state along the time that it lasted.
fn span_of(place: Place<'_>, column: &Column, span: &Span) -> [Shape<'static>; 2] {
    let at = Point {
        x: place.column_x(column.place),
        y: place.state_y(span.since),
    };
    let height = place.state_y(span.until).saturating_sub(at.y);
    let beside = at.behind(10, 12);
    match span.state {
        State::On => [
            bar("on", at.before(5, 0), 10, height),
            words("on value", beside, Value::Words(b"ON")),
        ],
        State::Off => [
            bar("off", at.before(1, 0), 2, height),
            words("value", beside, Value::Words(b"OFF")),
        ],
        State::Pending => [bar("held", at.before(13, 0), 6, height), NOTHING],
        State::Waiting(0) => [bar("none", at.before(1, 0), 2, height), NOTHING],
        State::Waiting(count) => waiting(at.before(1, 0), height, column.kind, count),
        State::Rate { hertz, is_enabled } => [
            bar(
                if is_enabled { "rate" } else { "rate idle" },
                at.before(4, 0),
                8,
                height,
            ),
            words("hertz", beside, Value::Rate(hertz)),
        ],
    }
}

/// An outbox, as wide as it is long, in the colour of its agent.
fn waiting(corner: Point, height: u32, kind: Kind, count: u8) -> [Shape<'static>; 2] {
    let agent = match kind {
        Kind::Outbox(agent) => Value::Number(u32::from(agent)),
        Kind::Domain | Kind::Clock => Value::Number(0),
    };
    let width = 2 + 3 * u32::from(count);
    let size = [Value::Number(width), Value::Number(height), NONE];
    let count = Value::Number(u32::from(count));
    [
        drawn(QUEUE, agent, corner, size),
        drawn(
            COUNT,
            agent,
            corner,
            [Value::Number(width + 7), count, NONE],
        ),
    ]
}

/// Notifications that were dropped at one time, beside the widest bar: a cross, how many they are,
/// and for a reader who points at it which.
fn dropped_of<'a>(place: Place<'_>, column: &Column, dropped: &'a Dropped) -> Shape<'a> {
    let at = Point {
        x: place.column_x(column.place),
        y: place.state_y(dropped.time),
    };
    let (text, count) = if dropped.count == 1 {
        (ONE_DROPPED, NONE)
    } else {
        (DROPPED, Value::Number(u32::from(dropped.count)))
    };
    let again = [Value::Number(at.x), Value::Number(at.y), count];
    drawn(text, Value::Outside(&dropped.detail), at, again)
}
