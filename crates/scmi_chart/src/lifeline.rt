//! The lifelines of agents and platform, and their names.

use crate::chart::{Chart, Column, Lifeline};
use crate::measure::{size_in, width_of};
use crate::needs::beside_bars;
use crate::place::{Place, STRETCH};
use crate::shape::{NONE, NOTHING, Point, Shape, bar, drawn, fitted, words, write_shapes};
use crate::value::Value;
use std::io;
use std::io::Write;

/// The lower edge of the boxes of names.
const HEAD: u32 = 128;
/// The size of a name in its box, and of one that is written again.
const NAME: u32 = 14;

const AGAIN: u32 = 10;
/// The room for the name of the platform.
const ROOM: u32 = 132;
/// The line of an agent, and the same from where it closed its channels.
const LIFE: &str = "<line class=\"a% life\" x1=\"%\" y1=\"%\" x2=\"%\" y2=\"%\"/>\n";

const GONE: &str = "<line class=\"a% gone\" x1=\"%\" y1=\"%\" x2=\"%\" y2=\"%\"/>\n";

const AGENT: &str = "<rect class=\"a% box\" x=\"%\" y=\"%\" width=\"%\" height=\"44\" rx=\"8\"/>\n";

const NUMBER: &str = "<text class=\"%\" x=\"%\" y=\"%\">agent %</text>\n";

const PLATFORM: &str = "<rect class=\"%\" x=\"%\" y=\"%\" width=\"132\" height=\"44\" rx=\"8\"/>\n";
/// The name of an agent over its lifeline.
const NAME_AGAIN: &str = "<text class=\"a% again\" x=\"%\" y=\"%\" font-size=\"%\">%</text>\n";

/// Writes the lifelines and the boxes of their names.
pub(crate) fn write_lifelines<W: Write>(
    writer: &mut W,
    place: Place<'_>,
    lifelines: &[Lifeline],
) -> io::Result<()> {
    for lifeline in lifelines {
        write_shapes(writer, &strokes_of(place, lifeline))?;
        write_shapes(writer, &head_of(place, lifeline))?;
    }
    write_shapes(writer, &platform(place))
}

/// The line of an agent: another from where it closed its channels.
fn strokes_of(place: Place<'_>, lifeline: &Lifeline) -> [Shape<'static>; 2] {
    let agent = Value::Number(u32::from(lifeline.agent));
    let (x, bottom) = (place.agent_x(lifeline.agent), place.bottom());
    let end = match lifeline.closed {
        Some(slot) => place.line_y(slot).saturating_sub(4),
        None => bottom,
    };
    let (across, from) = (Value::Number(x), Point { x, y: HEAD });
    let life = drawn(LIFE, agent, from, [across, Value::Number(end), NONE]);
    if lifeline.closed.is_none() {
        return [life, NOTHING];
    }
    let from = Point { x, y: end };
    [
        life,
        drawn(GONE, agent, from, [across, Value::Number(bottom), NONE]),
    ]
}

/// The box of an agent's name.
fn head_of<'a>(place: Place<'_>, lifeline: &'a Lifeline) -> [Shape<'a>; 3] {
    let (x, width) = (place.agent_x(lifeline.agent), place.head);
    let left = x.saturating_sub(width / 2);
    let agent = Value::Number(u32::from(lifeline.agent));
    let what = Value::Words(b"what");
    [
        drawn(
            AGENT,
            agent,
            Point { x: left, y: 84 },
            [Value::Number(width), NONE, NONE],
        ),
        fitted(
            "who",
            Point { x, y: 103 },
            &lifeline.name,
            width.saturating_sub(8),
            NAME,
        ),
        drawn(NUMBER, what, Point { x, y: 119 }, [agent, NONE, NONE]),
    ]
}

fn platform(place: Place<'_>) -> [Shape<'static>; 4] {
    let x = place.platform_x;
    let rail = Point { x, y: HEAD }.before(4, 0);
    let corner = Point { x, y: 84 }.before(66, 0);
    let what = Value::Words(b"SCMI controller");
    [
        bar("platform", rail, 8, place.bottom().saturating_sub(HEAD)),
        drawn(PLATFORM, Value::Words(b"box"), corner, [NONE; 3]),
        fitted("who", Point { x, y: 103 }, b"platform", ROOM, NAME),
        words("what", Point { x, y: 119 }, what),
    ]
}

/// Writes the names of lifelines and columns in a row of their own above each twentieth step, for a
/// reader who has scrolled.
pub(crate) fn write_rows<W: Write>(
    writer: &mut W,
    place: Place<'_>,
    chart: &Chart,
) -> io::Result<()> {
    for step in &chart.steps {
        if step.number > 0 && step.number % STRETCH == 0 {
            write_row(
                writer,
                place,
                chart,
                place.slot_y(step.slot).saturating_sub(8),
            )?;
        }
    }
    Ok(())
}

fn write_row<W: Write>(writer: &mut W, place: Place<'_>, chart: &Chart, y: u32) -> io::Result<()> {
    for lifeline in &chart.lifelines {
        write_shapes(writer, &[name_of(place, lifeline, y)])?;
    }
    let at = Point {
        x: place.platform_x,
        y,
    };
    write_shapes(writer, &[fitted("again", at, b"platform", ROOM, AGAIN)])?;
    for column in &chart.columns {
        write_shapes(writer, &[name_of_column(place, column, y)])?;
    }
    Ok(())
}

/// The name of an agent over its lifeline.
fn name_of<'a>(place: Place<'_>, lifeline: &'a Lifeline, y: u32) -> Shape<'a> {
    let agent = Value::Number(u32::from(lifeline.agent));
    let x = place.agent_x(lifeline.agent);
    let size = Value::Number(size_in(width_of(&lifeline.name), place.head, AGAIN));
    let name = Value::Outside(&lifeline.name);
    drawn(NAME_AGAIN, agent, Point { x, y }, [size, name, NONE])
}

/// The name of a column beside its bars.
fn name_of_column<'a>(place: Place<'_>, column: &'a Column, y: u32) -> Shape<'a> {
    let beside = beside_bars(column);
    let x = place.column_x(column.place).saturating_add(beside);
    let room = place.name_room(column.kind);
    let room = room.saturating_sub(beside.saturating_sub(2));
    fitted("again left", Point { x, y }, &column.name, room, AGAIN)
}
