//! What is no message: executions, advances, restarts, closes, faults, and other words beside a
//! lifeline.

use crate::mark::Side;
use crate::measure::width_in;
use crate::place::Place;
use crate::shape::{NONE, NOTHING, Point, Shape, bar, cross, drawn, fitted, line};
use crate::value::Value;

/// A word on the platform's lifeline, and what it is about.
const PILL: &str = "<text class=\"%\" x=\"%\" y=\"%\"><tspan class=\"name\">%</tspan>\
<tspan class=\"object\" dx=\"6\">%</tspan></text>\n";

const RING: &str = "<circle class=\"%\" cx=\"%\" cy=\"%\" r=\"4\"/>\n";

/// A ring where the platform posts a message.
pub(crate) fn post(place: Place<'_>, slot: u16) -> Shape<'static> {
    drawn(
        RING,
        Value::Words(b"post"),
        place.at_platform(slot),
        [NONE; 3],
    )
}

/// How long the platform executes.
pub(crate) fn execution(place: Place<'_>, slot: u16, until: u16) -> Shape<'static> {
    let corner = place.at_platform(slot).before(4, 4);
    let height = place.line_y(until).saturating_sub(place.line_y(slot));
    bar("run", corner, 8, height.saturating_add(8))
}

/// The restart of an agent: a bar across its lifeline, and a pill on the platform's.
pub(crate) fn restart<'a>(
    place: Place<'_>,
    agent: u8,
    slot: u16,
    text: &'a [u8],
) -> [Shape<'a>; 3] {
    let corner = place.at_agent(agent, slot).before(9, 6);
    let [pill, words] = pill(place, slot, "restart", text);
    [bar("again", corner, 18, 5), pill, words]
}

/// A pill on the platform's lifeline, with a word and what it is about.
pub(crate) fn pill<'a>(
    place: Place<'_>,
    slot: u16,
    word: &'static str,
    text: &'a [u8],
) -> [Shape<'a>; 2] {
    let width = width_in(text, 11).saturating_add(76);
    let at = place.at_platform(slot);
    let words = [Value::Words(word.as_bytes()), Value::Outside(text), NONE];
    [
        bar("pill", at.before(width / 2, 16), width, 23),
        drawn(PILL, Value::Words(b"sign"), at, words),
    ]
}

/// A close, on the lifeline of the endpoint that closes.
pub(crate) fn close<'a>(
    place: Place<'_>,
    agent: u8,
    slot: u16,
    by: Side,
    text: &'a [u8],
) -> [Shape<'a>; 3] {
    let at = match by {
        Side::Agent => place.at_agent(agent, slot),
        Side::Platform => place.at_platform(slot),
    };
    let [lead, words] = note(place, agent, slot, by, text, 11);
    [cross("shut", at.before(0, 4)), lead, words]
}

/// Words beside a lifeline, at most in this size, towards the other one. Those of an agent that is
/// not beside the platform have a line to it, since they are where all words of its side are.
pub(crate) fn note<'a>(
    place: Place<'_>,
    agent: u8,
    slot: u16,
    beside: Side,
    text: &'a [u8],
    size: u32,
) -> [Shape<'a>; 2] {
    let y = place.line_y(slot);
    let is_left = place.is_left(agent);
    let up = y.saturating_sub(4);
    let from = Point {
        x: place.beside_agent(agent, 12),
        y: up,
    };
    let to = Point {
        x: place.inner_x(agent, 24),
        y: up,
    };
    let (lead, x, is_from_left) = match beside {
        Side::Agent => (line("lead", from, to), place.inner_x(agent, 30), is_left),
        Side::Platform => (NOTHING, place.beside_platform(agent, 52), !is_left),
    };
    let words = fitted(
        class_from(is_from_left),
        Point { x, y },
        text,
        place.room,
        size,
    );
    [lead, words]
}

/// The class of words that begin at their place, or end there.
fn class_from(is_from_left: bool) -> &'static str {
    if is_from_left { "note" } else { "note end" }
}

/// That the hardware refused what an agent's command was to change, beside the platform's lifeline
/// and away from the agent's, where the command has no arrow.
pub(crate) fn fault<'a>(place: Place<'_>, agent: u8, slot: u16, text: &'a [u8]) -> [Shape<'a>; 2] {
    let at = place.at_platform(slot);
    let is_left = place.is_left(agent);
    let (sign, words) = if is_left {
        (at.behind(52, 0), at.behind(66, 0))
    } else {
        (at.before(52, 0), at.before(66, 0))
    };
    let room = place.room.saturating_sub(14);
    let words = fitted(class_from(is_left), words, text, room, 10);
    [cross("lost", sign.before(0, 4)), words]
}
