//! Messages: their ways between two lifelines, and their tokens.

use crate::mark::{Mark, Message};
use crate::place::Place;
use crate::shape::{NONE, NOTHING, Point, Shape, cross, drawn, line};
use crate::value::Value;

/// A token in a ring on the lifeline of an agent.
const RING: &str = "<circle class=\"a% token\" cx=\"%\" cy=\"%\" r=\"%\"/>\n";

const TOKEN: &str = "<text class=\"a% in\" x=\"%\" y=\"%\" dy=\"3\">%</text>\n";

/// The way of the message that a mark shows. What waited did so beside the platform if it is a
/// command, and else beside the agent. One that never was executed ends in a cross where commands
/// wait, and one that could not be posted in a cross beside its agent.
pub(crate) fn way_of(place: Place<'_>, mark: &Mark, message: &Message) -> [Shape<'static>; 3] {
    let agent = message.agent;
    let (lifeline, platform) = (place.agent_x(agent), place.beside_platform(agent, 5));
    match mark {
        Mark::Command { .. } => way(place, message, lifeline, place.waiting_x(agent), platform),
        Mark::Withdrawn { .. } => cut(place, message, place.waiting_x(agent)),
        Mark::Refused { .. } => cut(place, message, place.beside_agent(agent, 24)),
        _ => way(
            place,
            message,
            platform,
            place.beside_agent(agent, 22),
            lifeline,
        ),
    }
}

/// The way of a message: straight if it is taken in its slot, else to the place where it waits,
/// down, and on.
fn way(place: Place<'_>, message: &Message, from: u32, wait: u32, to: u32) -> [Shape<'static>; 3] {
    let (leaves, taken) = (place.line_y(message.slot), place.line_y(message.taken));
    let from = Point { x: from, y: leaves };
    if message.taken <= message.slot {
        return [
            line("head", from, Point { x: to, y: leaves }),
            NOTHING,
            NOTHING,
        ];
    }
    let corner = Point { x: wait, y: leaves };
    let end = Point { x: wait, y: taken };
    [
        line("way", from, corner),
        line("wait", corner, end),
        line("head", end, Point { x: to, y: taken }),
    ]
}

/// A way from an agent that ends in a cross.
fn cut(place: Place<'_>, message: &Message, x: u32) -> [Shape<'static>; 3] {
    let from = place.at_agent(message.agent, message.slot);
    let end = Point { x, y: from.y };
    [line("way", from, end), cross("lost", end), NOTHING]
}

/// The token that is shown of a message on the lifeline of its agent.
pub(crate) fn token_of(place: Place<'_>, mark: &Mark) -> [Shape<'static>; 2] {
    match mark {
        Mark::Command {
            message,
            token: Some(token),
        }
        | Mark::Withdrawn {
            message,
            token: Some(token),
        } => token_at(place, message.agent, message.slot, *token),
        Mark::Delayed { message, token } => {
            token_at(place, message.agent, message.taken, *token)
        }
        _ => [NOTHING, NOTHING],
    }
}

/// A token in a ring on the lifeline of an agent.
fn token_at(place: Place<'_>, agent: u8, slot: u16, token: u16) -> [Shape<'static>; 2] {
    let at = place.at_agent(agent, slot);
    let radius = Value::Number(if token < 100 { 9 } else { 13 });
    let agent = Value::Number(u32::from(agent));
    let token = Value::Number(u32::from(token));
    [
        drawn(RING, agent, at, [radius, NONE, NONE]),
        drawn(TOKEN, agent, at, [token, NONE, NONE]),
    ]
}
