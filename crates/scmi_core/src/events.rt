//! The events of a trace, one after another.
ghost use Rattle.std.specs.Prelude.{◌≡◌, ◌≤◌, ◌∷◌, length};
ghost use Rattle.std.specs.Iterator.{YieldsFirst, item_count};
ghost use Rattle.scmi_codec.specs.Header.{header_of};
ghost use Rattle.scmi_codec.specs.declared.frame.Frame.TheVariants.{Good};
ghost use Rattle.scmi_codec.specs.declared.payload.TheConstants.{PAYLOAD_WORDS};
ghost use Rattle.scmi_core.specs.Outbox.{message_with};
ghost use Rattle.scmi_core.specs.Trace.{AreEvents, event_of, events_of, payload_count};

use crate::event::Event;
use crate::mark::Mark;
use scmi_codec::{Frame, Header, Message, payload_of, rate_of};
use scmi_plan::Effect;
use std::marker::Model;

/// Events of a trace, in order of time. Contracts see those that are left.
#[derive(Drop)]
pub struct Events<'a> {
    words: &'a [u32],
    // How many are left.
    count: usize,
}

impl<'a> Model for Events<'a> {
    ghost use Rattle.std.specs.Prelude.{List};
    ghost use Rattle.scmi_core.specs.declared.event.Event.{Event};
    ghost use Rattle.scmi_core.specs.Trace.{AreEvents, events_of};

    ghost Value = { List Event };

    ghost view = { λ e. events_of e.count e.words.now };

    ghost invariant = { λ e. AreEvents e.count e.words.now };
}

impl<'a> Events<'a> {
    /// The events of some words.
    pub(crate) fn of(words: &'a [u32], count: usize) -> Events<'a>
        requires { AreEvents count words.now }
        ensures { result ≡ events_of count words.now }
    {
        Events { words, count }
    }
}

impl<'a> Iterator for Events<'a> {
    type Item = Event;

    ghost next_gives = { YieldsFirst (λ e. e) };

    ghost remaining = { item_count (λ e. e) };

    fn next(&mut self) -> Option<Event> {
        if self.count == 0 {
            return None;
        }
        let (first, size, header, rest) = three_words(self.words);
        let mark = Mark::unpack(first);
        let (payload, rest) = rest.split_at(payload_count(mark, size));
        self.words = rest;
        self.count -= 1;
        Some(event_of(mark, size, header, payload))
    }
}

/// The first three of some words, and the words after them.
fn three_words(words: &[u32]) -> (u32, u32, u32, &[u32])
    requires { 3 ≤ length words.now }
    ensures { words.now ≡ result.0 ∷ result.1 ∷ result.2 ∷ result.3.now }
{
    (words[0], words[1], words[2], &words[3..])
}

/// How many payload words follow a mark, a size and a header.
fn payload_count(mark: Mark, size: u32) -> usize
    ensures { result ≡ payload_count mark size }
{
    match mark {
        Mark::Message(_) | Mark::Failed(..) => size as usize,
        Mark::RateReported | Mark::RateSettled => 2,
        _ => 0,
    }
}

/// The event of a mark, a size, a header and the payload words that follow them.
fn event_of(mark: Mark, size: u32, header: u32, payload: &[u32]) -> Event
    requires few { length payload.now ≤ PAYLOAD_WORDS }
    requires count { length payload.now ≡ payload_count mark size }
    ensures { result ≡ event_of mark size header payload.now }
{
    match mark {
        Mark::Message(agent) => Event::Command(agent, frame_of(header, payload)),
        Mark::Failed(agent, fault) => {
            Event::CommandFailed(agent, frame_of(header, payload), fault)
        }
        Mark::Malformed(agent) => Event::Command(
            agent,
            Frame::Malformed {
                length: size,
                header,
            },
        ),
        Mark::Sent(agent) => Event::Sent(agent),
        Mark::Restarted(agent) => Event::Restarted(agent),
        Mark::Promoted(place) => Event::Promoted(place),
        Mark::Advance => Event::Advance,
        Mark::AdvanceFailed(fault) => Event::AdvanceFailed(fault),
        Mark::StateReported => Event::Reported(Effect::State {
            domain: size,
            state: header,
        }),
        Mark::RateReported => Event::Reported(Effect::Rate {
            clock: size,
            rate: rate_of(payload[0], payload[1]),
        }),
        Mark::EnabledReported => Event::Reported(Effect::Enabled {
            clock: size,
            enabled: header == 1,
        }),
        Mark::RateSettled => Event::Settled(size, rate_of(payload[0], payload[1])),
    }
}

/// The frame of a header word and these payload words.
fn frame_of(header: u32, payload: &[u32]) -> Frame
    requires { length payload.now ≤ PAYLOAD_WORDS }
    ensures { result ≡ Good (message_with (header_of header) payload.now) }
{
    Frame::Good(Message {
        header: Header::unpack(header),
        payload: payload_of(payload),
    })
}
