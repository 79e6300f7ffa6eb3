//! The events of a platform, in one order for all agents.
ghost use Rattle.std.specs.Prelude.{◌≡◌, ◌<◌, ◌≤◌, ◌+◌, ◌++◌, ◌∷◌, [], ◌↔◌, length, slice_get, IsTrue, IsOk, OnOk, OnErr, ◌^◌, vec_len, vec_capacity};
ghost use Rattle.scmi_codec.specs.declared.payload.TheConstants.{PAYLOAD_WORDS};
ghost use Rattle.scmi_plan.specs.declared.limits.TheConstants.{AGENTS, PENDING_SETS};
ghost use Rattle.scmi_core.specs.Mark.{HasAgent};
ghost use Rattle.scmi_core.specs.Trace.{event_of, payload_count};
ghost use Rattle.scmi_core.specs.declared.event.Event.TheVariants.{Command, Advance, Sent, CommandFailed, AdvanceFailed, Restarted, Promoted, Settled, Reported};
ghost use Rattle.scmi_codec.specs.declared.frame.Frame.TheVariants.{Good};

use crate::event::Event;
use crate::events::Events;
use crate::mark::Mark;
use scmi_codec::{Fault, Frame, Message, PAYLOAD_WORDS, rate_words};
use scmi_plan::Effect;
use std::alloc::{AllocError, Global};
use std::marker::Model;

// The most words of an event: its mark, a size, a header and the payload.
const EVENT_WORDS: usize = 3 + PAYLOAD_WORDS;

/// The events of a platform, oldest first. Contracts also see for how many more events it has
/// memory. An event takes three words and those of its payload.
#[derive(Debug, Drop)]
pub struct Trace {
    words: Vec<u32>,
    // How many events they are.
    count: usize,
}

impl Model for Trace {
    ghost use Rattle.std.specs.Prelude.{◌-◌, ◌/◌, vec_len, vec_capacity};
    ghost use Rattle.scmi_core.specs.Trace.{Recorded, AreEvents, events_of};
    ghost use Rattle.scmi_core.specs.declared.trace.TheConstants.{EVENT_WORDS};

    ghost Value = { Recorded };

    ghost view = { λ t. record {
      events = events_of t.count t.words.items;
      room = (vec_capacity t.words - vec_len t.words) / EVENT_WORDS;
    } };

    ghost invariant = { λ t. AreEvents t.count t.words.items };
}

impl Trace {
    /// The number of events.
    pub fn len(&self) -> usize
        ensures { result ≡ length self.now.events }
    {
        self.count
    }

    /// Whether there is no event.
    pub fn is_empty(&self) -> bool
        ensures { IsTrue result ↔ (self.now.events ≡ []) }
    {
        self.len() == 0
    }

    /// The events, in order of time. Each takes as long as its words.
    pub fn events(&self) -> Events<'_>
        ensures { result ≡ self.now.events }
    {
        Events::of(self.words.as_slice(), self.count)
    }

    /// The event at an index from 0, in order of time; `None` from `len` on. It reads the events
    /// before it.
    pub fn get(&self, index: usize) -> Option<Event>
        ensures { result ≡ slice_get self.now.events index }
    {
        self.events().nth(index)
    }

    /// The empty trace. It takes no memory.
    pub(crate) fn new(alloc: Global) -> Trace
        ensures events { result.events ≡ [] }
    {
        Trace {
            words: Vec::new(alloc),
            count: 0,
        }
    }

    /// Makes room for one more event, by doubling if there is none.
    pub(crate) fn reserve(&mut self) -> Result<(), AllocError>
        ensures events { self.new.events ≡ self.old.events }
        ensures ok { OnOk result (0 < self.new.room) }
        ensures room { self.old.room ≤ self.new.room }
        ensures succeeds { 0 < self.old.room → IsOk result }
        ensures err { OnErr result (self.new ≡ self.old) }
    {
        self.words.reserve(EVENT_WORDS)
    }

    /// Adds a command in the room that there is.
    pub(crate) fn push_command(&mut self, agent: u32, frame: &Frame)
        requires room { 0 < self.old.room }
        requires agent { agent ≤ AGENTS }
        ensures events { self.new.events ≡ self.old.events ++ Command agent frame.now ∷ [] }
        ensures room { self.old.room ≤ self.new.room + 1 }
    {
        match frame {
            Frame::Good(message) => {
                let payload = message.payload.as_slice();
                self.push(
                    Mark::Message(agent),
                    payload.len() as u32,
                    message.header.pack(),
                    payload,
                );
            }
            Frame::Malformed { length, header } => {
                self.push(Mark::Malformed(agent), *length, *header, &[]);
            }
        }
    }

    /// Adds a command that failed in the room that there is.
    pub(crate) fn push_command_failed(&mut self, agent: u32, message: &Message, fault: Fault)
        requires room { 0 < self.old.room }
        requires agent { agent ≤ AGENTS }
        ensures events { self.new.events
            ≡ self.old.events ++ CommandFailed agent (Good message.now) fault ∷ [] }
        ensures room { self.old.room ≤ self.new.room + 1 }
    {
        let payload = message.payload.as_slice();
        self.push(
            Mark::Failed(agent, fault),
            payload.len() as u32,
            message.header.pack(),
            payload,
        );
    }

    /// Adds the completion of a set in the room that there is.
    pub(crate) fn push_advance(&mut self)
        requires room { 0 < self.old.room }
        ensures events { self.new.events ≡ self.old.events ++ Advance ∷ [] }
        ensures room { self.old.room ≤ self.new.room + 1 }
    {
        self.push(Mark::Advance, 0, 0, &[]);
    }

    /// Adds the end of a set that failed in the room that there is.
    pub(crate) fn push_advance_failed(&mut self, fault: Fault)
        requires room { 0 < self.old.room }
        ensures events { self.new.events ≡ self.old.events ++ AdvanceFailed fault ∷ [] }
        ensures room { self.old.room ≤ self.new.room + 1 }
    {
        self.push(Mark::AdvanceFailed(fault), 0, 0, &[]);
    }

    /// Adds the posting of a message to an agent in the room that there is.
    pub(crate) fn push_sent(&mut self, agent: u32)
        requires room { 0 < self.old.room }
        requires agent { agent ≤ AGENTS }
        ensures events { self.new.events ≡ self.old.events ++ Sent agent ∷ [] }
        ensures room { self.old.room ≤ self.new.room + 1 }
    {
        self.push(Mark::Sent(agent), 0, 0, &[]);
    }

    /// Adds the restart of an agent in the room that there is.
    pub(crate) fn push_restarted(&mut self, agent: u32)
        requires room { 0 < self.old.room }
        requires agent { agent ≤ AGENTS }
        ensures events { self.new.events ≡ self.old.events ++ Restarted agent ∷ [] }
        ensures room { self.old.room ≤ self.new.room + 1 }
    {
        self.push(Mark::Restarted(agent), 0, 0, &[]);
    }

    /// Adds the promotion of the pending set at a place in the room that there is.
    pub(crate) fn push_promoted(&mut self, place: u32)
        requires room { 0 < self.old.room }
        requires place { place < PENDING_SETS }
        ensures events { self.new.events ≡ self.old.events ++ Promoted place ∷ [] }
        ensures room { self.old.room ≤ self.new.room + 1 }
    {
        self.push(Mark::Promoted(place), 0, 0, &[]);
    }

    /// Adds the rate that the pending set of a clock gives it in the room that there is.
    pub(crate) fn push_settled(&mut self, clock: u32, rate: u64)
        requires room { 0 < self.old.room }
        ensures events { self.new.events ≡ self.old.events ++ Settled clock rate ∷ [] }
        ensures room { self.old.room ≤ self.new.room + 1 }
    {
        self.push(Mark::RateSettled, clock, 0, &rate_words(rate));
    }

    /// Adds the report of a change that the hardware made by itself in the room that there is.
    pub(crate) fn push_reported(&mut self, effect: Effect)
        requires room { 0 < self.old.room }
        ensures events { self.new.events ≡ self.old.events ++ Reported effect ∷ [] }
        ensures room { self.old.room ≤ self.new.room + 1 }
    {
        match effect {
            Effect::State { domain, state } => self.push(Mark::StateReported, domain, state, &[]),
            Effect::Rate { clock, rate } => {
                self.push(Mark::RateReported, clock, 0, &rate_words(rate));
            }
            Effect::Enabled { clock, enabled } => {
                self.push(Mark::EnabledReported, clock, u32::from(enabled), &[]);
            }
        }
    }

    /// Adds the words of an event in the room that there is.
    fn push(&mut self, mark: Mark, size: u32, header: u32, payload: &[u32])
        requires room { 0 < self.old.room }
        requires agent { HasAgent mark AGENTS }
        requires count { length payload.now ≡ payload_count mark size }
        requires few { length payload.now ≤ PAYLOAD_WORDS }
        ensures events { self.new.events
            ≡ self.old.events ++ event_of mark size header payload.now ∷ [] }
        ensures room { self.old.room ≤ self.new.room + 1 }
    {
        append_head(&mut self.words, mark.pack(), size, header);
        self.count += 1;
        append_payload(&mut self.words, payload);
    }
}

/// Adds the first three words of an event after others, in the room that there is.
fn append_head(words: &mut Vec<u32>, first: u32, size: u32, header: u32)
    requires { vec_len words.old + 3 ≤ vec_capacity words.old }
    ensures items { words.new.items ≡ words.old.items ++ first ∷ size ∷ header ∷ [] }
    ensures len { vec_len words.new ≡ vec_len words.old + 3 }
    ensures capacity { vec_capacity words.old ≤ vec_capacity words.new }
    ensures few { length words.new.items < 2 ^ 64 }
{
    words.push_reserved(first);
    words.push_reserved(size);
    words.push_reserved(header);
}

/// Adds the payload of an event after its first words, in the room that there is. Most have few
/// words or none, and then no copy is called.
fn append_payload(words: &mut Vec<u32>, payload: &[u32])
    requires { vec_len words.old + length payload.now ≤ vec_capacity words.old }
    ensures items { words.new.items ≡ words.old.items ++ payload.now }
    ensures len { vec_len words.new ≡ vec_len words.old + length payload.now }
    ensures capacity { vec_capacity words.old ≤ vec_capacity words.new }
{
    if !payload.is_empty() {
        append_words(words, payload);
    }
}

// Its caller has nothing left to do, so it saves no registers.
#[inline(never)]
fn append_words(words: &mut Vec<u32>, payload: &[u32])
    requires { vec_len words.old + length payload.now ≤ vec_capacity words.old }
    ensures items { words.new.items ≡ words.old.items ++ payload.now }
    ensures len { vec_len words.new ≡ vec_len words.old + length payload.now }
    ensures capacity { vec_capacity words.old ≤ vec_capacity words.new }
{
    let _ = words.extend_from_slice(payload);
}
