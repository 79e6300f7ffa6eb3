//! What is under way between the agents and the platform.

use std::alloc::{AllocError, Global};

/// What happens to an agent in a slot.
#[derive(Clone, Copy)]
pub(crate) enum Event {
    /// Its command was answered; it has not read that yet.
    Answered,
    /// The platform posted a message that it has not taken yet.
    Posted,
    /// It closed its channels.
    Closed,
}

impl Event {
    /// The place of this event of an agent among those of all.
    fn place(self, agent: u8) -> usize {
        let first = 3 * usize::from(agent.wrapping_sub(1));
        match self {
            Event::Answered => first,
            Event::Posted => first + 1,
            Event::Closed => first + 2,
        }
    }
}

/// What is under way between the agents of a board and the platform: of each agent and event the
/// slot in which it happened, if it did. An agent that the board lacks has nothing under way.
#[derive(Drop)]
pub(crate) struct Parties {
    slots: Vec<Option<u16>>,
}

impl Parties {
    /// Nothing is under way for this many agents.
    pub fn new(alloc: Global, agents: usize) -> Result<Parties, AllocError> {
        let slots = vec![in alloc; None; agents.saturating_mul(3)]?;
        Ok(Parties { slots })
    }

    /// An event happened to the agent in this slot, or is over.
    pub fn set(&mut self, agent: u8, event: Event, slot: Option<u16>) {
        if let Some(place) = self.slots.get_mut(event.place(agent)) {
            *place = slot;
        }
    }

    /// The slot in which an event happened to the agent, if it did.
    pub fn slot(&self, agent: u8, event: Event) -> Option<u16> {
        *self.slots.get(event.place(agent))?
    }

    /// The same, of an event that is over now.
    pub fn take(&mut self, agent: u8, event: Event) -> Option<u16> {
        let slot = self.slot(agent, event);
        self.set(agent, event, None);
        slot
    }
}
