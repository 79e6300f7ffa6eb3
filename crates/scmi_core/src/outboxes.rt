//! The messages that the platform has for each agent.
ghost use Rattle.std.specs.Prelude.{◌≡◌, ◌≢◌, ◌↔◌, ◌≤◌, ◌<◌, ◌∷◌, [], ℕ, length, true, false, drop, slice_get};
ghost use Rattle.std.specs.Option.{option_copied};
ghost use Rattle.scmi_plan.specs.Agent.{IsAgent};
ghost use Rattle.scmi_plan.specs.declared.limits.TheConstants.{AGENTS};
ghost use Rattle.scmi_core.specs.Outbox.{failed_response_for, message_with, response_for};
ghost use Rattle.scmi_core.specs.Outboxes.{Gets, HasSameOutbox, outbox_in};
ghost use Rattle.scmi_core.specs.declared.outboxes.TheConstants.{OUTBOX_ROOM};
ghost use Rattle.scmi_core.specs.declared.slot.TheConstants.{SLOT_WORDS};

use crate::message_ring::MessageRing;
use crate::pending_set::Setting;
use crate::slot::Slot;
use scmi_codec::{Fault, Header};
use scmi_plan::AGENTS;
use std::marker::Model;

/// The most that an agent's outbox and its pending sets are together (own), and so the room of an
/// outbox.
pub const OUTBOX_ROOM: usize = 16;

/// The messages for an agent that are not posted yet, the oldest first. It takes no memory.
pub type Outbox = MessageRing;

/// The outbox of each agent. Contracts see it as the list of them.
#[derive(Drop, Debug)]
pub struct Outboxes {
    // That of agent a at index a - 1.
    each: [Outbox; AGENTS],
}

impl Model for Outboxes {
    ghost use Rattle.std.specs.Prelude.{List};
    ghost use Rattle.scmi_codec.specs.declared.message.Message.{Message};
    ghost use Rattle.scmi_core.specs.Outboxes.{AreOutboxes};

    ghost Value = { List (List Message) };

    ghost view = { λ o. o.each };

    ghost invariant = { λ o. AreOutboxes o.each };
}

impl Outboxes {
    /// All empty.
    pub fn new() -> Outboxes
        ensures { (a : ℕ) → outbox_in result a ≡ [] }
    {
        Outboxes {
            each: [
                Outbox::new(),
                Outbox::new(),
                Outbox::new(),
                Outbox::new(),
                Outbox::new(),
                Outbox::new(),
                Outbox::new(),
                Outbox::new(),
            ],
        }
    }

    /// Become the same as others.
    pub fn copy_from(&mut self, other: &Outboxes)
        ensures { self.new ≡ other.now }
    {
        'agents: for index in 0..AGENTS {
            self.each[index].copy_from(&other.each[index]);
        }
    }

    /// Whether others are the same.
    pub fn is_same(&self, other: &Outboxes) -> bool
        ensures { (result ≡ true) ↔ (self.now ≡ other.now) }
    {
        'agents: for index in 0..AGENTS {
            if !self.each[index].is_same(&other.each[index]) {
                return false;
            }
        }
        true
    }

    /// The first message of an agent's outbox.
    pub fn first(&self, agent: u32) -> Option<&Slot>
        requires agent { IsAgent AGENTS agent }
        ensures { option_copied result ≡ slice_get (outbox_in self.now agent) 0 }
    {
        self.each[agent as usize - 1].first()
    }

    /// Whether an agent's outbox is empty.
    pub fn is_empty(&self, agent: u32) -> bool
        requires agent { IsAgent AGENTS agent }
        ensures empty { (result ≡ true) ↔ (outbox_in self.now agent ≡ []) }
        ensures some { result ≡ false → 0 < length (outbox_in self.now agent) }
    {
        self.waiting(agent) == 0
    }

    /// How many messages wait in an agent's outbox.
    pub fn waiting(&self, agent: u32) -> usize
        requires agent { IsAgent AGENTS agent }
        ensures count { result ≡ length (outbox_in self.now agent) }
        ensures few { result ≤ OUTBOX_ROOM }
    {
        self.each[agent as usize - 1].len()
    }

    /// Takes the first message off an agent's outbox.
    pub fn take(&mut self, agent: u32)
        requires agent { IsAgent AGENTS agent }
        requires some { 0 < length (outbox_in self.old agent) }
        ensures taken { outbox_in self.new agent ≡ drop 1 (outbox_in self.old agent) }
        ensures others { (a : ℕ) → 1 ≤ a → a ≢ agent → HasSameOutbox self.old self.new a }
    {
        self.each[agent as usize - 1].pop();
    }

    /// Takes all messages off an agent's outbox.
    pub fn clear(&mut self, agent: u32)
        requires agent { IsAgent AGENTS agent }
        ensures emptied { outbox_in self.new agent ≡ [] }
        ensures others { (a : ℕ) → 1 ≤ a → a ≢ agent → HasSameOutbox self.old self.new a }
    {
        self.each[agent as usize - 1].clear();
    }

    /// Puts the delayed response to a set into its agent's outbox, if it is wanted.
    pub fn respond(&mut self, agent: u32, setting: Setting, header: Header, wanted: bool)
        requires agent { IsAgent AGENTS agent }
        requires room { length (outbox_in self.old agent) < OUTBOX_ROOM }
        ensures { (a : ℕ) → 1 ≤ a → Gets self.old self.new a
            (response_for a (record {
              agent = agent;
              setting = setting;
              header = header;
              wanted = wanted;
            })) }
    {
        if wanted {
            self.put_response(agent, header, setting);
        }
    }

    /// Puts the delayed response to a set that failed into its agent's outbox, if it is wanted.
    pub fn respond_failed(
        &mut self,
        agent: u32,
        setting: Setting,
        header: Header,
        wanted: bool,
        fault: Fault,
    )
        requires agent { IsAgent AGENTS agent }
        requires room { length (outbox_in self.old agent) < OUTBOX_ROOM }
        ensures { (a : ℕ) → 1 ≤ a → Gets self.old self.new a
            (failed_response_for a fault (record {
              agent = agent;
              setting = setting;
              header = header;
              wanted = wanted;
            })) }
    {
        if !wanted {
            return;
        }
        self.put_failed_response(agent, header, fault);
    }

    /// Puts a message of this header and these payload words into an agent's outbox.
    pub fn put(&mut self, agent: u32, header: Header, words: &[u32])
        requires agent { IsAgent AGENTS agent }
        requires room { length (outbox_in self.old agent) < OUTBOX_ROOM }
        requires few { length words.now ≤ SLOT_WORDS }
        ensures put { Gets self.old self.new agent (message_with header words.now ∷ []) }
        ensures others { (a : ℕ) → 1 ≤ a → a ≢ agent → HasSameOutbox self.old self.new a }
    {
        self.each[agent as usize - 1].push(header, words);
    }
}
