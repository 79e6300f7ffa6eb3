//! Messages in the places of a ring.
ghost use Rattle.std.specs.Prelude.{◌≡◌, ◌<◌, ◌≤◌, ◌++◌, ◌∷◌, ◌↔◌, [], length, true, Some, drop, slice_get};
ghost use Rattle.std.specs.Option.{option_copied};
ghost use Rattle.scmi_core.specs.Outbox.{message_with};
ghost use Rattle.scmi_core.specs.declared.outboxes.TheConstants.{OUTBOX_ROOM};
ghost use Rattle.scmi_core.specs.declared.slot.TheConstants.{SLOT_WORDS};

use crate::outboxes::OUTBOX_ROOM;
use crate::slot::Slot;
use scmi_codec::Header;
use std::array;
use std::marker::Model;

/// At most `OUTBOX_ROOM` messages of at most `SLOT_WORDS` payload words, the oldest first.
#[derive(Debug, Drop)]
pub struct MessageRing {
    slots: [Slot; OUTBOX_ROOM],
    // The place of the oldest.
    oldest: usize,
    count: usize,
}

impl Model for MessageRing {
    ghost use Rattle.std.specs.Prelude.{List, length, ◌<◌, ◌≤◌, ◌≡◌};
    ghost use Rattle.scmi_codec.specs.declared.message.Message.{Message};
    ghost use Rattle.scmi_core.specs.Window.{window};
    ghost use Rattle.scmi_core.specs.declared.outboxes.TheConstants.{OUTBOX_ROOM};

    ghost Value = { List Message };

    ghost view = { λ r. window r.oldest r.count r.slots };

    ghost invariant = { λ r. (r.oldest < OUTBOX_ROOM) × (r.count ≤ OUTBOX_ROOM)
        × (length r.slots ≡ OUTBOX_ROOM) };
}

impl MessageRing {
    /// No messages.
    pub fn new() -> MessageRing
        ensures { result ≡ [] }
    {
        MessageRing {
            slots: array::from_fn(|_| Slot::new()),
            oldest: 0,
            count: 0,
        }
    }

    /// The number of messages.
    pub fn len(&self) -> usize
        ensures count { result ≡ length self.now }
        ensures few { result ≤ OUTBOX_ROOM }
    {
        self.count
    }

    /// The oldest message.
    pub fn first(&self) -> Option<&Slot>
        ensures { option_copied result ≡ slice_get self.now 0 }
    {
        if self.count == 0 {
            None
        } else {
            Some(&self.slots[self.oldest])
        }
    }

    /// Becomes the same as another ring.
    pub fn copy_from(&mut self, other: &MessageRing)
        ensures { self.new ≡ other.now }
    {
        'slots: for place in 0..OUTBOX_ROOM {
            self.slots[place].copy_from(&other.slots[place]);
        }
        self.oldest = other.oldest;
        self.count = other.count;
    }

    /// Whether another ring has the same messages.
    pub fn is_same(&self, other: &MessageRing) -> bool
        ensures { (result ≡ true) ↔ (self.now ≡ other.now) }
    {
        if self.count != other.count {
            return false;
        }
        'messages: for index in 0..self.count {
            if !self.at(index).is_same(other.at(index)) {
                return false;
            }
        }
        true
    }

    /// A message of the ring; the oldest has index 0.
    fn at(&self, index: usize) -> &Slot
        requires { index < length self.now }
        ensures { slice_get self.now index ≡ Some result.now }
    {
        &self.slots[(self.oldest + index) % OUTBOX_ROOM]
    }

    /// Takes the oldest message off.
    pub fn pop(&mut self)
        requires { 0 < length self.old }
        ensures { self.new ≡ drop 1 self.old }
    {
        self.oldest = (self.oldest + 1) % OUTBOX_ROOM;
        self.count -= 1;
    }

    /// Takes all messages off.
    pub fn clear(&mut self)
        ensures { self.new ≡ [] }
    {
        self.count = 0;
    }

    /// Writes a message of this header and these payload words after the others.
    pub fn push(&mut self, header: Header, words: &[u32])
        requires room { length self.old < OUTBOX_ROOM }
        requires few { length words.now ≤ SLOT_WORDS }
        ensures { self.new ≡ self.old ++ message_with header words.now ∷ [] }
    {
        let place = (self.oldest + self.count) % OUTBOX_ROOM;
        self.slots[place].set(header, words);
        self.count += 1;
    }
}
