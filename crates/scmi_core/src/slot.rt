//! A message of the platform, in as few words as it can have.
ghost use Rattle.std.specs.Prelude.{◌≡◌, ◌≤◌, ◌↔◌, length, true};
ghost use Rattle.scmi_core.specs.Outbox.{message_with};
ghost use Rattle.scmi_core.specs.declared.slot.TheConstants.{SLOT_WORDS};

use scmi_codec::{Header, Message, set_payload};
use std::marker::Model;

/// The most payload words of a message of the platform to an agent.
pub const SLOT_WORDS: usize = 4;

/// A message of at most `SLOT_WORDS` payload words, in an outbox. Contracts see it as a message.
#[derive(Debug, Drop)]
pub struct Slot {
    header: Header,
    count: u8,
    words: [u32; SLOT_WORDS],
}

impl Model for Slot {
    ghost use Rattle.std.specs.Prelude.{length, take, ◌≤◌, ◌≡◌};
    ghost use Rattle.scmi_codec.specs.declared.message.Message.{Message};
    ghost use Rattle.scmi_core.specs.Outbox.{message_with};
    ghost use Rattle.scmi_core.specs.declared.slot.TheConstants.{SLOT_WORDS};

    ghost Value = { Message };

    ghost view = { λ s. message_with s.header (take s.count s.words) };

    ghost invariant = { λ s. (s.count ≤ SLOT_WORDS) × (length s.words ≡ SLOT_WORDS) };
}

impl Slot {
    /// The content of a place that holds no message.
    pub(crate) fn new() -> Slot {
        Slot {
            header: Header::default(),
            count: 0,
            words: [0; SLOT_WORDS],
        }
    }

    /// Becomes the message of this header and these payload words.
    pub(crate) fn set(&mut self, header: Header, words: &[u32])
        requires { length words.now ≤ SLOT_WORDS }
        ensures { self.new ≡ message_with header words.now }
    {
        self.header = header;
        self.count = words.len() as u8;
        self.words[..words.len()].copy_from_slice(words);
    }

    /// Whether another message is the same: in each field of the header, and in each word.
    pub(crate) fn is_same(&self, other: &Slot) -> bool
        ensures { (result ≡ true) ↔ (self.now ≡ other.now) }
    {
        self.header == other.header && self.words() == other.words()
    }

    /// The payload words.
    fn words(&self) -> &[u32]
        ensures { result.now ≡ self.now.payload.items }
    {
        &self.words[..usize::from(self.count)]
    }

    /// Becomes the same message as another.
    pub(crate) fn copy_from(&mut self, other: &Slot)
        ensures { self.new ≡ other.now }
    {
        self.header = other.header;
        self.count = other.count;
        self.words = other.words;
    }

    /// Makes a message this one, in place.
    pub fn copy_to(&self, message: &mut Message)
        ensures { message.new ≡ self.now }
    {
        message.header = self.header;
        set_payload(&mut message.payload, self.words());
    }
}
