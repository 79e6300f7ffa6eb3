//! A message: its header and its payload.
ghost use Rattle.std.specs.Prelude.{◌≡◌};

use crate::header::Header;
use crate::payload::{Payload, payload_of, set_payload};
use arrayvec::ArrayVec;

/// A header and the payload words that follow it.
#[derive(Clone, PartialEq, Eq, Debug, Drop)]
pub struct Message {
    pub header: Header,
    pub payload: Payload,
}

impl Message {
    /// The same message again. It takes no memory, so it cannot fail.
    pub fn copy(&self) -> Message
        ensures { result ≡ self.now }
    {
        Message {
            header: self.header,
            payload: payload_of(self.payload.as_slice()),
        }
    }

    /// Becomes the same message as another. Only the words that are there are copied.
    pub fn copy_from(&mut self, message: &Message)
        ensures { self.new ≡ message.now }
    {
        self.header = message.header;
        set_payload(&mut self.payload, message.payload.as_slice());
    }
}

// A vector of fixed room holds this in its unused places.
impl Default for Message {
    fn default() -> Message {
        Message {
            header: Header::default(),
            payload: ArrayVec::new(),
        }
    }
}
