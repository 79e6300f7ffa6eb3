//! What goes through the ring from the callee to the caller.
use crate::envelope::Envelope;

/// What a callee sends back through a ring.
#[derive(Drop)]
pub enum Note {
    /// The answer is in the envelope.
    Said(Box<Envelope>),
    /// The callee has closed; nothing comes after this.
    Closing,
}
