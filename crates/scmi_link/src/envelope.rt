//! What goes round between the endpoints of a ring channel.
ghost use Rattle.std.specs.Prelude.{◌≡◌};
ghost use Rattle.scmi_codec.specs.declared.frame.Frame.TheVariants.{Good};
ghost use Rattle.scmi_codec.specs.declared.frame.Answer.TheVariants.{Reply};

use scmi_codec::{Answer, Frame, Header, Message, Payload, set_payload};
use std::alloc::{AllocError, Global};

/// A frame and its answer. A channel has one envelope, in a box: it goes to the callee with a frame
/// and comes back with the answer, so a ring moves a pointer, and only words are copied.
#[derive(Drop)]
pub struct Envelope {
    pub(crate) frame: Frame,
    pub(crate) answer: Answer,
}

impl Envelope {
    /// An envelope that no frame was put into. The only error is out of memory.
    pub(crate) fn make(alloc: Global) -> Result<Box<Envelope>, AllocError> {
        let frame = Frame::Malformed {
            length: 0,
            header: 0,
        };
        let answer = Answer::Released;
        Ok(Box::new(alloc, Envelope { frame, answer })?)
    }
}

/// Makes a frame one of this header and payload, in place.
pub(crate) fn set_message(frame: &mut Frame, header: Header, payload: &Payload)
    ensures { frame.new ≡ Good (record { header = header; payload = payload.now }) }
{
    match frame {
        Frame::Good(message) => {
            message.header = header;
            set_payload(&mut message.payload, payload.as_slice());
        }
        Frame::Malformed { .. } => set_new_message(frame, header, payload),
    }
}

// A function clears its locals at its entry, so the message is not a local of `set_message`.
#[inline(never)]
fn set_new_message(frame: &mut Frame, header: Header, payload: &Payload)
    ensures { frame.new ≡ Good (record { header = header; payload = payload.now }) }
{
    let mut message = Message::default();
    message.header = header;
    set_payload(&mut message.payload, payload.as_slice());
    *frame = Frame::Good(message);
}

/// Makes an answer a reply of this message, in place.
pub(crate) fn set_reply(answer: &mut Answer, message: &Message)
    ensures { answer.new ≡ Reply message.now }
{
    match answer {
        Answer::Reply(own) => own.copy_from(message),
        _ => set_new_reply(answer, message),
    }
}

// As `set_new_message`.
#[inline(never)]
fn set_new_reply(answer: &mut Answer, message: &Message)
    ensures { answer.new ≡ Reply message.now }
{
    *answer = Answer::Reply(message.copy());
}
