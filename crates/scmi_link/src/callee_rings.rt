//! The callee's endpoints of a pair of rings, and what the callee has done.
ghost use Rattle.std.specs.Prelude.{◌≡◌, ◌+◌, ◌<◌, true, false, length, IsSome};
ghost use Rattle.rtrb.specs.Ring.{sent, received, known_free};
ghost use Rattle.scmi_link.specs.Envelope.{frames_in};
ghost use Rattle.scmi_link.specs.Note.{answers_among, has_closing, ends_well};
ghost use Rattle.scmi_link.specs.Bit.{bit};

use crate::close_error::CloseError;
use crate::envelope::{Envelope, set_reply};
use crate::note::Note;
use rtrb::{Consumer, Producer};
use scmi_codec::{Answer, Frame, Message};

/// The callee's endpoints of a pair of rings, and what the callee has done.
#[derive(Drop)]
pub struct CalleeRings {
    pub(crate) frames: Consumer<Box<Envelope>>,
    pub(crate) answers: Producer<Note>,
    pub(crate) closed: bool,
    // The frame taken last has no answer yet.
    pub(crate) owing: bool,
    // The envelope of that frame.
    pub(crate) envelope: Option<Box<Envelope>>,
    // Its calls of `take`, modulo 2^64.
    pub(crate) takes: u64,
    ghost counted: { length (frames_in (received frames)) ≡
        length (answers_among (sent answers)) + bit owing },
    ghost held: { owing ≡ true → IsSome envelope },
    ghost room: { owing ≡ true → 0 < known_free answers },
    ghost noted: { has_closing (sent answers) ≡ true → closed ≡ true },
    ghost last: { ends_well (sent answers) ≡ true },
    ghost done: { closed ≡ true → owing ≡ false },
}

impl CalleeRings {
    ghost use Rattle.std.specs.Prelude.{◌≡◌, ◌++◌, ◌∷◌, [], true};
    ghost use Rattle.scmi_codec.specs.declared.frame.Answer.TheVariants.{Reply};
    ghost use Rattle.scmi_link.specs.View.{Owes};
    ghost use Rattle.scmi_link.specs.Calls.{Takes, ClosesCallee, frame_if};
    ghost use Rattle.scmi_link.specs.CalleeRings.{callee_rings_view, SameCalleeRings};

    // A frame is taken only if a place for its answer is known to be free.
    pub(crate) fn take_into(&mut self, frame: &mut Frame) -> bool
        ensures rings { SameCalleeRings self.old self.new }
        ensures takes { Takes (callee_rings_view self.old) (frame_if result frame.new)
            (callee_rings_view self.new) }
        ensures stays { result ≡ false → frame.new ≡ frame.old }
    {
        self.takes = self.takes.wrapping_add(1);
        if self.closed || self.owing || self.answers.is_full() || self.frames.is_empty() {
            return false;
        }
        let envelope = self.frames.pop_known();
        frame.copy_from(&envelope.frame);
        self.envelope = Some(envelope);
        self.owing = true;
        true
    }

    // Puts the answer that is owed into the ring, if it has a place.
    pub(crate) fn answer(&mut self, answer: &Answer)
        requires { Owes (callee_rings_view self.old) }
        ensures rings { SameCalleeRings self.old self.new }
        ensures answered { callee_rings_view self.new ≡
            record (callee_rings_view self.old)
            { answered = (callee_rings_view self.old).answered ++ answer.now ∷ [] } }
    {
        let mut envelope = self.envelope.take().unwrap();
        envelope.answer.copy_from(answer);
        self.answers.push_reserved(Note::Said(envelope));
        self.owing = false;
    }

    // Puts a reply that is owed into the ring, as `answer`.
    pub(crate) fn reply(&mut self, message: &Message)
        requires { Owes (callee_rings_view self.old) }
        ensures rings { SameCalleeRings self.old self.new }
        ensures answered { callee_rings_view self.new ≡
            record (callee_rings_view self.old)
            { answered = (callee_rings_view self.old).answered ++ Reply message.now ∷ [] } }
    {
        let mut envelope = self.envelope.take().unwrap();
        set_reply(&mut envelope.answer, message);
        self.answers.push_reserved(Note::Said(envelope));
        self.owing = false;
    }

    // The close holds also if the ring takes no note.
    pub(crate) fn close(&mut self) -> Result<(), CloseError>
        ensures rings { SameCalleeRings self.old self.new }
        ensures closes { ClosesCallee (callee_rings_view self.old) result
            (callee_rings_view self.new) }
    {
        if self.owing {
            return Err(CloseError::InService);
        }
        if !self.closed {
            self.closed = true;
            let _ = self.answers.push(Note::Closing);
        }
        Ok(())
    }
}
