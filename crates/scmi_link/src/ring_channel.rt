//! A channel of two rings.
ghost use Rattle.std.specs.Prelude.{true};

use crate::callee_rings::CalleeRings;
use crate::caller_rings::CallerRings;
use crate::channel::Channel;
use crate::close_error::CloseError;
use crate::closing::Closing;
use crate::collected::Collected;
use crate::envelope::Envelope;
use crate::link_error::LinkError;
use crate::looked::Looked;
use crate::note::Note;
use crate::post_error::PostError;
use crate::ring_callee::RingCallee;
use crate::ring_caller::RingCaller;
use crate::rings::{RingIdentities, Rings};
use boxcar::tag::Tag;
use rtrb::RingBuffer;
use scmi_codec::{Answer, Frame, Header, Message, Payload, is_well_formed};
use std::alloc::Global;
use std::snapshot::Snapshot;

// The places of the ring of frames.
const FRAME_PLACES: usize = 1;

// The places of the ring of answers: one for an answer, and one for the callee's closing note.
const ANSWER_PLACES: usize = 2;

/// A channel of two rings: one place for frames, and two for answers and the callee's closing note.
///
/// A callee learns of the caller's close by no message, and need not: a caller closes only if
/// nothing is outstanding. Until the caller has seen the closing note of a callee that closed,
/// `post` may succeed and `collect` be `Nothing`. A caller's close is `Idle` or `InService` only.
///
/// It has no bytes, since the endpoints hold the rings: to a contract it is an identity.
#[derive(Drop)]
pub struct RingChannel {
    pub(crate) identity: Tag,
}

impl Channel for RingChannel {
    type Caller = RingCaller;

    type Callee = RingCallee;

    type Rest = ();

    ghost use Rattle.scmi_link.specs.RingChannel.{ring_identity};
    ghost use Rattle.scmi_link.specs.RingCaller.{ring_caller_view, ring_caller_identity, ring_close_shows, ring_caller_steps};
    ghost use Rattle.scmi_link.specs.RingCallee.{ring_callee_view, ring_callee_identity, ring_callee_steps};

    ghost FULL = { true };

    const FULL: bool = true;

    ghost identity = { ring_identity };

    ghost caller_identity = { ring_caller_identity };

    ghost callee_identity = { ring_callee_identity };

    ghost caller_view = { ring_caller_view };

    ghost callee_view = { ring_callee_view };

    ghost close_shows = { ring_close_shows };

    ghost caller_steps = { ring_caller_steps };

    ghost callee_steps = { ring_callee_steps };

    fn make(alloc: Global) -> Result<(RingChannel, RingCaller, RingCallee), LinkError> {
        let Ok((frames, posted)) = RingBuffer::<Box<Envelope>>::new(alloc, FRAME_PLACES) else {
            return Err(LinkError::Memory);
        };
        let Ok((notes, answers)) = RingBuffer::<Note>::new(alloc, ANSWER_PLACES) else {
            return Err(LinkError::Memory);
        };
        let Ok(envelope) = Envelope::make(alloc) else {
            return Err(LinkError::Memory);
        };
        let rings = Rings {
            frames: Snapshot::of(&frames),
            answers: Snapshot::of(&notes),
        };
        let channel = RingChannel {
            identity: Tag::of::<Rings, RingIdentities>(&rings),
        };
        let caller = RingCaller {
            identity: Tag::of::<Rings, RingIdentities>(&rings),
            rings: CallerRings {
                frames,
                answers,
                closed: false,
                told: false,
                waiting: false,
                left: false,
                envelope: Some(envelope),
                posts: 0,
                collects: 0,
            },
        };
        let callee = RingCallee {
            identity: Tag::of::<Rings, RingIdentities>(&rings),
            rings: CalleeRings {
                frames: posted,
                answers: notes,
                closed: false,
                owing: false,
                envelope: None,
                takes: 0,
            },
        };
        Ok((channel, caller, callee))
    }

    fn post(&self, caller: &mut RingCaller, message: &Message) -> Result<(), PostError> {
        self.post_parts(caller, message.header, &message.payload)
    }

    fn post_parts(
        &self,
        caller: &mut RingCaller,
        header: Header,
        payload: &Payload,
    ) -> Result<(), PostError> {
        caller.rings.post_parts(header, payload)
    }

    fn post_malformed(
        &self,
        caller: &mut RingCaller,
        length: u32,
        header: u32,
    ) -> Result<(), PostError> {
        if is_well_formed(length) {
            return Err(PostError::WellFormed);
        }
        caller.rings.post_malformed(length, header)
    }

    fn outstanding(caller: &RingCaller) -> bool {
        caller.rings.waiting
    }

    fn collect(&self, caller: &mut RingCaller) -> Collected {
        let mut answer = Answer::Released;
        let looked = self.collect_into(caller, &mut answer);
        Collected::of(looked, answer)
    }

    fn collect_into(&self, caller: &mut RingCaller, answer: &mut Answer) -> Looked {
        caller.rings.collect_into(answer)
    }

    fn take(&self, callee: &mut RingCallee) -> Option<Frame> {
        let mut frame = Frame::Malformed {
            length: 0,
            header: 0,
        };
        self.take_into(callee, &mut frame).then_some(frame)
    }

    fn take_into(&self, callee: &mut RingCallee, frame: &mut Frame) -> bool {
        callee.rings.take_into(frame)
    }

    fn owes(callee: &RingCallee) -> bool {
        callee.rings.owing
    }

    fn answer(&self, callee: &mut RingCallee, answer: &Answer) {
        callee.rings.answer(answer);
    }

    fn reply(&self, callee: &mut RingCallee, message: &Message) {
        callee.rings.reply(message);
    }

    fn close_caller(&self, caller: &mut RingCaller) -> Result<Closing, CloseError> {
        caller.rings.close()
    }

    fn close_callee(&self, callee: &mut RingCallee) -> Result<(), CloseError> {
        callee.rings.close()
    }

    fn gather(self, caller: RingCaller, callee: RingCallee) {
        let RingCaller {
            identity: _,
            rings: mut caller,
        } = caller;
        let RingCallee {
            identity: _,
            rings: mut callee,
        } = callee;
        let _ = callee.frames.slots_beside(&mut caller.frames);
        let _ = caller.answers.slots_beside(&mut callee.answers);
    }
}
