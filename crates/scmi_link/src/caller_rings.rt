//! The caller's endpoints of a pair of rings, and what the caller has done.
ghost use Rattle.std.specs.Prelude.{◌≡◌, ◌<◌, ◌+◌, ◌++◌, ◌∷◌, [], true, false, length, IsSome};
ghost use Rattle.rtrb.specs.Ring.{sent, received, known_free, SameProducer};
ghost use Rattle.scmi_link.specs.Envelope.{frames_in};
ghost use Rattle.scmi_link.specs.Note.{answers_among, has_closing};
ghost use Rattle.scmi_link.specs.Bit.{bit};

use crate::close_error::CloseError;
use crate::closing::Closing;
use crate::drop_first::drop_first;
use crate::envelope::{Envelope, set_message};
use crate::looked::Looked;
use crate::note::Note;
use crate::post_error::PostError;
use rtrb::{Consumer, Producer};
use scmi_codec::{Answer, Header, Payload};

/// The caller's endpoints of a pair of rings, and what the caller has done.
#[derive(Drop)]
pub struct CallerRings {
    pub(crate) frames: Producer<Box<Envelope>>,
    pub(crate) answers: Consumer<Note>,
    pub(crate) closed: bool,
    // It has taken the closing note.
    pub(crate) told: bool,
    // A post waits for its answer.
    pub(crate) waiting: bool,
    // The last post was given up.
    pub(crate) left: bool,
    // The channel's envelope, while no frame is on its way in it.
    pub(crate) envelope: Option<Box<Envelope>>,
    // Its calls of `post`, modulo 2^64.
    pub(crate) posts: u64,
    // Its calls of `collect`, modulo 2^64.
    pub(crate) collects: u64,
    ghost counted: { length (frames_in (sent frames)) ≡ length (answers_among (received answers)) +
        (bit waiting + bit left) },
    ghost held: { waiting ≡ false → left ≡ false → IsSome envelope },
    ghost one: { waiting ≡ true → left ≡ false },
    ghost quiet: { closed ≡ true → waiting ≡ false },
    ghost heard: { told ≡ has_closing (received answers) },
    ghost gone: { left ≡ true → told ≡ true },
}

impl CallerRings {
    ghost use Rattle.std.specs.Prelude.{◌≡◌, ◌<◌, true, false, OnOk, IfErr};
    ghost use Rattle.scmi_codec.specs.declared.frame.Frame.TheVariants.{Good, Malformed};
    ghost use Rattle.scmi_codec.specs.declared.message.Message.{Message};
    ghost use Rattle.scmi_link.specs.View.{IsOutstanding, knows_close, one_more};
    ghost use Rattle.scmi_link.specs.Calls.{Posts, RefusesPost, Collects, ClosesCaller, collected_by};
    ghost use Rattle.scmi_link.specs.CallerRings.{caller_rings_view, SameCallerRings, IsIdleOrInService};

    // Posts a message of this header and payload.
    pub(crate) fn post_parts(&mut self, header: Header, payload: &Payload) -> Result<(), PostError>
        ensures rings { SameCallerRings self.old self.new }
        ensures posts { let message : Message = record { header = header; payload = payload.now } in
            Posts true (caller_rings_view self.old) (Good message) result
            (caller_rings_view self.new) }
    {
        self.may_post()?;
        let mut envelope = self.envelope.take().unwrap();
        set_message(&mut envelope.frame, header, payload);
        push_envelope(&mut self.frames, envelope);
        self.waiting = true;
        Ok(())
    }

    // Posts a frame whose length in bytes is not well formed.
    pub(crate) fn post_malformed(&mut self, length: u32, header: u32) -> Result<(), PostError>
        ensures rings { SameCallerRings self.old self.new }
        ensures posts { let frame = Malformed length header in
            Posts true (caller_rings_view self.old) frame result (caller_rings_view self.new) }
    {
        self.may_post()?;
        let mut envelope = self.envelope.take().unwrap();
        envelope.frame.set_malformed(length, header);
        push_envelope(&mut self.frames, envelope);
        self.waiting = true;
        Ok(())
    }

    // Counts a post, and returns whether the caller may and there is a place for it.
    fn may_post(&mut self) -> Result<(), PostError>
        ensures rings { SameCallerRings self.old self.new }
        ensures counts { OnOk result (caller_rings_view self.new ≡
            record (caller_rings_view self.old) { posts = one_more self.old.posts }) }
        ensures room { OnOk result (0 < known_free self.new.frames) }
        ensures idle { OnOk result (self.new.waiting ≡ false) }
        ensures unclosed { OnOk result (knows_close (caller_rings_view self.new) ≡ false) }
        ensures none_outstanding { OnOk result (¬ (IsOutstanding (caller_rings_view self.old))) }
        ensures refused { IfErr result (λ reason.
            RefusesPost true (caller_rings_view self.old) reason (caller_rings_view self.new)) }
    {
        self.posts = self.posts.wrapping_add(1);
        if self.waiting {
            return Err(PostError::Outstanding);
        }
        if self.closed || self.see_closing_note() {
            return Err(PostError::Closed);
        }
        if self.frames.is_full() {
            return Err(PostError::Full);
        }
        Ok(())
    }

    // What the ring of answers has for the caller. An answer is copied from its place in the
    // ring, and dropped there.
    pub(crate) fn collect_into(&mut self, answer: &mut Answer) -> Looked
        ensures rings { SameCallerRings self.old self.new }
        ensures collects { Collects (caller_rings_view self.old) (collected_by result answer.new)
            (caller_rings_view self.new) }
        ensures stays { ¬ (result ≡ Looked.Got) → answer.new ≡ answer.old }
        ensures known { knows_close (caller_rings_view self.old) ≡ true →
            ¬ IsOutstanding (caller_rings_view self.old) → result ≡ Looked.Closed }
    {
        self.collects = self.collects.wrapping_add(1);
        if !self.waiting {
            return if self.closed || self.see_closing_note() {
                Looked::Closed
            } else {
                Looked::Nothing
            };
        }
        if self.answers.is_empty() {
            return Looked::Nothing;
        }
        match self.answers.pop_known() {
            Note::Said(envelope) => {
                answer.copy_from(&envelope.answer);
                self.envelope = Some(envelope);
                self.waiting = false;
                Looked::Got
            }
            Note::Closing => {
                self.told = true;
                self.waiting = false;
                self.left = true;
                Looked::Closed
            }
        }
    }

    // Takes the closing note if it is first, and returns whether it was ever taken. With nothing
    // outstanding no other note is taken out of the ring.
    fn see_closing_note(&mut self) -> bool
        requires { self.old.waiting ≡ false }
        ensures rings { SameCallerRings self.old self.new }
        ensures view { caller_rings_view self.new ≡
            record (caller_rings_view self.old) { told = result } }
        ensures told { self.old.told ≡ true → result ≡ true }
    {
        if self.told || self.answers.is_empty() {
            return self.told;
        }
        match self.answers.peek_known() {
            Note::Said(_) => false,
            Note::Closing => {
                drop_first(&mut self.answers);
                self.told = true;
                true
            }
        }
    }

    // A frame in the ring cannot be taken back, so a close waits for its answer.
    pub(crate) fn close(&mut self) -> Result<Closing, CloseError>
        ensures rings { SameCallerRings self.old self.new }
        ensures closes { ClosesCaller (caller_rings_view self.old) result
            (caller_rings_view self.new) }
        ensures shows { IsIdleOrInService result }
    {
        if self.waiting {
            return Err(CloseError::InService);
        }
        self.closed = true;
        Ok(Closing::Idle)
    }
}

// Puts an envelope into a ring that has a place for it.
fn push_envelope(frames: &mut Producer<Box<Envelope>>, envelope: Box<Envelope>)
    requires { 0 < known_free frames.old }
    ensures ring { SameProducer frames.old frames.new }
    ensures sent { frames_in (sent frames.new) ≡
        frames_in (sent frames.old) ++ envelope.value.frame ∷ [] }
{
    frames.push_reserved(envelope);
}
