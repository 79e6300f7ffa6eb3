//! What a channel promises, whatever it is made of.
ghost use Rattle.std.specs.Prelude.{◌≡◌, ◌↔◌, ℕ, Bool, true, false, List, [], ◌∷◌, ◌++◌, IsTrue, Result, IfOk};
ghost use Rattle.scmi_codec.specs.Area.{is_well_formed};
ghost use Rattle.scmi_codec.specs.declared.frame.Frame.TheVariants.{Good, Malformed};
ghost use Rattle.scmi_codec.specs.declared.frame.Answer.TheVariants.{Reply};
ghost use Rattle.scmi_codec.specs.declared.message.Message.{Message};
ghost use Rattle.scmi_link.specs.View.{CallerView, CalleeView, IsOutstanding, Owes, new_caller, new_callee, knows_close};
ghost use Rattle.scmi_link.specs.Calls.{Posts, Collects, Takes, ClosesCaller, ClosesCallee, frame_if, collected_by};
ghost use Rattle.scmi_link.specs.Steps.{call_post, call_collect, call_close, call_take, call_answer, call_close_callee};
ghost use Rattle.scmi_link.specs.Gathered.{Agree, Closed};

use crate::close_error::CloseError;
use crate::closing::Closing;
use crate::collected::Collected;
use crate::link_error::LinkError;
use crate::looked::Looked;
use crate::post_error::PostError;
use scmi_codec::{Answer, Frame, Header, Message, Payload, payload_of};
use std::alloc::Global;

/// A channel of one place between a caller and a callee (own).
///
/// The channel is shared, and each of its two endpoints belongs to one thread. Condition of every
/// call: the endpoint was made by this channel. None of the calls but `make` takes memory, and none
/// waits.
///
/// A contract sees an endpoint as what it has done: the frames and answers that went through it,
/// whether it has closed, whether it was notified that the other endpoint has, and how often it
/// posted or polled. If the endpoints share words, the loads, stores and exchanges that one call
/// makes are counted.
///
/// An implementation writes the methods that have no body here. `post_parts`, `collect_into`,
/// `take_into` and `reply` have one that calls these; an implementation that reads and writes in
/// place replaces it.
pub trait Channel: Sync + Drop {
    /// The endpoint that posts frames and collects their answers.
    type Caller: Send + Drop;

    /// The endpoint that takes frames and answers them.
    type Callee: Send + Drop;

    /// What is left once both endpoints are gathered.
    type Rest: Send + Drop;

    ghost FULL: { Bool };

    /// Whether a post may find no place. If it is false, no post answers `Full`.
    const FULL: bool;

    // An endpoint has the identity of the channel that made it.
    ghost identity: { Self → List ℕ };

    ghost caller_identity: { Self.Caller → List ℕ };

    ghost callee_identity: { Self.Callee → List ℕ };

    // What an endpoint has done.
    ghost caller_view: { Self.Caller → CallerView };

    ghost callee_view: { Self.Callee → CalleeView };

    ghost use Rattle.scmi_link.specs.declared.closing.Closing.{Closing};
    ghost use Rattle.scmi_link.specs.declared.close_error.CloseError.{CloseError};

    // What a close of the caller's endpoint shows by its answer: each kind of channel defines it.
    ghost close_shows: { Self.Caller → Result Closing CloseError → Type 0 };

    ghost use Rattle.scmi_link.specs.Steps.{CallerCall, CalleeCall};

    // How many accesses to shared words one call makes: each kind of channel defines it. Two calls
    // are not one, whatever they answer.
    ghost caller_steps: { Self.Caller → CallerCall → Self.Caller → Type 0 };

    ghost callee_steps: { Self.Callee → CalleeCall → Self.Callee → Type 0 };

    /// A channel and its two endpoints, with nothing posted. `Memory` if out of memory.
    fn make(alloc: Global) -> Result<(Self, Self::Caller, Self::Callee), LinkError>
        ensures made { IfOk result (λ r.
            (caller_identity r.1 ≡ identity r.0) × (callee_identity r.2 ≡ identity r.0)) }
        ensures fresh { IfOk result (λ r.
            (caller_view r.1 ≡ new_caller) × (callee_view r.2 ≡ new_callee)) };

    /// Posts a message.
    ///
    /// The first that applies: `Outstanding` if the answer to the previous post was not collected;
    /// `Closed` if the caller has closed, or is now notified that the callee has; `Full` if the
    /// representation has no place. Every call counts as one post. After `Closed` the caller knows
    /// of the close, if it did not close itself, and nothing else changed; after the others nothing
    /// did.
    fn post(&self, caller: &mut Self::Caller, message: &Message) -> Result<(), PostError>
        requires { caller_identity caller.old ≡ identity self.now }
        ensures identity { caller_identity caller.new ≡ caller_identity caller.old }
        ensures posts { Posts FULL (caller_view caller.old) (Good message.now) result
            (caller_view caller.new) }
        ensures steps { caller_steps caller.old (call_post (Good message.now) result) caller.new };

    /// Posts a message of this header and payload, as `post`.
    fn post_parts(
        &self,
        caller: &mut Self::Caller,
        header: Header,
        payload: &Payload,
    ) -> Result<(), PostError>
        requires { caller_identity caller.old ≡ identity self.now }
        ensures identity { caller_identity caller.new ≡ caller_identity caller.old }
        ensures posts { let message : Message = record { header = header; payload = payload.now } in
            Posts FULL (caller_view caller.old) (Good message) result (caller_view caller.new) }
        ensures steps { let message : Message = record { header = header; payload = payload.now } in
            caller_steps caller.old (call_post (Good message) result) caller.new }
    {
        let payload = payload_of(payload.as_slice());
        self.post(caller, &Message { header, payload })
    }

    /// Posts a frame whose length in bytes is not well formed.
    ///
    /// `WellFormed` if the length is well formed, and then nothing changed, nor is a post counted.
    /// Else as `post`.
    fn post_malformed(
        &self,
        caller: &mut Self::Caller,
        length: u32,
        header: u32,
    ) -> Result<(), PostError>
        requires { caller_identity caller.old ≡ identity self.now }
        ensures identity { caller_identity caller.new ≡ caller_identity caller.old }
        ensures well_formed { (result ≡ Err PostError.WellFormed) ↔ (is_well_formed length ≡ true) }
        ensures unchanged { is_well_formed length ≡ true →
            caller_view caller.new ≡ caller_view caller.old }
        ensures posts { is_well_formed length ≡ false
            → Posts FULL (caller_view caller.old) (Malformed length header) result
            (caller_view caller.new) }
        ensures steps { caller_steps caller.old (call_post (Malformed length header) result)
            caller.new };

    /// Whether the answer to the last post was not collected, and the post was neither withdrawn nor
    /// given up.
    fn outstanding(caller: &Self::Caller) -> bool
        ensures { IsTrue result ↔ IsOutstanding (caller_view caller.now) };

    /// What the channel has for the caller. An available answer is given first.
    ///
    /// `Closed`: an endpoint has closed and there is no answer to read. An outstanding post is then
    /// given up: it counts as left untaken, and is outstanding no more. After one `Closed` every
    /// later call gives `Closed`.
    fn collect(&self, caller: &mut Self::Caller) -> Collected
        requires { caller_identity caller.old ≡ identity self.now }
        ensures identity { caller_identity caller.new ≡ caller_identity caller.old }
        ensures collects { Collects (caller_view caller.old) result (caller_view caller.new) }
        ensures known { knows_close (caller_view caller.old) ≡ true →
            ¬ IsOutstanding (caller_view caller.old) → result ≡ Collected.Closed }
        ensures steps { caller_steps caller.old (call_collect result) caller.new };

    /// What the channel has for the caller, as `collect`, the answer read into `answer`. If it
    /// gives no answer, `answer` stays.
    fn collect_into(&self, caller: &mut Self::Caller, answer: &mut Answer) -> Looked
        requires { caller_identity caller.old ≡ identity self.now }
        ensures identity { caller_identity caller.new ≡ caller_identity caller.old }
        ensures collects { Collects (caller_view caller.old) (collected_by result answer.new)
            (caller_view caller.new) }
        ensures stays { ¬ (result ≡ Looked.Got) → answer.new ≡ answer.old }
        ensures known { knows_close (caller_view caller.old) ≡ true →
            ¬ IsOutstanding (caller_view caller.old) → result ≡ Looked.Closed }
        ensures steps { caller_steps caller.old (call_collect (collected_by result answer.new))
            caller.new }
    {
        match self.collect(caller) {
            Collected::Nothing => Looked::Nothing,
            Collected::Got(got) => {
                *answer = got;
                Looked::Got
            }
            Collected::Closed => Looked::Closed,
        }
    }

    /// The frame that is posted. `None` if nothing is posted, an endpoint has closed, or the callee
    /// still owes an answer.
    fn take(&self, callee: &mut Self::Callee) -> Option<Frame>
        requires { callee_identity callee.old ≡ identity self.now }
        ensures identity { callee_identity callee.new ≡ callee_identity callee.old }
        ensures takes { Takes (callee_view callee.old) result (callee_view callee.new) }
        ensures steps { callee_steps callee.old (call_take result) callee.new };

    /// Takes the frame that is posted, as `take`, into `frame`, and returns whether there was one.
    /// If there was none, `frame` stays.
    fn take_into(&self, callee: &mut Self::Callee, frame: &mut Frame) -> bool
        requires { callee_identity callee.old ≡ identity self.now }
        ensures identity { callee_identity callee.new ≡ callee_identity callee.old }
        ensures takes { Takes (callee_view callee.old) (frame_if result frame.new)
            (callee_view callee.new) }
        ensures stays { result ≡ false → frame.new ≡ frame.old }
        ensures steps { callee_steps callee.old (call_take (frame_if result frame.new)) callee.new }
    {
        match self.take(callee) {
            Some(taken) => {
                *frame = taken;
                true
            }
            None => false,
        }
    }

    /// Whether the last frame that was taken has no answer yet.
    fn owes(callee: &Self::Callee) -> bool
        ensures { IsTrue result ↔ Owes (callee_view callee.now) };

    /// Answers the frame that was taken last. Condition: the callee owes an answer. It never fails.
    fn answer(&self, callee: &mut Self::Callee, answer: &Answer)
        requires identity { callee_identity callee.old ≡ identity self.now }
        requires owes { Owes (callee_view callee.old) }
        ensures identity { callee_identity callee.new ≡ callee_identity callee.old }
        ensures answered { callee_view callee.new ≡
            record (callee_view callee.old)
            { answered = (callee_view callee.old).answered ++ answer.now ∷ [] } }
        ensures steps { callee_steps callee.old (call_answer answer.now) callee.new };

    /// Answers the frame that was taken last by a reply, as `answer`.
    fn reply(&self, callee: &mut Self::Callee, message: &Message)
        requires identity { callee_identity callee.old ≡ identity self.now }
        requires owes { Owes (callee_view callee.old) }
        ensures identity { callee_identity callee.new ≡ callee_identity callee.old }
        ensures answered { callee_view callee.new ≡
            record (callee_view callee.old)
            { answered = (callee_view callee.old).answered ++ Reply message.now ∷ [] } }
        ensures steps { callee_steps callee.old (call_answer (Reply message.now)) callee.new }
    {
        self.answer(callee, &Answer::Reply(message.copy()));
    }

    /// Closes the caller's endpoint.
    ///
    /// `Idle` if nothing was outstanding or the endpoint is closed already; `Withdrawn` if the
    /// outstanding frame was not taken and never will be: it is outstanding no more. `InService` if
    /// the outstanding frame was taken, or the channel cannot take it back; `ReplyWaiting` if its
    /// answer is waiting to be collected. After a refusal the endpoint is not closed. Each kind of
    /// channel defines what distinguishes one answer from another.
    fn close_caller(&self, caller: &mut Self::Caller) -> Result<Closing, CloseError>
        requires { caller_identity caller.old ≡ identity self.now }
        ensures identity { caller_identity caller.new ≡ caller_identity caller.old }
        ensures closes { ClosesCaller (caller_view caller.old) result (caller_view caller.new) }
        ensures shows { close_shows caller.new result }
        ensures steps { caller_steps caller.old (call_close result) caller.new };

    /// Closes the callee's endpoint. `InService` if the callee owes an answer, and then the
    /// endpoint is not closed. Closing twice is `Ok`.
    fn close_callee(&self, callee: &mut Self::Callee) -> Result<(), CloseError>
        requires { callee_identity callee.old ≡ identity self.now }
        ensures identity { callee_identity callee.new ≡ callee_identity callee.old }
        ensures closes { ClosesCallee (callee_view callee.old) result (callee_view callee.new) }
        ensures steps { callee_steps callee.old (call_close_callee result) callee.new };

    /// Ends the channel, with both of its endpoints at hand: what each has done is then known to
    /// agree.
    fn gather(self, caller: Self::Caller, callee: Self::Callee) -> Self::Rest
        requires caller { caller_identity caller ≡ identity self }
        requires callee { callee_identity callee ≡ identity self }
        ensures agree { Agree (caller_view caller) (callee_view callee) }
        ensures closed { Closed (caller_view caller) (callee_view callee) };
}
