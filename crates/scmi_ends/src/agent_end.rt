//! The agent's side of its two channels.
ghost use Rattle.std.specs.Prelude.{◌≡◌, ◌+◌, ◌%◌, ◌<◌, ◌++◌, ◌∷◌, ◌↔◌, [], true, false, IfOk, IfErr, OnErr, OnOk};
ghost use Rattle.scmi_codec.specs.Area.{is_well_formed};
ghost use Rattle.scmi_codec.specs.declared.frame.Frame.TheVariants.{Good, Malformed};
ghost use Rattle.scmi_codec.specs.declared.frame.Answer.TheVariants.{Released};
ghost use Rattle.scmi_codec.specs.declared.message.Message.{Message};
ghost use Rattle.scmi_codec.specs.declared.header.TheConstants.{TOKENS};
ghost use Rattle.scmi_codec.specs.Command.{protocol_header};
ghost use Rattle.scmi_link.specs.View.{IsOutstanding, Owes, knows_close, new_caller, new_callee};
ghost use Rattle.scmi_link.specs.Calls.{Posts, Collects, ClosesCaller, collected_by, frame_if};
ghost use Rattle.scmi_ends.specs.Shut.{ShowsClose};

use crate::link::Link;
use scmi_codec::{Answer, Frame, Header, Message, Payload, TOKENS};
use scmi_link::{Channel, CloseError, Closing, Collected, Looked, PostError};
use std::marker::Model;

/// What one agent holds: its endpoints of its two channels, its number, and the token of its next
/// command.
///
/// Condition of each call that is given a link: it is the agent's own. No call takes memory, and
/// none but `wait_counted` and `wait_reply` waits.
#[derive(Drop)]
pub struct AgentEnd<C: Channel> {
    caller: C::Caller,
    callee: C::Callee,
    id: u32,
    token: u16,
    // Whether a command is outstanding.
    waits: bool,
}

impl<C: Channel> Model for AgentEnd<C> {
    ghost use Rattle.std.specs.Prelude.{◌≡◌, ◌<◌, length};
    ghost use Rattle.scmi_codec.specs.declared.header.TheConstants.{TOKENS};
    ghost use Rattle.scmi_ends.specs.AgentView.{AgentView};
    ghost use Rattle.scmi_ends.specs.Life.{KnowsOutstanding};

    ghost Value = { AgentView };

    ghost view = { λ agent. record {
      id = agent.id;
      token = agent.token;
      caller = C.caller_view agent.caller;
      callee = C.callee_view agent.callee;
      a2p_identity = C.caller_identity agent.caller;
      p2a_identity = C.callee_identity agent.callee;
    } };

    // It owes no release.
    ghost invariant = { λ agent. (agent.token < TOKENS) ×
        (length (C.callee_view agent.callee).taken ≡ length
        (C.callee_view agent.callee).answered) ×
        KnowsOutstanding agent.waits (C.caller_view agent.caller) };
}

impl<C: Channel> AgentEnd<C> {
    ghost use Rattle.scmi_ends.specs.AgentView.{IsOfLink, IsNewAgent};
    ghost use Rattle.scmi_ends.specs.Life.{BeginsAgain, StillWaits};
    ghost use Rattle.scmi_ends.specs.Poll.{Receives};

    pub(crate) fn new(caller: C::Caller, callee: C::Callee, id: u32) -> AgentEnd<C>
        requires caller { C.caller_view caller ≡ new_caller }
        requires callee { C.callee_view callee ≡ new_callee }
        ensures fresh { IsNewAgent id result }
        ensures identities { IsOfLink (C.caller_identity caller) (C.callee_identity callee) result }
    {
        AgentEnd {
            caller,
            callee,
            id,
            token: 0,
            waits: false,
        }
    }

    // The endpoints of A2P and of P2A.
    pub(crate) fn into_ends(self) -> (C::Caller, C::Callee)
        ensures views { (C.caller_view result.0 ≡ self.caller) ×
            (C.callee_view result.1 ≡ self.callee) }
        ensures identities { (C.caller_identity result.0 ≡ self.a2p_identity) ×
            (C.callee_identity result.1 ≡ self.p2a_identity) }
    {
        (self.caller, self.callee)
    }

    /// The agent's number. Agents are numbered from 1 (DEN0056B, base protocol).
    pub fn id(&self) -> u32
        ensures { result ≡ self.now.id }
    {
        self.id
    }

    /// Posts a command of this protocol, message id and payload on A2P, and gives its token, 0 to
    /// 1,023.
    ///
    /// Tokens are counted from 0, and only a successful call moves them on, by one modulo 1,024
    /// (own). It is one post, whatever it answers. The first that applies: `Outstanding` if the
    /// answer to the post before was not collected; `Closed` if the agent has closed, or is now
    /// notified that the platform has; `Full` if the channel has no place. After `Closed` the agent
    /// knows of the close; nothing else changed.
    pub fn call(
        &mut self,
        link: &Link<C>,
        protocol: u8,
        id: u8,
        payload: &Payload,
    ) -> Result<u16, PostError>
        requires { IsOfLink (C.identity link.now.a2p) (C.identity link.now.p2a) self.old }
        ensures token { IfOk result (λ token. token ≡ self.old.token) }
        ensures ok { let token = (self.old.token + 1) % TOKENS in
            OnOk result (self.new ≡ record self.old { token = token; caller = self.new.caller }) }
        ensures err { OnErr result (self.new ≡ record self.old { caller = self.new.caller }) }
        ensures posts { let header = protocol_header protocol self.old.token id in
            let message : Message = record { header = header; payload = payload.now } in
            Posts C.FULL self.old.caller (Good message) result self.new.caller }
    {
        let token = self.token;
        let header = Header::command(protocol, token, id);
        link.a2p.post_parts(&mut self.caller, header, payload)?;
        self.waits = true;
        self.token = (token + 1) % TOKENS;
        Ok(token)
    }

    /// Posts a message on A2P as it is, with its own token; that of the next `call` stays. It is
    /// one post, and refused as `call` is.
    pub fn post(&mut self, link: &Link<C>, message: &Message) -> Result<(), PostError>
        requires { IsOfLink (C.identity link.now.a2p) (C.identity link.now.p2a) self.old }
        ensures same { self.new ≡ record self.old { caller = self.new.caller } }
        ensures posts { Posts C.FULL self.old.caller (Good message.now) result self.new.caller }
    {
        link.a2p.post(&mut self.caller, message)?;
        self.waits = true;
        Ok(())
    }

    /// Posts a frame on A2P whose length in bytes is not well formed (own).
    ///
    /// The length is that of header and payload in bytes. `WellFormed` if it is 4 + 4k with k from
    /// 0 to `PAYLOAD_WORDS`, and then nothing changed. Else it is one post, and refused as `call`
    /// is.
    pub fn post_malformed(
        &mut self,
        link: &Link<C>,
        length: u32,
        header: u32,
    ) -> Result<(), PostError>
        requires { IsOfLink (C.identity link.now.a2p) (C.identity link.now.p2a) self.old }
        ensures same { self.new ≡ record self.old { caller = self.new.caller } }
        ensures well_formed { (result ≡ Err PostError.WellFormed) ↔ (is_well_formed length ≡ true) }
        ensures unchanged { is_well_formed length ≡ true → self.new ≡ self.old }
        ensures posts { is_well_formed length ≡ false
            → Posts C.FULL self.old.caller (Malformed length header) result self.new.caller }
    {
        link.a2p.post_malformed(&mut self.caller, length, header)?;
        self.waits = true;
        Ok(())
    }

    /// Polls once for the answer to the post on A2P; an answer that waits is given first.
    ///
    /// `Closed`: one of the two sides has closed and no answer waits; an outstanding command is
    /// then given up, and was not executed. After one `Closed` every later call gives `Closed`.
    pub fn collect(&mut self, link: &Link<C>) -> Collected
        requires { IsOfLink (C.identity link.now.a2p) (C.identity link.now.p2a) self.old }
        ensures same { self.new ≡ record self.old { caller = self.new.caller } }
        ensures collects { Collects self.old.caller result self.new.caller }
        ensures known { knows_close self.old.caller ≡ true → ¬ (IsOutstanding self.old.caller) →
            result ≡ Collected.Closed }
    {
        let collected = link.a2p.collect(&mut self.caller);
        self.waits = self.waits && matches!(collected, Collected::Nothing);
        collected
    }

    /// Polls once for the answer to the post on A2P, as `collect`, and reads it into `answer`,
    /// which stays unchanged if there is none.
    pub fn collect_into(&mut self, link: &Link<C>, answer: &mut Answer) -> Looked
        requires { IsOfLink (C.identity link.now.a2p) (C.identity link.now.p2a) self.old }
        ensures same { self.new ≡ record self.old { caller = self.new.caller } }
        ensures collects { Collects self.old.caller
            (collected_by result answer.new) self.new.caller }
        ensures stays { ¬ (result ≡ Looked.Got) → answer.new ≡ answer.old }
        ensures known { knows_close self.old.caller ≡ true → ¬ (IsOutstanding self.old.caller) →
            result ≡ Looked.Closed }
    {
        let looked = link.a2p.collect_into(&mut self.caller, answer);
        self.waits = self.waits && matches!(looked, Looked::Nothing);
        looked
    }

    /// Takes the platform's message off P2A, if one is posted, and releases it at once. `None` if
    /// none is posted, or one of the two sides has closed.
    pub fn next_p2a(&mut self, link: &Link<C>) -> Option<Frame>
        requires { IsOfLink (C.identity link.now.a2p) (C.identity link.now.p2a) self.old }
        ensures same { self.new ≡ record self.old { callee = self.new.callee } }
        ensures receives { Receives self.old.callee result self.new.callee }
    {
        let mut frame = Frame::Good(Message::default());
        if self.next_p2a_into(link, &mut frame) {
            Some(frame)
        } else {
            None
        }
    }

    /// Takes the platform's message off P2A, as `next_p2a`, into `frame`, and returns whether there
    /// was one; if there was none, `frame` stays unchanged.
    pub fn next_p2a_into(&mut self, link: &Link<C>, frame: &mut Frame) -> bool
        requires { IsOfLink (C.identity link.now.a2p) (C.identity link.now.p2a) self.old }
        ensures same { self.new ≡ record self.old { callee = self.new.callee } }
        ensures receives { Receives self.old.callee (frame_if result frame.new) self.new.callee }
        ensures stays { result ≡ false → frame.new ≡ frame.old }
    {
        if !link.p2a.take_into(&mut self.callee, frame) {
            return false;
        }
        release(&link.p2a, &mut self.callee);
        true
    }

    /// Closes A2P, and then P2A.
    ///
    /// `Withdrawn` if the outstanding command was not executed and never will be; `Idle` if none
    /// was outstanding. `InService` and `ReplyWaiting` come only if a command is outstanding: it
    /// was taken or cannot be taken back, or its answer waits. After an error nothing changed.
    pub fn close(&mut self, link: &Link<C>) -> Result<Closing, CloseError>
        requires { IsOfLink (C.identity link.now.a2p) (C.identity link.now.p2a) self.old }
        ensures closes { ClosesCaller self.old.caller result self.new.caller }
        ensures ok { let callee = record (self.old.callee) { closed = true } in
            OnOk result (self.new ≡ record self.old { caller = self.new.caller; callee = callee }) }
        ensures err { OnErr result (self.new ≡ self.old) }
        ensures shows { ShowsClose C.caller_view C.close_shows self.new.caller result }
    {
        let closing = link.a2p.close_caller(&mut self.caller)?;
        link.p2a.close_callee(&mut self.callee)?;
        self.waits = false;
        Ok(closing)
    }

    /// Makes this end that of the agent's next life, once it restarted, with 0 as the first token.
    ///
    /// It polls once on A2P and once on P2A, and throws away what is there: an answer to the life
    /// before, and a message. While a command of that life is outstanding the error hands the end
    /// back as it is then, so that no later life reads the answer; it may be tried again. An end
    /// that knows of a close still knows of it. `Controller::restart` ends what the agent asked for.
    pub fn restart(mut self, link: &Link<C>) -> Result<AgentEnd<C>, AgentEnd<C>>
        requires { IsOfLink (C.identity link.now.a2p) (C.identity link.now.p2a) self }
        ensures ok { IfOk result (λ next. BeginsAgain self next) }
        ensures err { IfErr result (λ stays. StillWaits self stays) }
        ensures ok_link { IfOk result (IsOfLink (C.identity link.now.a2p) (C.identity link.now.p2a)) }
        ensures err_link { IfErr result
            (IsOfLink (C.identity link.now.a2p) (C.identity link.now.p2a)) }
    {
        let _answer = self.collect(link);
        let _message = self.next_p2a(link);
        if self.waits {
            return Err(self);
        }
        self.token = 0;
        Ok(self)
    }
}

// Releases the message that was taken. A function clears its locals at its entry, so the answer is
// not one of those of `next_p2a_into`, which mostly finds nothing.
#[inline(never)]
fn release<C: Channel>(p2a: &C, callee: &mut C::Callee)
    requires identity { C.callee_identity callee.old ≡ C.identity p2a.now }
    requires owes { Owes (C.callee_view callee.old) }
    ensures identity { C.callee_identity callee.new ≡ C.callee_identity callee.old }
    ensures answered { C.callee_view callee.new ≡
        record (C.callee_view callee.old)
        { answered = (C.callee_view callee.old).answered ++ Released ∷ [] } }
{
    p2a.answer(callee, &Answer::Released);
}
