//! The platform controller.
ghost use Rattle.std.specs.Prelude.{◌≡◌, ◌⊎◌, ◌≢◌, ◌≤◌, ◌<◌, ◌++◌, ◌∷◌, [], ◌↔◌, length, true, false, slice_get, IsOk, IfOk, OnOk, OnErr, IfErr, Ok, Err};
ghost use Rattle.std.specs.Option.{option_copied};
ghost use Rattle.scmi_plan.specs.Agent.{IsAgent, IsNoAgent};
ghost use Rattle.scmi_plan.specs.declared.limits.TheConstants.{AGENTS};
ghost use Rattle.scmi_core.specs.Bounds.{HasBounds, HasResponses};
ghost use Rattle.scmi_core.specs.Channels.{KeepsChannels};
ghost use Rattle.scmi_core.specs.History.{HasNothingFor, IsIdle, answer_to, answer_with, deeds, outbox};
ghost use Rattle.scmi_core.specs.Legal.{IsLegal};
ghost use Rattle.scmi_core.specs.declared.event.Event.TheVariants.{Command as Called, Advance, Sent};

use crate::answered::Answered;
use crate::core_error::CoreError;
use crate::platform::Platform;
use crate::slot::Slot;
use crate::trace::Trace;
use scmi_codec::{Answer, Frame, Message};
use scmi_plan::Plan;
use std::alloc::Global;
use std::marker::Model;

/// A platform controller: what SCMI (DEN0056B) and this profile require of a board, kept in step
/// with one history of events. Contracts see the board, the history, and for how many more events
/// the trace has memory.
#[derive(Drop, Debug)]
pub struct Core {
    pub(crate) platform: Platform,
    pub(crate) trace: Trace,
}

impl Model for Core {
    ghost use Rattle.scmi_core.specs.Platform.{Platform};
    ghost use Rattle.scmi_core.specs.Standing.{StandsAfter};

    ghost Value = { Platform };

    ghost view = { λ c.
        record { board = c.platform.board; history = c.trace.events; room = c.trace.room } };

    ghost invariant = { λ c. StandsAfter c.platform c.trace.events };
}

impl Core {
    /// A controller of a board, with the empty history. It takes no memory.
    pub fn new(alloc: Global, plan: Plan) -> Core
        ensures board { result.board ≡ plan }
        ensures history { result.history ≡ [] }
    {
        Core {
            platform: Platform::new(plan),
            trace: Trace::new(alloc),
        }
    }

    /// The number of agents, 1 to 8. They are numbered from 1.
    pub fn agents(&self) -> u32
        ensures count { result ≡ length self.now.board.agents }
        ensures some { 1 ≤ result }
        ensures few { result ≤ AGENTS }
    {
        self.platform.agents()
    }

    /// Makes room in the trace for one event, so that the next `command`, `advance` or `sent` is
    /// not refused as `Memory`. If there is none, the room doubles; `Memory` is the only refusal.
    pub fn reserve(&mut self) -> Result<(), CoreError>
        ensures ok { OnOk result (0 < self.new.room) }
        ensures history { self.new.history ≡ self.old.history }
        ensures board { self.new.board ≡ self.old.board }
        ensures succeeds { 0 < self.old.room → IsOk result }
        ensures err { OnErr result (self.new ≡ self.old) }
        ensures errors { IfErr result (λ e. e ≡ CoreError.Memory) }
    {
        self.trace.reserve()?;
        Ok(())
    }

    /// Executes what an agent posted, adds that to the history, and gives the answer: the reply of
    /// the protocol for a message, `ChannelError` for a malformed frame. `NoAgent` if the board
    /// lacks the agent, and `Memory` if the trace could not grow; then nothing changed.
    pub fn command(&mut self, agent: u32, frame: &Frame) -> Result<Answer, CoreError>
        ensures answer { IfOk result (λ x.
            x ≡ answer_to self.old.board agent frame.now self.old.history) }
        ensures event { OnOk result
            (self.new.history ≡ self.old.history ++ Called agent frame.now ∷ []) }
        ensures board { self.new.board ≡ self.old.board }
        ensures legal { IsLegal self.new.board self.new.history }
        ensures no_agent { (result ≡ Err CoreError.NoAgent)
            ↔ IsNoAgent (length self.old.board.agents) agent }
        ensures memory { 0 < self.old.room → result ≢ Err CoreError.Memory }
        ensures not_nothing { result ≢ Err CoreError.Nothing }
        ensures errors { IfErr result (λ e.
            (e ≡ CoreError.NoAgent) ⊎ (e ≡ CoreError.Memory)) }
        ensures err { OnErr result (self.new ≡ self.old) }
    {
        let mut reply = Message::default();
        match self.command_into(agent, frame, &mut reply)? {
            Answered::Reply => Ok(Answer::Reply(reply)),
            Answered::ChannelError => Ok(Answer::ChannelError),
        }
    }

    /// As `command`, with the reply written into `reply`. It is written only if a message was
    /// executed: beside a channel error, and an error, it is as it was.
    pub fn command_into(
        &mut self,
        agent: u32,
        frame: &Frame,
        reply: &mut Message,
    ) -> Result<Answered, CoreError>
        ensures answer { IfOk result (λ x.
            answer_with x reply.new ≡ answer_to self.old.board agent frame.now self.old.history) }
        ensures unwritten { result ≡ Ok Answered.ChannelError → reply.new ≡ reply.old }
        ensures event { OnOk result
            (self.new.history ≡ self.old.history ++ Called agent frame.now ∷ []) }
        ensures board { self.new.board ≡ self.old.board }
        ensures legal { IsLegal self.new.board self.new.history }
        ensures no_agent { (result ≡ Err CoreError.NoAgent)
            ↔ IsNoAgent (length self.old.board.agents) agent }
        ensures memory { 0 < self.old.room → result ≢ Err CoreError.Memory }
        ensures not_nothing { result ≢ Err CoreError.Nothing }
        ensures errors { IfErr result (λ e.
            (e ≡ CoreError.NoAgent) ⊎ (e ≡ CoreError.Memory)) }
        ensures err { OnErr result (self.new ≡ self.old) }
        ensures kept { OnErr result (reply.new ≡ reply.old) }
    {
        self.platform.check_agent(agent)?;
        self.trace.reserve()?;
        Ok(self.execute(agent, frame, reply))
    }

    /// As `command_into`, for an agent of the board and with room in the trace, which `reserve`
    /// makes; so it is never refused.
    pub fn execute(&mut self, agent: u32, frame: &Frame, reply: &mut Message) -> Answered
        requires agent { IsAgent (length self.old.board.agents) agent }
        requires room { 0 < self.old.room }
        ensures answer { answer_with result reply.new
            ≡ answer_to self.old.board agent frame.now self.old.history }
        ensures unwritten { result ≡ Answered.ChannelError → reply.new ≡ reply.old }
        ensures event { self.new.history ≡ self.old.history ++ Called agent frame.now ∷ [] }
        ensures board { self.new.board ≡ self.old.board }
        ensures legal { IsLegal self.new.board self.new.history }
    {
        let answered = self.platform.execute(agent, frame, reply);
        self.trace.push_command(agent, frame);
        answered
    }

    /// Completes the first pending set and adds that to the history; `Ok(false)` if nothing is
    /// pending, and then nothing changed. `Memory` if a set is pending and the trace could not
    /// grow, the only refusal; then nothing changed either.
    pub fn advance(&mut self) -> Result<bool, CoreError>
        ensures waiting { IfOk result (λ did.
            (did ≡ false) ↔ IsIdle self.old.board self.old.history) }
        ensures event { IfOk result (λ did.
            did ≡ true → self.new.history ≡ self.old.history ++ Advance ∷ []) }
        ensures same { IfOk result (λ did. did ≡ false → self.new ≡ self.old) }
        ensures board { self.new.board ≡ self.old.board }
        ensures legal { IsLegal self.new.board self.new.history }
        ensures memory { IfErr result (λ e.
            (e ≡ CoreError.Memory) × (self.old.room ≡ 0)
            × ¬ (IsIdle self.old.board self.old.history)) }
        ensures err { OnErr result (self.new ≡ self.old) }
    {
        if self.platform.is_idle() {
            return Ok(false);
        }
        self.trace.reserve()?;
        self.platform.complete();
        self.trace.push_advance();
        Ok(true)
    }

    /// The first message of an agent's outbox, which is the next to be posted to it; `None` if the
    /// outbox is empty. `NoAgent` if the board lacks the agent.
    pub fn front(&self, agent: u32) -> Result<Option<Message>, CoreError>
        ensures first { IfOk result (λ message.
            message ≡ slice_get (outbox self.now.board agent self.now.history) 0) }
        ensures no_agent { (result ≡ Err CoreError.NoAgent)
            ↔ IsNoAgent (length self.now.board.agents) agent }
        ensures errors { IfErr result (λ e. e ≡ CoreError.NoAgent) }
    {
        self.platform.front(agent)
    }

    /// As `front`, for an agent of the board, and without a copy; so it is never refused.
    pub fn first(&self, agent: u32) -> Option<&Slot>
        requires { IsAgent (length self.now.board.agents) agent }
        ensures { option_copied result
            ≡ slice_get (outbox self.now.board agent self.now.history) 0 }
    {
        self.platform.first(agent)
    }

    /// Takes the first message off an agent's outbox, as posted, and adds that to the history.
    /// `NoAgent` if the board lacks the agent, `Nothing` if its outbox is empty, and `Memory` if
    /// the trace could not grow; then nothing changed.
    pub fn sent(&mut self, agent: u32) -> Result<(), CoreError>
        ensures event { OnOk result
            (self.new.history ≡ self.old.history ++ Sent agent ∷ []) }
        ensures board { self.new.board ≡ self.old.board }
        ensures legal { IsLegal self.new.board self.new.history }
        ensures no_agent { (result ≡ Err CoreError.NoAgent)
            ↔ IsNoAgent (length self.old.board.agents) agent }
        ensures nothing { (result ≡ Err CoreError.Nothing)
            ↔ HasNothingFor self.old.board agent self.old.history }
        ensures memory { 0 < self.old.room → result ≢ Err CoreError.Memory }
        ensures errors { IfErr result (λ e. (e ≡ CoreError.NoAgent)
            ⊎ (e ≡ CoreError.Nothing) ⊎ (e ≡ CoreError.Memory)) }
        ensures err { OnErr result (self.new ≡ self.old) }
    {
        self.platform.check_agent(agent)?;
        if self.platform.is_empty(agent) {
            return Err(CoreError::Nothing);
        }
        self.trace.reserve()?;
        self.mark_sent(agent);
        Ok(())
    }

    /// As `sent`, for an agent of the board whose outbox has a message, and with room in the trace,
    /// which `reserve` makes; so it is never refused.
    pub fn mark_sent(&mut self, agent: u32)
        requires agent { IsAgent (length self.old.board.agents) agent }
        requires some { 0 < length (outbox self.old.board agent self.old.history) }
        requires room { 0 < self.old.room }
        ensures event { self.new.history ≡ self.old.history ++ Sent agent ∷ [] }
        ensures board { self.new.board ≡ self.old.board }
        ensures legal { IsLegal self.new.board self.new.history }
    {
        self.platform.take(agent);
        self.trace.push_sent(agent);
    }

    /// The events so far. They are a legal history: at most 8 sets are pending in it, each agent's
    /// outbox and pending sets are at most 16, no delayed response is lost unless its agent restarts,
    /// and what an agent got has room in its channels.
    #[tactic(auto, using(crate::proofs::Bounds::bounds, crate::proofs::Responses::responses))]
    pub fn trace(&self) -> &Trace
        ensures events { result.now.events ≡ self.now.history }
        ensures legal { IsLegal self.now.board self.now.history }
        ensures bounds { HasBounds self.now.board (deeds self.now.board self.now.history) }
        ensures responses { HasResponses self.now.board (deeds self.now.board self.now.history) }
        ensures channels { KeepsChannels self.now.board self.now.history }
    {
        let _agents = self.platform.agents();
        &self.trace
    }

    /// The events, once nothing more will happen. It takes no memory. Of them holds what holds of
    /// `trace`.
    #[tactic(auto, using(crate::proofs::Bounds::bounds, crate::proofs::Responses::responses))]
    pub fn into_trace(self) -> Trace
        ensures events { result.events ≡ self.history }
        ensures room { result.room ≡ self.room }
        ensures legal { IsLegal self.board self.history }
        ensures bounds { HasBounds self.board (deeds self.board self.history) }
        ensures responses { HasResponses self.board (deeds self.board self.history) }
        ensures channels { KeepsChannels self.board self.history }
    {
        let _agents = self.platform.agents();
        let Core { trace, .. } = self;
        trace
    }
}
