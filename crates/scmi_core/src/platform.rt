//! The platform without its history.
ghost use Rattle.std.specs.Prelude.{◌≡◌, ◌⊎◌, ◌≢◌, ◌≤◌, ◌<◌, [], ◌↔◌, List, length, true, false, slice_get, IfOk, OnOk, OnErr, IfErr, Ok, Err};
ghost use Rattle.scmi_plan.specs.Plan.{IsValid};
ghost use Rattle.std.specs.Option.{option_copied};
ghost use Rattle.scmi_plan.specs.Agent.{IsAgent, IsNoAgent};
ghost use Rattle.scmi_plan.specs.declared.limits.TheConstants.{AGENTS};
ghost use Rattle.scmi_core.specs.History.{HasNothingFor, IsIdle, answer_to, answer_with, outbox};
ghost use Rattle.scmi_core.specs.Tables.{outbox_at};
ghost use Rattle.scmi_core.specs.Standing.{MovesOn, StandsAfter};
ghost use Rattle.scmi_core.specs.declared.event.Event.{Event};
ghost use Rattle.scmi_core.specs.declared.event.Event.TheVariants.{Command as Called, Advance, Sent};

use crate::answered::Answered;
use crate::core_error::CoreError;
use crate::slot::Slot;
use crate::tables::Tables;
use scmi_codec::{Frame, Message};
use scmi_plan::Plan;
use std::marker::Model;

/// A platform controller that keeps no history: what SCMI (DEN0056B) and this profile require of a
/// board. It takes no memory, however long it runs. Contracts see the board and the platform's
/// state, and give for every history that may lead to this state what the answer is and which
/// history follows.
#[derive(Drop, Debug)]
pub struct Platform {
    pub(crate) plan: Plan,
    pub(crate) tables: Tables,
}

impl Model for Platform {
    ghost use Rattle.scmi_core.specs.Standing.{Standing, HasHistory};

    ghost Value = { Standing };

    ghost view = { λ p. record { board = p.plan; tables = p.tables } };

    ghost invariant = { λ p. HasHistory (record { board = p.plan; tables = p.tables }) };
}

impl Platform {
    /// The platform of a board, at the start.
    pub fn new(plan: Plan) -> Platform
        ensures board { result.board ≡ plan }
        ensures start { StandsAfter result [] }
    {
        let tables = Tables::new(&plan);
        Platform { plan, tables }
    }

    /// Becomes the same as another platform of this board. It takes no memory.
    pub fn copy_from(&mut self, other: &Platform)
        requires { self.now.board ≡ other.now.board }
        ensures { self.new ≡ other.now }
    {
        self.tables.copy_from(&other.tables);
    }

    /// Whether another platform of this board is the same: the same values, permissions, requests
    /// and pending sets, and the same messages for each agent.
    pub fn is_same(&self, other: &Platform) -> bool
        requires { self.now.board ≡ other.now.board }
        ensures { (result ≡ true) ↔ (self.now ≡ other.now) }
    {
        self.tables.is_same(&other.tables)
    }

    /// The number of agents, 1 to 8. They are numbered from 1.
    pub fn agents(&self) -> u32
        ensures count { result ≡ length self.now.board.agents }
        ensures some { 1 ≤ result }
        ensures few { result ≤ AGENTS }
        ensures valid { IsValid self.now.board }
    {
        self.plan.agents()
    }

    /// Executes what an agent posted, and writes the reply into `reply`; `ChannelError` for a
    /// malformed frame, and then no reply is written. `NoAgent` if the board lacks the agent, the
    /// only refusal; then nothing changed.
    pub fn command(
        &mut self,
        agent: u32,
        frame: &Frame,
        reply: &mut Message,
    ) -> Result<Answered, CoreError>
        ensures answer { (h : List Event) → StandsAfter self.old h
            → IfOk result (λ x.
            answer_with x reply.new ≡ answer_to self.old.board agent frame.now h) }
        ensures unwritten { result ≡ Ok Answered.ChannelError → reply.new ≡ reply.old }
        ensures event { OnOk result (MovesOn self.old (Called agent frame.now) self.new) }
        ensures board { self.new.board ≡ self.old.board }
        ensures no_agent { (result ≡ Err CoreError.NoAgent)
            ↔ IsNoAgent (length self.old.board.agents) agent }
        ensures errors { IfErr result (λ e. e ≡ CoreError.NoAgent) }
        ensures err { OnErr result (self.new ≡ self.old) }
        ensures kept { OnErr result (reply.new ≡ reply.old) }
    {
        self.check_agent(agent)?;
        Ok(self.execute(agent, frame, reply))
    }

    /// Completes the first pending set; `false` if nothing is pending, and then nothing changed.
    pub fn advance(&mut self) -> bool
        ensures waiting { (h : List Event) → StandsAfter self.old h
            → (result ≡ false) ↔ IsIdle self.old.board h }
        ensures event { result ≡ true → MovesOn self.old Advance self.new }
        ensures same { result ≡ false → self.new ≡ self.old }
        ensures board { self.new.board ≡ self.old.board }
    {
        if self.is_idle() {
            return false;
        }
        self.complete();
        true
    }

    /// The first message of an agent's outbox, which is the next to be posted to it; `None` if the
    /// outbox is empty. `NoAgent` if the board lacks the agent.
    pub fn front(&self, agent: u32) -> Result<Option<Message>, CoreError>
        ensures first { (h : List Event) → StandsAfter self.now h
            → IfOk result (λ message. message ≡ slice_get (outbox self.now.board agent h) 0) }
        ensures no_agent { (result ≡ Err CoreError.NoAgent)
            ↔ IsNoAgent (length self.now.board.agents) agent }
        ensures errors { IfErr result (λ e. e ≡ CoreError.NoAgent) }
    {
        self.check_agent(agent)?;
        let Some(slot) = self.first(agent) else {
            return Ok(None);
        };
        let mut message = Message::default();
        slot.copy_to(&mut message);
        Ok(Some(message))
    }

    /// As `front`, for an agent of the board, and without a copy.
    pub fn first(&self, agent: u32) -> Option<&Slot>
        requires { IsAgent (length self.now.board.agents) agent }
        ensures { (h : List Event) → StandsAfter self.now h
            → option_copied result ≡ slice_get (outbox self.now.board agent h) 0 }
    {
        let _agents = self.plan.agents();
        self.tables.outboxes.first(agent)
    }

    /// Takes the first message off an agent's outbox, as posted. `NoAgent` if the board lacks the
    /// agent, and `Nothing` if its outbox is empty; then nothing changed.
    pub fn sent(&mut self, agent: u32) -> Result<(), CoreError>
        ensures event { OnOk result (MovesOn self.old (Sent agent) self.new) }
        ensures board { self.new.board ≡ self.old.board }
        ensures no_agent { (result ≡ Err CoreError.NoAgent)
            ↔ IsNoAgent (length self.old.board.agents) agent }
        ensures nothing { (h : List Event) → StandsAfter self.old h
            → (result ≡ Err CoreError.Nothing) ↔ HasNothingFor self.old.board agent h }
        ensures memory { result ≢ Err CoreError.Memory }
        ensures errors { IfErr result (λ e.
            (e ≡ CoreError.NoAgent) ⊎ (e ≡ CoreError.Nothing)) }
        ensures err { OnErr result (self.new ≡ self.old) }
    {
        self.check_agent(agent)?;
        if self.is_empty(agent) {
            return Err(CoreError::Nothing);
        }
        self.take(agent);
        Ok(())
    }

    /// Whether an agent's outbox is empty.
    pub(crate) fn is_empty(&self, agent: u32) -> bool
        requires agent { IsAgent (length self.now.board.agents) agent }
        ensures empty { (result ≡ true) ↔ (outbox_at self.now.tables agent ≡ []) }
        ensures some { result ≡ false → 0 < length (outbox_at self.now.tables agent) }
    {
        let _agents = self.plan.agents();
        self.tables.outboxes.is_empty(agent)
    }

    /// Takes the first message off an agent's outbox.
    pub(crate) fn take(&mut self, agent: u32)
        requires agent { IsAgent (length self.now.board.agents) agent }
        requires some { 0 < length (outbox_at self.now.tables agent) }
        ensures valid { IsValid self.old.board }
        ensures event { MovesOn self.old (Sent agent) self.new }
        ensures board { self.new.board ≡ self.old.board }
    {
        let _agents = self.plan.agents();
        self.tables.outboxes.take(agent);
    }

    /// Executes a frame of an agent of the board.
    pub(crate) fn execute(&mut self, agent: u32, frame: &Frame, reply: &mut Message) -> Answered
        requires agent { IsAgent (length self.now.board.agents) agent }
        ensures valid { IsValid self.old.board }
        ensures answer { (h : List Event) → StandsAfter self.old h
            → answer_with result reply.new ≡ answer_to self.old.board agent frame.now h }
        ensures unwritten { result ≡ Answered.ChannelError → reply.new ≡ reply.old }
        ensures event { MovesOn self.old (Called agent frame.now) self.new }
        ensures board { self.new.board ≡ self.old.board }
    {
        let _agents = self.plan.agents();
        self.tables.answer(&self.plan, agent, frame, reply)
    }

    /// Whether no set is pending.
    pub(crate) fn is_idle(&self) -> bool
        ensures idle { (result ≡ true) ↔ (self.now.tables.pending ≡ []) }
        ensures waiting { result ≡ false → 0 < length self.now.tables.pending }
    {
        self.tables.pending.is_empty()
    }

    /// Completes the first of the sets that are pending.
    pub(crate) fn complete(&mut self)
        requires waiting { 0 < length self.now.tables.pending }
        ensures event { MovesOn self.old Advance self.new }
        ensures board { self.new.board ≡ self.old.board }
    {
        self.tables.complete(&self.plan);
    }

    /// Refuses a number that is no agent's.
    pub(crate) fn check_agent(&self, agent: u32) -> Result<(), CoreError>
        ensures ok { OnOk result (IsAgent (length self.now.board.agents) agent) }
        ensures no_agent { OnErr result (IsNoAgent (length self.now.board.agents) agent) }
        ensures errors { IfErr result (λ e. e ≡ CoreError.NoAgent) }
        ensures valid { IsValid self.now.board }
    {
        if (1..=self.plan.agents()).contains(&agent) {
            Ok(())
        } else {
            Err(CoreError::NoAgent)
        }
    }
}
