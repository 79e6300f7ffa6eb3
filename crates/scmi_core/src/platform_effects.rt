//! Changes of hardware: what they are to be, and what is left if the hardware refuses them.
ghost use Rattle.std.specs.Prelude.{◌≡◌, ◌⊎◌, ◌≢◌, ◌<◌, ◌↔◌, List, length, true, false, None, IfOk, IfSome, OnOk, OnErr, IfErr, Err};
ghost use Rattle.scmi_codec.specs.declared.frame.Frame.TheVariants.{Good};
ghost use Rattle.scmi_codec.specs.declared.frame.Answer.TheVariants.{Reply};
ghost use Rattle.scmi_plan.specs.Plan.{IsValid};
ghost use Rattle.scmi_plan.specs.Agent.{IsAgent, IsNoAgent};
ghost use Rattle.scmi_core.specs.Effect.{effect_after};
ghost use Rattle.scmi_core.specs.History.{IsIdle};
ghost use Rattle.scmi_core.specs.Outbox.{failed_words, message_with};
ghost use Rattle.scmi_core.specs.Reply.{failed_answer};
ghost use Rattle.scmi_core.specs.Standing.{HasHistory, MovesOn, StandsAfter};
ghost use Rattle.scmi_core.specs.declared.event.Event.{Event};
ghost use Rattle.scmi_codec.specs.declared.fault.Fault.{Fault};
ghost use Rattle.scmi_core.specs.declared.event.Event.TheVariants.{Command as Called, Advance, CommandFailed, AdvanceFailed};

use crate::core_error::CoreError;
use crate::platform::Platform;
use scmi_codec::{Fault, Frame, Message, set_refusal};
use scmi_plan::Effect;

impl Platform {
    /// What an agent's command is to change of the hardware, before it is executed; `None` if it
    /// changes nothing of it. `NoAgent` if the board lacks the agent.
    pub fn effect_of(&self, agent: u32, frame: &Frame) -> Result<Option<Effect>, CoreError>
        ensures effect { (h : List Event) → StandsAfter self.now h
            → IfOk result (λ effect.
            effect ≡ effect_after self.now.board h (Called agent frame.now)) }
        ensures no_agent { (result ≡ Err CoreError.NoAgent)
            ↔ IsNoAgent (length self.now.board.agents) agent }
        ensures errors { IfErr result (λ e. e ≡ CoreError.NoAgent) }
    {
        self.check_agent(agent)?;
        Ok(self.effect_in(agent, frame))
    }

    /// What the completion of the first pending set is to change of the hardware, before it
    /// completes; `None` if nothing is pending.
    pub fn effect_of_advance(&self) -> Option<Effect>
        ensures { (h : List Event) → StandsAfter self.now h
            → result ≡ effect_after self.now.board h Advance }
    {
        match self.tables.pending.first() {
            Some(set) => Some(set.effect()),
            None => None,
        }
    }

    /// Answers a command whose change the hardware refused with this fault: its status, and nothing
    /// changed.
    /// `NoAgent` if the board lacks the agent, and `Nothing` if the command changes nothing of the
    /// hardware; then no event happened, and no reply was written.
    pub fn command_failed(
        &self,
        agent: u32,
        frame: &Frame,
        fault: Fault,
        reply: &mut Message,
    ) -> Result<(), CoreError>
        ensures answer { OnOk result (Reply reply.new ≡ failed_answer frame.now fault) }
        ensures event { OnOk result
            (MovesOn self.now (CommandFailed agent frame.now fault) self.now) }
        ensures no_agent { (result ≡ Err CoreError.NoAgent)
            ↔ IsNoAgent (length self.now.board.agents) agent }
        ensures nothing { (h : List Event) → StandsAfter self.now h
            → (result ≡ Err CoreError.Nothing)
            ↔ (IsAgent (length self.now.board.agents) agent
            × (effect_after self.now.board h (Called agent frame.now) ≡ None)) }
        ensures memory { result ≢ Err CoreError.Memory }
        ensures errors { IfErr result (λ e.
            (e ≡ CoreError.NoAgent) ⊎ (e ≡ CoreError.Nothing)) }
        ensures kept { OnErr result (reply.new ≡ reply.old) }
    {
        self.check_agent(agent)?;
        let Some(message) = self.changing(agent, frame) else {
            return Err(CoreError::Nothing);
        };
        set_failed_reply(message, fault, reply);
        Ok(())
    }

    /// Takes the first pending set off, whose change the hardware refused with this fault: a
    /// delayed response of its status if one is wanted, no notification, and no value changed.
    /// `false` if nothing is pending, and then nothing changed.
    pub fn advance_failed(&mut self, fault: Fault) -> bool
        ensures waiting { (h : List Event) → StandsAfter self.old h
            → (result ≡ false) ↔ IsIdle self.old.board h }
        ensures event { result ≡ true → MovesOn self.old (AdvanceFailed fault) self.new }
        ensures same { result ≡ false → self.new ≡ self.old }
        ensures board { self.new.board ≡ self.old.board }
    {
        if self.is_idle() {
            return false;
        }
        self.fail(fault);
        true
    }

    /// What the command of an agent of the board is to change of the hardware.
    #[inline(always)]
    pub(crate) fn effect_in(&self, agent: u32, frame: &Frame) -> Option<Effect>
        requires agent { IsAgent (length self.now.board.agents) agent }
        ensures valid { IsValid self.now.board }
        ensures history { HasHistory self.now }
        ensures effect { (h : List Event) → StandsAfter self.now h
            → result ≡ effect_after self.now.board h (Called agent frame.now) }
    {
        let _agents = self.plan.agents();
        self.tables.effect_of(&self.plan, agent, frame)
    }

    /// The message of a frame of an agent of the board, if it is to change the hardware.
    pub(crate) fn changing<'a>(&self, agent: u32, frame: &'a Frame) -> Option<&'a Message>
        requires agent { IsAgent (length self.now.board.agents) agent }
        ensures none { (h : List Event) → StandsAfter self.now h
            → (result ≡ None) ↔ (effect_after self.now.board h (Called agent frame.now) ≡ None) }
        ensures message { IfSome result (λ message. frame.now ≡ Good message.now) }
        ensures event { (fault : Fault) → result ≢ None
            → MovesOn self.now (CommandFailed agent frame.now fault) self.now }
        ensures valid { IsValid self.now.board }
    {
        let effect = self.effect_in(agent, frame);
        match frame {
            Frame::Good(message) if effect.is_some() => Some(message),
            _ => None,
        }
    }

    /// Takes the first of the sets that are pending off, as failed with this fault.
    pub(crate) fn fail(&mut self, fault: Fault)
        requires waiting { 0 < length self.now.tables.pending }
        ensures event { MovesOn self.old (AdvanceFailed fault) self.new }
        ensures board { self.new.board ≡ self.old.board }
    {
        self.tables.fail(&self.plan, fault);
    }
}

/// Makes a reply, in place, into that to a message whose change the hardware refused with a fault.
pub(crate) fn set_failed_reply(message: &Message, fault: Fault, reply: &mut Message)
    ensures { reply.new ≡ message_with message.now.header (failed_words fault) }
{
    reply.header = message.header;
    set_refusal(&mut reply.payload, fault.status());
}
