//! Changes of hardware, of a platform that keeps its history.
ghost use Rattle.std.specs.Prelude.{◌≡◌, ◌⊎◌, ◌≢◌, ◌≤◌, ◌<◌, ◌+◌, ◌++◌, ◌∷◌, [], ◌↔◌, length, true, false, None, IfOk, OnOk, OnErr, IfErr, Err};
ghost use Rattle.scmi_codec.specs.declared.frame.Answer.TheVariants.{Reply};
ghost use Rattle.scmi_plan.specs.Agent.{IsAgent, IsNoAgent};
ghost use Rattle.scmi_core.specs.Effect.{effect_after};
ghost use Rattle.scmi_core.specs.History.{IsIdle};
ghost use Rattle.scmi_core.specs.Legal.{IsLegal};
ghost use Rattle.scmi_core.specs.Reply.{failed_answer};
ghost use Rattle.scmi_core.specs.declared.event.Event.TheVariants.{Command as Called, Advance, CommandFailed, AdvanceFailed};

use crate::core_error::CoreError;
use crate::platform_core::Core;
use crate::platform_effects::set_failed_reply;
use scmi_codec::{Fault, Frame, Message};
use scmi_plan::Effect;

impl Core {
    /// What an agent's command is to change of the hardware, before it is executed; `None` if it
    /// changes nothing of it. `NoAgent` if the board lacks the agent.
    pub fn effect_of(&self, agent: u32, frame: &Frame) -> Result<Option<Effect>, CoreError>
        ensures effect { IfOk result (λ effect.
            effect ≡ effect_after self.now.board self.now.history (Called agent frame.now)) }
        ensures no_agent { (result ≡ Err CoreError.NoAgent)
            ↔ IsNoAgent (length self.now.board.agents) agent }
        ensures errors { IfErr result (λ e. e ≡ CoreError.NoAgent) }
    {
        self.platform.effect_of(agent, frame)
    }

    /// What the completion of the first pending set is to change of the hardware, before it
    /// completes; `None` if nothing is pending.
    pub fn effect_of_advance(&self) -> Option<Effect>
        ensures { result ≡ effect_after self.now.board self.now.history Advance }
    {
        self.platform.effect_of_advance()
    }

    /// Answers a command whose change the hardware refused with the status of this fault, and adds
    /// that to the history; nothing else changed. `NoAgent` if the board lacks the agent, `Nothing`
    /// if the command changes nothing of the hardware, and `Memory` if the trace could not grow;
    /// then nothing changed.
    pub fn command_failed(
        &mut self,
        agent: u32,
        frame: &Frame,
        fault: Fault,
        reply: &mut Message,
    ) -> Result<(), CoreError>
        ensures answer { OnOk result (Reply reply.new ≡ failed_answer frame.now fault) }
        ensures event { OnOk result
            (self.new.history ≡ self.old.history ++ CommandFailed agent frame.now fault ∷ []) }
        ensures board { self.new.board ≡ self.old.board }
        ensures legal { IsLegal self.new.board self.new.history }
        ensures no_agent { (result ≡ Err CoreError.NoAgent)
            ↔ IsNoAgent (length self.old.board.agents) agent }
        ensures nothing { (result ≡ Err CoreError.Nothing)
            ↔ (IsAgent (length self.old.board.agents) agent
            × (effect_after self.old.board self.old.history (Called agent frame.now) ≡ None)) }
        ensures memory { 0 < self.old.room → result ≢ Err CoreError.Memory }
        ensures errors { IfErr result (λ e. (e ≡ CoreError.NoAgent)
            ⊎ (e ≡ CoreError.Nothing) ⊎ (e ≡ CoreError.Memory)) }
        ensures err { OnErr result (self.new ≡ self.old) }
        ensures kept { OnErr result (reply.new ≡ reply.old) }
    {
        self.platform.check_agent(agent)?;
        let Some(message) = self.platform.changing(agent, frame) else {
            return Err(CoreError::Nothing);
        };
        self.trace.reserve()?;
        set_failed_reply(message, fault, reply);
        self.trace.push_command_failed(agent, message, fault);
        Ok(())
    }

    /// Takes the first pending set off, whose change the hardware refused with this fault, and adds
    /// that to the history: a delayed response of its status if one is wanted, no notification, and
    /// no value changed. `Ok(false)` if nothing is pending, and then nothing changed. `Memory` if a
    /// set is pending and the trace could not grow, the only refusal; then nothing changed either.
    pub fn advance_failed(&mut self, fault: Fault) -> Result<bool, CoreError>
        ensures waiting { IfOk result (λ did.
            (did ≡ false) ↔ IsIdle self.old.board self.old.history) }
        ensures event { IfOk result (λ did.
            did ≡ true → self.new.history ≡ self.old.history ++ AdvanceFailed fault ∷ []) }
        ensures same { IfOk result (λ did. did ≡ false → self.new ≡ self.old) }
        ensures board { self.new.board ≡ self.old.board }
        ensures legal { IsLegal self.new.board self.new.history }
        ensures memory { IfErr result (λ e.
            (e ≡ CoreError.Memory) × (self.old.room ≡ 0)
            × ¬ (IsIdle self.old.board self.old.history)) }
        ensures room { OnOk result (self.old.room ≤ self.new.room + 1) }
        ensures err { OnErr result (self.new ≡ self.old) }
    {
        if self.platform.is_idle() {
            return Ok(false);
        }
        self.trace.reserve()?;
        self.platform.fail(fault);
        self.trace.push_advance_failed(fault);
        Ok(true)
    }
}
