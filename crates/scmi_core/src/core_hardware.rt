//! A platform that keeps its history, beside the hardware that it switches.
ghost use Rattle.std.specs.Prelude.{◌≡◌, ◌⊎◌, ◌≢◌, ◌<◌, ◌++◌, ◌∷◌, [], ◌↔◌, List, length, true, false, None, Some, Ok, IfOk, OnErr, IfErr, Err};
ghost use Rattle.scmi_codec.specs.declared.frame.Answer.TheVariants.{Reply};
ghost use Rattle.scmi_plan.specs.Agent.{IsAgent, IsNoAgent};
ghost use Rattle.scmi_core.specs.Asked.{Asked, IsAsked};
ghost use Rattle.scmi_core.specs.Driven.{ExecutesOn, HappensOn, HasMade, IsEnd, IsExecuted};
ghost use Rattle.scmi_core.specs.Effect.{effect_after};
ghost use Rattle.scmi_core.specs.History.{IsIdle, answer_to, answer_with};
ghost use Rattle.scmi_core.specs.Legal.{IsLegal};
ghost use Rattle.scmi_core.specs.Reply.{failed_answer};
ghost use Rattle.scmi_core.specs.declared.event.Event.TheVariants.{Command as Called, Advance, CommandFailed};

use crate::answered::Answered;
use crate::core_error::CoreError;
use crate::hardware::{Hardware, make};
use crate::platform_core::Core;
use crate::platform_effects::set_failed_reply;
use scmi_codec::{Fault, Frame, Message};
use scmi_plan::Effect;

impl Core {
    /// As `command_into`, beside the hardware: what the command changes of it is made first, and if
    /// the hardware refuses that, the command has failed, and its reply is the status of the fault.
    /// The hardware is not asked if the call is refused.
    pub fn command_on<H: Hardware>(
        &mut self,
        hardware: &mut H,
        agent: u32,
        frame: &Frame,
        reply: &mut Message,
    ) -> Result<Answered, CoreError>
        ensures executes { IfOk result (λ x.
            ExecutesOn self.old.board agent frame.now (answer_with x reply.new)
            self.old.history (H.asked hardware.old) self.new.history (H.asked hardware.new)) }
        ensures obeyed { H.REFUSES ≡ false → IfOk result (λ x.
            IsExecuted self.old.board agent frame.now (answer_with x reply.new)
            self.old.history self.new.history) }
        ensures made { (before : List Asked)
            → HasMade before self.old.board self.old.history (H.asked hardware.old)
            → HasMade before self.new.board self.new.history (H.asked hardware.new) }
        ensures unwritten { result ≡ Ok Answered.ChannelError → reply.new ≡ reply.old }
        ensures board { self.new.board ≡ self.old.board }
        ensures legal { IsLegal self.new.board self.new.history }
        ensures no_agent { (result ≡ Err CoreError.NoAgent)
            ↔ IsNoAgent (length self.old.board.agents) agent }
        ensures memory { 0 < self.old.room → result ≢ Err CoreError.Memory }
        ensures not_nothing { result ≢ Err CoreError.Nothing }
        ensures errors { IfErr result (λ e.
            (e ≡ CoreError.NoAgent) ⊎ (e ≡ CoreError.Memory)) }
        ensures err { OnErr result (self.new ≡ self.old) }
        ensures kept { OnErr result (reply.new ≡ reply.old) }
        ensures unasked { OnErr result
            (IsAsked (H.asked hardware.old) None (H.asked hardware.new)) }
    {
        self.platform.check_agent(agent)?;
        self.trace.reserve()?;
        Ok(self.execute_on(hardware, agent, frame, reply))
    }

    /// As `command_on`, for an agent of the board and with room in the trace, which `reserve`
    /// makes; so it is never refused.
    pub fn execute_on<H: Hardware>(
        &mut self,
        hardware: &mut H,
        agent: u32,
        frame: &Frame,
        reply: &mut Message,
    ) -> Answered
        requires agent { IsAgent (length self.old.board.agents) agent }
        requires room { 0 < self.old.room }
        ensures executes { ExecutesOn self.old.board agent frame.now (answer_with result reply.new)
            self.old.history (H.asked hardware.old) self.new.history (H.asked hardware.new) }
        ensures obeyed { H.REFUSES ≡ false
            → IsExecuted self.old.board agent frame.now (answer_with result reply.new)
            self.old.history self.new.history }
        ensures made { (before : List Asked)
            → HasMade before self.old.board self.old.history (H.asked hardware.old)
            → HasMade before self.new.board self.new.history (H.asked hardware.new) }
        ensures unwritten { result ≡ Answered.ChannelError → reply.new ≡ reply.old }
        ensures board { self.new.board ≡ self.old.board }
        ensures legal { IsLegal self.new.board self.new.history }
    {
        let Some(effect) = self.platform.effect_in(agent, frame) else {
            return self.execute(agent, frame, reply);
        };
        match make(hardware, Some(effect)) {
            Ok(()) => self.commit(agent, frame, effect, reply),
            Err(fault) => {
                self.fail_command(agent, frame, fault, reply);
                Answered::Reply
            }
        }
    }

    /// As `advance`, beside the hardware: what the completion changes of it is made first, and if
    /// the hardware refuses that, the set ends as failed. The hardware is not asked if the call is
    /// refused.
    pub fn advance_on<H: Hardware>(&mut self, hardware: &mut H) -> Result<bool, CoreError>
        ensures waiting { IfOk result (λ did.
            (did ≡ false) ↔ IsIdle self.old.board self.old.history) }
        ensures happens { IfOk result (λ did.
            did ≡ true → HappensOn self.old.board IsEnd
            self.old.history (H.asked hardware.old) self.new.history (H.asked hardware.new)) }
        ensures obeyed { H.REFUSES ≡ false → IfOk result (λ did.
            did ≡ true → self.new.history ≡ self.old.history ++ Advance ∷ []) }
        ensures made { (before : List Asked)
            → HasMade before self.old.board self.old.history (H.asked hardware.old)
            → HasMade before self.new.board self.new.history (H.asked hardware.new) }
        ensures same { IfOk result (λ did. did ≡ false → self.new ≡ self.old) }
        ensures board { self.new.board ≡ self.old.board }
        ensures legal { IsLegal self.new.board self.new.history }
        ensures memory { IfErr result (λ e.
            (e ≡ CoreError.Memory) × (self.old.room ≡ 0)
            × ¬ (IsIdle self.old.board self.old.history)) }
        ensures err { OnErr result (self.new ≡ self.old) }
        ensures unasked { OnErr result
            (IsAsked (H.asked hardware.old) None (H.asked hardware.new)) }
    {
        if self.platform.is_idle() {
            return Ok(false);
        }
        self.trace.reserve()?;
        self.end_on(hardware);
        Ok(true)
    }

    /// As `advance_on`, with a pending set and room in the trace.
    fn end_on<H: Hardware>(&mut self, hardware: &mut H)
        requires waiting { ¬ (IsIdle self.old.board self.old.history) }
        requires room { 0 < self.old.room }
        ensures happens { HappensOn self.old.board IsEnd
            self.old.history (H.asked hardware.old) self.new.history (H.asked hardware.new) }
        ensures obeyed { H.REFUSES ≡ false
            → self.new.history ≡ self.old.history ++ Advance ∷ [] }
        ensures board { self.new.board ≡ self.old.board }
        ensures legal { IsLegal self.new.board self.new.history }
    {
        let effect = self.platform.effect_of_advance();
        match make(hardware, effect) {
            Ok(()) => {
                self.platform.complete();
                self.trace.push_advance();
            }
            Err(fault) => {
                self.platform.fail(fault);
                self.trace.push_advance_failed(fault);
            }
        }
    }

    /// As `execute`, for a command whose effect the hardware made; nothing is decided again.
    #[inline(always)]
    fn commit(&mut self, agent: u32, frame: &Frame, effect: Effect, reply: &mut Message) -> Answered
        requires agent { IsAgent (length self.old.board.agents) agent }
        requires room { 0 < self.old.room }
        requires effect { effect_after self.old.board self.old.history (Called agent frame.now)
            ≡ Some effect }
        ensures answer { answer_with result reply.new
            ≡ answer_to self.old.board agent frame.now self.old.history }
        ensures unwritten { result ≡ Answered.ChannelError → reply.new ≡ reply.old }
        ensures event { self.new.history ≡ self.old.history ++ Called agent frame.now ∷ [] }
        ensures board { self.new.board ≡ self.old.board }
        ensures legal { IsLegal self.new.board self.new.history }
    {
        let answered = self.platform.commit(agent, frame, effect, reply);
        self.trace.push_command(agent, frame);
        answered
    }

    /// Answers a command of an agent of the board, whose change the hardware refused with a fault.
    fn fail_command(&mut self, agent: u32, frame: &Frame, fault: Fault, reply: &mut Message)
        requires agent { IsAgent (length self.old.board.agents) agent }
        requires room { 0 < self.old.room }
        requires effect { effect_after self.old.board self.old.history (Called agent frame.now)
            ≢ None }
        ensures answer { Reply reply.new ≡ failed_answer frame.now fault }
        ensures event { self.new.history
            ≡ self.old.history ++ CommandFailed agent frame.now fault ∷ [] }
        ensures board { self.new.board ≡ self.old.board }
        ensures legal { IsLegal self.new.board self.new.history }
    {
        if let Some(message) = self.platform.changing(agent, frame) {
            set_failed_reply(message, fault, reply);
            self.trace.push_command_failed(agent, message, fault);
        }
    }
}
