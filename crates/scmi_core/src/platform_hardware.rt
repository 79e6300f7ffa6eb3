//! A platform beside the hardware that it switches.
ghost use Rattle.std.specs.Prelude.{◌≡◌, ◌≢◌, ◌<◌, ◌↔◌, List, length, true, false, None, Some, Ok, IfOk, OnErr, IfErr, Err};
ghost use Rattle.scmi_codec.specs.declared.frame.Answer.TheVariants.{Reply};
ghost use Rattle.scmi_plan.specs.Agent.{IsAgent, IsNoAgent};
ghost use Rattle.scmi_plan.specs.Plan.{IsValid};
ghost use Rattle.scmi_core.specs.Asked.{IsAsked};
ghost use Rattle.scmi_core.specs.Driven.{ExecutesThere, HappensThere, IsDriven, IsEnd, IsExecutedThere};
ghost use Rattle.scmi_core.specs.Effect.{effect_after};
ghost use Rattle.scmi_core.specs.History.{IsIdle, answer_to, answer_with};
ghost use Rattle.scmi_core.specs.Reply.{failed_answer};
ghost use Rattle.scmi_core.specs.Standing.{MovesOn, StandsAfter};
ghost use Rattle.scmi_core.specs.declared.event.Event.{Event};
ghost use Rattle.scmi_core.specs.declared.event.Event.TheVariants.{Command as Called, Advance, CommandFailed};

use crate::answered::Answered;
use crate::core_error::CoreError;
use crate::hardware::{Hardware, make};
use crate::platform::Platform;
use crate::platform_effects::set_failed_reply;
use scmi_codec::{Fault, Frame, Message};
use scmi_plan::Effect;

impl Platform {
    /// As `command`, beside the hardware: what the command changes of it is made first, and if the
    /// hardware refuses that, the command has failed, and its reply is the status of the fault. The
    /// hardware is not asked if the call is refused.
    pub fn command_on<H: Hardware>(
        &mut self,
        hardware: &mut H,
        agent: u32,
        frame: &Frame,
        reply: &mut Message,
    ) -> Result<Answered, CoreError>
        ensures executes { IfOk result (λ x.
            ExecutesThere agent frame.now (answer_with x reply.new)
            self.old (H.asked hardware.old) self.new (H.asked hardware.new)) }
        ensures obeyed { H.REFUSES ≡ false → IfOk result (λ x.
            IsExecutedThere agent frame.now (answer_with x reply.new) self.old self.new) }
        ensures driven { IsDriven self.old (H.asked hardware.old)
            → IsDriven self.new (H.asked hardware.new) }
        ensures unwritten { result ≡ Ok Answered.ChannelError → reply.new ≡ reply.old }
        ensures board { self.new.board ≡ self.old.board }
        ensures no_agent { (result ≡ Err CoreError.NoAgent)
            ↔ IsNoAgent (length self.old.board.agents) agent }
        ensures errors { IfErr result (λ e. e ≡ CoreError.NoAgent) }
        ensures err { OnErr result (self.new ≡ self.old) }
        ensures kept { OnErr result (reply.new ≡ reply.old) }
        ensures unasked { OnErr result
            (IsAsked (H.asked hardware.old) None (H.asked hardware.new)) }
    {
        self.check_agent(agent)?;
        Ok(self.execute_on(hardware, agent, frame, reply))
    }

    /// As `advance`, beside the hardware: what the completion changes of it is made first, and if
    /// the hardware refuses that, the set ends as failed.
    pub fn advance_on<H: Hardware>(&mut self, hardware: &mut H) -> bool
        ensures waiting { (h : List Event) → StandsAfter self.old h
            → (result ≡ false) ↔ IsIdle self.old.board h }
        ensures happens { result ≡ true → HappensThere IsEnd
            self.old (H.asked hardware.old) self.new (H.asked hardware.new) }
        ensures obeyed { H.REFUSES ≡ false → result ≡ true → MovesOn self.old Advance self.new }
        ensures driven { IsDriven self.old (H.asked hardware.old)
            → IsDriven self.new (H.asked hardware.new) }
        ensures same { result ≡ false → self.new ≡ self.old }
        ensures unasked { result ≡ false
            → IsAsked (H.asked hardware.old) None (H.asked hardware.new) }
        ensures board { self.new.board ≡ self.old.board }
    {
        if self.is_idle() {
            return false;
        }
        self.end_on(hardware);
        true
    }

    /// As `command_on`, for an agent of the board.
    fn execute_on<H: Hardware>(
        &mut self,
        hardware: &mut H,
        agent: u32,
        frame: &Frame,
        reply: &mut Message,
    ) -> Answered
        requires agent { IsAgent (length self.old.board.agents) agent }
        ensures executes { ExecutesThere agent frame.now (answer_with result reply.new)
            self.old (H.asked hardware.old) self.new (H.asked hardware.new) }
        ensures obeyed { H.REFUSES ≡ false
            → IsExecutedThere agent frame.now (answer_with result reply.new) self.old self.new }
        ensures unwritten { result ≡ Answered.ChannelError → reply.new ≡ reply.old }
        ensures board { self.new.board ≡ self.old.board }
    {
        let Some(effect) = self.effect_in(agent, frame) else {
            return self.execute(agent, frame, reply);
        };
        match make(hardware, Some(effect)) {
            Ok(()) => self.commit(agent, frame, effect, reply),
            Err(fault) => {
                self.answer_failed(agent, frame, fault, reply);
                Answered::Reply
            }
        }
    }

    /// As `advance_on`, with a pending set.
    fn end_on<H: Hardware>(&mut self, hardware: &mut H)
        requires waiting { 0 < length self.old.tables.pending }
        ensures happens { HappensThere IsEnd
            self.old (H.asked hardware.old) self.new (H.asked hardware.new) }
        ensures obeyed { H.REFUSES ≡ false → MovesOn self.old Advance self.new }
        ensures board { self.new.board ≡ self.old.board }
    {
        let effect = self.effect_of_advance();
        match make(hardware, effect) {
            Ok(()) => self.complete(),
            Err(fault) => self.fail(fault),
        }
    }

    /// As `execute`, for a command whose effect the hardware made; nothing is decided again.
    #[inline(always)]
    pub fn commit(
        &mut self,
        agent: u32,
        frame: &Frame,
        effect: Effect,
        reply: &mut Message,
    ) -> Answered
        requires agent { IsAgent (length self.old.board.agents) agent }
        requires effect { (h : List Event) × StandsAfter self.old h
            × (effect_after self.old.board h (Called agent frame.now) ≡ Some effect) }
        ensures valid { IsValid self.old.board }
        ensures answer { (h : List Event) → StandsAfter self.old h
            → answer_with result reply.new ≡ answer_to self.old.board agent frame.now h }
        ensures unwritten { result ≡ Answered.ChannelError → reply.new ≡ reply.old }
        ensures event { MovesOn self.old (Called agent frame.now) self.new }
        ensures board { self.new.board ≡ self.old.board }
    {
        let _agents = self.plan.agents();
        self.tables.commit(&self.plan, agent, frame, effect, reply)
    }

    /// Answers a command of an agent of the board, whose change the hardware refused with a fault.
    fn answer_failed(&self, agent: u32, frame: &Frame, fault: Fault, reply: &mut Message)
        requires agent { IsAgent (length self.now.board.agents) agent }
        requires effect { (h : List Event) → StandsAfter self.now h
            → effect_after self.now.board h (Called agent frame.now) ≢ None }
        ensures answer { Reply reply.new ≡ failed_answer frame.now fault }
        ensures event { MovesOn self.now (CommandFailed agent frame.now fault) self.now }
    {
        let _agents = self.plan.agents();
        if let Some(message) = self.changing(agent, frame) {
            set_failed_reply(message, fault, reply);
        }
    }
}
