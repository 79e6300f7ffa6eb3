//! The commands of what a handle holds.
ghost use Rattle.std.specs.Prelude.{◌≡◌, ◌≢◌, ◌<◌, ◌↔◌, ◌⊎◌, ◌++◌, ◌∷◌, [], ℕ, List, length, true, false, Some, None, IfOk, OnOk, IfErr, Err};
ghost use Rattle.scmi_codec.specs.declared.frame.Answer.TheVariants.{Reply};
ghost use Rattle.scmi_codec.specs.declared.frame.Frame.TheVariants.{Good};
ghost use Rattle.scmi_codec.specs.declared.message.Message.{Message};
ghost use Rattle.scmi_plan.specs.Agent.{IsAgent};
ghost use Rattle.scmi_plan.specs.Plan.{IsValid};
ghost use Rattle.scmi_plan.specs.declared.effect.Effect.TheVariants.{Rate};
ghost use Rattle.scmi_core.specs.Asked.{Made, Refused};
ghost use Rattle.scmi_core.specs.Effect.{effect_after, is_set_frame};
ghost use Rattle.scmi_core.specs.History.{answer_to, answer_with};
ghost use Rattle.scmi_core.specs.Reply.{failed_answer};
ghost use Rattle.scmi_core.specs.declared.event.Event.{Event};
ghost use Rattle.scmi_core.specs.declared.event.Event.TheVariants.{Command as Called, CommandFailed};
ghost use Rattle.scmi_plan.specs.declared.limits.TheConstants.{AGENTS};
ghost use Rattle.scmi_c.specs.Aside.{IsHeldBackAt, IsHeldBackBy, IsMarked, KeepsSpared};
ghost use Rattle.scmi_c.specs.Calls.{HasHappened};
ghost use Rattle.scmi_c.specs.Driven.{Drives, IsUnsaid};
ghost use Rattle.scmi_c.specs.Kept.{KeepsAskable, aside_by};
ghost use Rattle.scmi_c.specs.Other.{IsOther, is_other};
ghost use Rattle.scmi_c.specs.Standing.{HasHistory, LacksAgent, StandsAt, board_of};

use crate::aside::Aside;
use crate::held::{Held, count};
use crate::refusal::Refusal;
use scmi_codec::{BASE_PROTOCOL, CLOCK_PROTOCOL, Fault, Frame, Header, Message, POWER_PROTOCOL};
use scmi_core::{Answered, Effect, Saying, may_change};
use scmi_plan::Plan;

impl Held {
    /// Executes what an agent posted, and writes the reply into its place.
    #[inline(always)]
    pub fn command(&mut self, agent: u32, frame: &Frame, reply: &mut Message) -> Answered
        requires { IsAgent (length (board_of self.old).agents) agent }
        ensures answer { (h : List Event) → StandsAt self.old h →
            answer_with result reply.new ≡ answer_to (board_of self.old) agent frame.now h }
        ensures event { HasHappened self.old self.new (Called agent frame.now) }
        ensures unsaid { IsUnsaid self.old self.new agent frame.now }
        ensures spared { KeepsSpared frame.now self.old self.new }
    {
        match self.platform.command(agent, frame, reply) {
            Ok(answered) => {
                count(&mut self.events);
                answered
            }
            Err(_) => unreachable!(), // The board has the agent.
        }
    }

    /// Refuses a frame of an agent that is held back by what is set aside, and before it a number
    /// that is no agent's. It looks at neither if nothing is set aside.
    #[inline(always)]
    pub fn check_aside(&self, aside: &Aside, agent: u32, frame: &Frame) -> Result<(), Refusal>
        requires { IsMarked aside.now }
        ensures spared { OnOk result
            (¬ (IsHeldBackBy (aside_by aside.now.slots) agent frame.now)) }
        ensures asked { (result ≡ Err Refusal.Asked) ↔
            IsHeldBackAt self.now (aside_by aside.now.slots) agent frame.now }
        ensures no_agent { result ≡ Err Refusal.NoAgent → LacksAgent agent self.now }
        ensures errors { IfErr result (λ e. (e ≡ Refusal.NoAgent) ⊎ (e ≡ Refusal.Asked)) }
    {
        if !aside.is_any {
            return Ok(());
        }
        self.check_held_back(aside, agent, frame)
    }

    /// As `check_aside`, if something is set aside.
    #[inline(never)]
    fn check_held_back(&self, aside: &Aside, agent: u32, frame: &Frame) -> Result<(), Refusal>
        requires { length aside.now.slots ≡ AGENTS }
        ensures spared { OnOk result
            (¬ (IsHeldBackBy (aside_by aside.now.slots) agent frame.now)) }
        ensures asked { (result ≡ Err Refusal.Asked) ↔
            IsHeldBackAt self.now (aside_by aside.now.slots) agent frame.now }
        ensures no_agent { result ≡ Err Refusal.NoAgent → LacksAgent agent self.now }
        ensures errors { IfErr result (λ e. (e ≡ Refusal.NoAgent) ⊎ (e ≡ Refusal.Asked)) }
    {
        self.check_agent(agent)?;
        if aside.holds_back(agent, frame) {
            Err(Refusal::Asked)
        } else {
            Ok(())
        }
    }

    /// What a command of an agent of the board is to change of the hardware, before it is executed;
    /// `None` if it changes nothing of it. `Other` for a command of a protocol of the board that the
    /// firmware answers, the only refusal.
    #[inline(always)]
    pub fn effect_of(&self, agent: u32, frame: &Frame) -> Result<Option<Effect>, Refusal>
        requires agent { IsAgent (length (board_of self.now).agents) agent }
        ensures effect { (h : List Event) → StandsAt self.now h →
            IfOk result (λ effect.
            effect ≡ effect_after (board_of self.now) h (Called agent frame.now)) }
        ensures set { IfOk result (λ effect. effect ≢ None → is_set_frame frame.now ≡ true) }
        ensures other { (result ≡ Err Refusal.Other) ↔ IsOther agent frame.now self.now }
        ensures errors { IfErr result (λ e. e ≡ Refusal.Other) }
    {
        if !may_change(frame) {
            return if self.is_other(frame) {
                Err(Refusal::Other)
            } else {
                Ok(None)
            };
        }
        match self.platform.effect_of(agent, frame) {
            Ok(effect) => Ok(effect),
            Err(_) => unreachable!(), // The board has the agent.
        }
    }

    /// Whether a frame is a command of a protocol of the board that the firmware answers.
    #[inline(always)]
    fn is_other(&self, frame: &Frame) -> bool
        ensures { result ≡ is_other (board_of self.now) frame.now }
    {
        match frame {
            Frame::Good(message) => is_other(self.platform.board(), &message.header),
            Frame::Malformed { .. } => false,
        }
    }

    /// Executes a command whose change the hardware has made, which is said of it; nothing is
    /// decided again. If it gives a clock a rate, the board has the clock.
    #[inline(always)]
    pub fn commit(
        &mut self,
        agent: u32,
        frame: &Frame,
        effect: Effect,
        reply: &mut Message,
    ) -> Answered
        requires agent { IsAgent (length (board_of self.old).agents) agent }
        requires effect { (h : List Event) → StandsAt self.old h →
            effect_after (board_of self.old) h (Called agent frame.now) ≡ Some effect }
        ensures valid { IsValid (board_of self.old) }
        ensures answer { (h : List Event) → StandsAt self.old h →
            answer_with result reply.new ≡ answer_to (board_of self.old) agent frame.now h }
        ensures event { HasHappened self.old self.new (Called agent frame.now) }
        ensures driven { Drives self.old self.new (Called agent frame.now) }
        ensures said { self.new.said ≡ self.old.said ++ Made effect ∷ [] }
        ensures askable { KeepsAskable self.old self.new }
        ensures clock { (clock rate : ℕ) → effect ≡ Rate clock rate
            → clock < length (board_of self.old).clocks }
    {
        let answered = self.platform.commit(agent, frame, effect, reply);
        self.said = self.said.and(&Saying::Made(effect));
        count(&mut self.events);
        answered
    }

    /// As `command_failed`, and says of the hardware that it refused the change.
    #[inline(always)]
    pub fn refuse(
        &mut self,
        agent: u32,
        frame: &Frame,
        effect: Effect,
        fault: Fault,
        reply: &mut Message,
    )
        requires agent { IsAgent (length (board_of self.old).agents) agent }
        requires effect { (h : List Event) → StandsAt self.old h →
            effect_after (board_of self.old) h (Called agent frame.now) ≡ Some effect }
        ensures answer { Reply reply.new ≡ failed_answer frame.now fault }
        ensures event { HasHappened self.old self.new (CommandFailed agent frame.now fault) }
        ensures driven { Drives self.old self.new (CommandFailed agent frame.now fault) }
        ensures said { self.new.said ≡ self.old.said ++ Refused effect fault ∷ [] }
        ensures askable { KeepsAskable self.old self.new }
    {
        self.command_failed(agent, frame, fault, reply);
        self.said = self.said.and(&Saying::Refused(effect, fault));
    }

    /// Answers a command whose change the hardware refused by the status of this fault.
    fn command_failed(&mut self, agent: u32, frame: &Frame, fault: Fault, reply: &mut Message)
        requires agent { IsAgent (length (board_of self.old).agents) agent }
        requires effect { (h : List Event) → StandsAt self.old h →
            effect_after (board_of self.old) h (Called agent frame.now) ≢ None }
        ensures answer { Reply reply.new ≡ failed_answer frame.now fault }
        ensures event { HasHappened self.old self.new (CommandFailed agent frame.now fault) }
        ensures said { self.new.said ≡ self.old.said }
        ensures history { HasHistory self.old }
    {
        match self.platform.command_failed(agent, frame, fault, reply) {
            Ok(()) => count(&mut self.events),
            Err(_) => unreachable!(), // The board has the agent, and there is an effect.
        }
    }
}

/// Whether a message with this header is a command of a protocol of the board that the firmware
/// answers.
#[inline(always)]
fn is_other(board: &Plan, header: &Header) -> bool
    ensures { (m : Message) → m.header ≡ header.now → result ≡ is_other board.now (Good m) }
{
    let protocol = header.protocol();
    !matches!(protocol, BASE_PROTOCOL | POWER_PROTOCOL | CLOCK_PROTOCOL)
        && header.kind() == 0
        && board.serves(protocol)
}
