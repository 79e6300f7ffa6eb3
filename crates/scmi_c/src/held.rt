//! What a handle holds, and the events that are no commands.
ghost use Rattle.std.specs.Prelude.{◌≡◌, ◌<◌, ◌↔◌, ◌⊎◌, ◌++◌, ◌∷◌, [], List, length, true, false, Some, None, IsSomeAnd, OnOk, OnErr, IfErr, Err};
ghost use Rattle.scmi_plan.specs.Agent.{IsAgent};
ghost use Rattle.scmi_plan.specs.Plan.{IsValid};
ghost use Rattle.scmi_plan.specs.declared.effect.Effect.TheVariants.{Enabled, Rate};
ghost use Rattle.scmi_core.specs.History.{HasNothingFor, IsIdle};
ghost use Rattle.scmi_core.specs.Value.{HasNoResource, HasNoState};
ghost use Rattle.scmi_core.specs.declared.event.Event.{Event};
ghost use Rattle.scmi_core.specs.declared.event.Event.TheVariants.{Advance, Sent, AdvanceFailed, Restarted, Reported};
ghost use Rattle.scmi_c.specs.Calls.{HasHappened};
ghost use Rattle.scmi_c.specs.Driven.{Drives, HappenInTurn, IsDriven};
ghost use Rattle.scmi_c.specs.Kept.{KeepsAskable};
ghost use Rattle.scmi_c.specs.Standing.{HasHistory, IsCount, IsCounted, LacksAgent, StandsAt, board_of};

use crate::refusal::Refusal;
use scmi_codec::Fault;
use scmi_core::{CoreError, Effect, Platform, Said, Saying};
use scmi_plan::Plan;
use std::marker::Model;

/// A platform, and the number of its events if they are counted: all that C can read of its
/// history. It takes no memory, however long it runs. Contracts see beside it what has been said
/// of the hardware.
#[derive(Drop)]
pub struct Held {
    pub platform: Platform,
    pub events: Option<u64>,
    pub said: Said,
}

impl Model for Held {
    ghost use Rattle.scmi_c.specs.Standing.{Held, HasHistory};

    ghost Value = { Held };

    ghost view = { λ p.
        record { platform = p.platform; events = p.events; said = p.said.list } };

    ghost invariant = { λ p.
        HasHistory (record { platform = p.platform; events = p.events; said = p.said.list }) };
}

impl Held {
    /// The platform of a board, at the start.
    // Not always inlined: clang then takes a platform apart before it knows its place, and copies
    // each part from one to the next, three times on the stack.
    pub fn new(plan: Plan, is_counted: bool) -> Held
        ensures board { board_of result ≡ plan }
        ensures start { StandsAt result [] }
        ensures counted { IsCounted result ↔ (is_counted ≡ true) }
        ensures driven { IsDriven result [] }
    {
        let events = if is_counted { Some(0) } else { None };
        Held {
            platform: Platform::new(plan),
            events,
            said: Said::nothing(),
        }
    }

    /// Completes the first pending set; `false` if none is pending, and then nothing changed.
    pub fn advance(&mut self) -> bool
        ensures waiting { (h : List Event) → StandsAt self.old h →
            (result ≡ false) ↔ IsIdle (board_of self.old) h }
        ensures event { result ≡ true → HasHappened self.old self.new Advance }
        ensures driven { result ≡ true → Drives self.old self.new Advance }
        ensures askable { KeepsAskable self.old self.new }
        ensures same { result ≡ false → self.new ≡ self.old }
    {
        let said = self.said.and(&Saying::Completed(&self.platform));
        if !self.platform.advance() {
            return false;
        }
        self.said = said;
        count(&mut self.events);
        true
    }

    /// Takes off the first pending set, whose change the hardware refused with this fault.
    /// `Nothing` if none is pending, else `WrongStatus` if there is no fault; then nothing changed.
    pub fn advance_failed(&mut self, fault: Option<Fault>) -> Result<(), Refusal>
        ensures event { OnOk result (IsSomeAnd fault (λ fault.
            HasHappened self.old self.new (AdvanceFailed fault))) }
        ensures driven { OnOk result (IsSomeAnd fault (λ fault.
            Drives self.old self.new (AdvanceFailed fault))) }
        ensures askable { KeepsAskable self.old self.new }
        ensures nothing { (h : List Event) → StandsAt self.old h →
            (result ≡ Err Refusal.Nothing) ↔ IsIdle (board_of self.old) h }
        ensures wrong_status { (h : List Event) → StandsAt self.old h →
            (result ≡ Err Refusal.WrongStatus)
            ↔ ((¬ (IsIdle (board_of self.old) h)) × (fault ≡ None)) }
        ensures errors { IfErr result (λ e.
            (e ≡ Refusal.Nothing) ⊎ ((e ≡ Refusal.WrongStatus) × (fault ≡ None))) }
        ensures err { OnErr result (self.new ≡ self.old) }
    {
        let Some(fault) = fault else {
            return if self.platform.pending_sets().is_empty() {
                Err(Refusal::Nothing)
            } else {
                Err(Refusal::WrongStatus)
            };
        };
        let said = self.said.and(&Saying::Failed(&self.platform, fault));
        if !self.platform.advance_failed(fault) {
            return Err(Refusal::Nothing);
        }
        self.said = said;
        count(&mut self.events);
        Ok(())
    }

    /// Takes the first message off an agent's outbox, as posted. `NoAgent` if the board lacks the
    /// agent, and `Nothing` if its outbox is empty; then nothing changed.
    pub fn sent(&mut self, agent: u32) -> Result<(), Refusal>
        ensures event { OnOk result (HasHappened self.old self.new (Sent agent)) }
        ensures driven { OnOk result (Drives self.old self.new (Sent agent)) }
        ensures askable { KeepsAskable self.old self.new }
        ensures no_agent { (result ≡ Err Refusal.NoAgent) ↔ LacksAgent agent self.old }
        ensures nothing { (h : List Event) → StandsAt self.old h →
            (result ≡ Err Refusal.Nothing) ↔ HasNothingFor (board_of self.old) agent h }
        ensures errors { IfErr result (λ e. (e ≡ Refusal.Nothing) ⊎ (e ≡ Refusal.NoAgent)) }
        ensures err { OnErr result (self.new ≡ self.old) }
    {
        match self.platform.sent(agent) {
            Ok(()) => {
                count(&mut self.events);
                Ok(())
            }
            Err(CoreError::Nothing) => Err(Refusal::Nothing),
            Err(_) => Err(Refusal::NoAgent),
        }
    }

    /// Ends what an agent asked for that restarted. `NoAgent` if the board lacks the agent, the
    /// only refusal; then nothing changed.
    pub fn restart(&mut self, agent: u32) -> Result<(), Refusal>
        ensures event { OnOk result (HasHappened self.old self.new (Restarted agent)) }
        ensures driven { OnOk result (Drives self.old self.new (Restarted agent)) }
        ensures no_agent { (result ≡ Err Refusal.NoAgent) ↔ LacksAgent agent self.old }
        ensures errors { IfErr result (λ e. e ≡ Refusal.NoAgent) }
        ensures err { OnErr result (self.new ≡ self.old) }
    {
        let Ok(()) = self.platform.restart(agent) else {
            return Err(Refusal::NoAgent);
        };
        count(&mut self.events);
        Ok(())
    }

    /// Takes over a change that the hardware made by itself. `NoResource` if the board lacks the
    /// domain or clock, and `NoState` if a domain's state is neither ON nor OFF; then nothing
    /// changed.
    pub fn report(&mut self, effect: Effect) -> Result<(), Refusal>
        ensures event { OnOk result (HasHappened self.old self.new (Reported effect)) }
        ensures driven { OnOk result (Drives self.old self.new (Reported effect)) }
        ensures askable { KeepsAskable self.old self.new }
        ensures said { self.new.said ≡ self.old.said }
        ensures no_resource { (result ≡ Err Refusal.NoResource)
            ↔ HasNoResource (board_of self.old) effect }
        ensures no_state { (result ≡ Err Refusal.NoState)
            ↔ HasNoState (board_of self.old) effect }
        ensures errors { IfErr result (λ e. (e ≡ Refusal.NoResource) ⊎ (e ≡ Refusal.NoState)) }
        ensures err { OnErr result (self.new ≡ self.old) }
    {
        match self.platform.report(effect) {
            Ok(()) => {
                count(&mut self.events);
                Ok(())
            }
            Err(CoreError::NoState) => Err(Refusal::NoState),
            Err(_) => Err(Refusal::NoResource),
        }
    }

    /// Takes over the rate that the hardware has given a clock, and then whether it is enabled.
    /// `NoResource` if the board lacks the clock, the only refusal; then nothing changed.
    pub fn report_clock(&mut self, clock: u32, rate: u64, enabled: bool) -> Result<(), Refusal>
        ensures ok { OnOk result (HappenInTurn self.old self.new
            (Reported (Rate clock rate)) (Reported (Enabled clock enabled))) }
        ensures askable { KeepsAskable self.old self.new }
        ensures no_resource { (result ≡ Err Refusal.NoResource)
            ↔ HasNoResource (board_of self.old) (Rate clock rate) }
        ensures errors { IfErr result (λ e. e ≡ Refusal.NoResource) }
        ensures err { OnErr result (self.new ≡ self.old) }
    {
        self.report(Effect::Rate { clock, rate })?;
        self.report(Effect::Enabled { clock, enabled })
    }

    /// As `report`, of the rate of a clock of the board.
    pub fn report_rate(&mut self, clock: u32, rate: u64)
        requires clock { clock < length (board_of self.old).clocks }
        ensures event { HasHappened self.old self.new (Reported (Rate clock rate)) }
        ensures driven { Drives self.old self.new (Reported (Rate clock rate)) }
        ensures askable { KeepsAskable self.old self.new }
        ensures said { self.new.said ≡ self.old.said }
    {
        // Never refused, since the board has the clock.
        let _ = self.report(Effect::Rate { clock, rate });
    }

    /// Does nothing: it is there for its contract, that a platform is as some history leaves it.
    #[inline(always)]
    pub fn stand(&self)
        ensures { HasHistory self.now }
    {
        let _events = &self.events;
    }

    /// Refuses a number that is no agent's.
    pub fn check_agent(&self, agent: u32) -> Result<(), Refusal>
        ensures ok { OnOk result (IsAgent (length (board_of self.now).agents) agent) }
        ensures no_agent { OnErr result (LacksAgent agent self.now) }
        ensures errors { IfErr result (λ e. e ≡ Refusal.NoAgent) }
        ensures valid { IsValid (board_of self.now) }
    {
        let agents = self.platform.agents();
        if agent == 0 || agent > agents {
            Err(Refusal::NoAgent)
        } else {
            Ok(())
        }
    }
}

/// One more event, if events are counted.
pub(crate) fn count(events: &mut Option<u64>)
    ensures count { (h : List Event) (event : Event) → IsCount events.old h →
        IsCount events.new (h ++ event ∷ []) }
    ensures counted { (events.new ≡ None) ↔ (events.old ≡ None) }
{
    if let Some(number) = events {
        *number = number.saturating_add(1);
    }
}
