//! The rate of each clock, and whether it is enabled.
ghost use Rattle.std.specs.Prelude.{◌≡◌, ◌<◌, ◌==◌, ◌∷◌, ◌↔◌, [], ℕ, length, true, if◌then◌else◌, IfSome};
ghost use Rattle.scmi_codec.specs.declared.clock_command.ClockCommand.TheVariants.{SetRate, Config};
ghost use Rattle.scmi_plan.specs.Agent.{IsAgent};
ghost use Rattle.scmi_plan.specs.Board.{clock_at};
ghost use Rattle.scmi_plan.specs.declared.limits.TheConstants.{CLOCKS};
ghost use Rattle.scmi_clock.specs.ClockTable.{reply_to, rate_at, enabled_at, rate_now, rate_later, enabled_now, set_words, config_words, HasSet, HasConfigured, IsKnown, IsKnownLater, HasRoom};
ghost use Rattle.scmi_codec.specs.Payload.{if_success};

use crate::checks::{RateSet, check_config, check_set};
use crate::clock_done::ClockDone;
use crate::reads::read;
use scmi_base::BaseState;
use scmi_codec::{ClockCommand, Payload, SUCCESS, payload_of, set_payload, set_refusal};
use scmi_plan::{CLOCKS, Load, Plan};
use std::marker::Model;

/// The rate in Hz of each clock, from 0 on, and whether it is enabled.
#[derive(Drop, Debug)]
pub struct ClockState {
    rates: [u64; CLOCKS],
    enabled: [bool; CLOCKS],
}

impl Model for ClockState {
    ghost use Rattle.scmi_clock.specs.ClockTable.{ClockTables, IsTable};

    ghost Value = { ClockTables };

    ghost view = { λ s. record { rates = s.rates; enabled = s.enabled } };

    ghost invariant = { λ s. IsTable (record { rates = s.rates; enabled = s.enabled }) };
}

impl ClockState {
    /// The state of a board at the start: each clock has the rate and the enabled bit of the plan.
    pub fn new(plan: &Plan) -> ClockState
        ensures rates { (c : ℕ) → c < length plan.now.clocks
            → rate_at result c ≡ (clock_at plan.now c).rate }
        ensures enabled { (c : ℕ) → c < length plan.now.clocks
            → enabled_at result c ≡ (clock_at plan.now c).enabled }
    {
        let mut rates = [0; CLOCKS];
        let mut enabled = [false; CLOCKS];
        for clock in 0..plan.clocks() {
            let row = plan.clock(clock);
            rates[clock as usize] = row.rate;
            enabled[clock as usize] = row.enabled;
        }
        ClockState { rates, enabled }
    }

    /// Becomes the same as another state.
    pub fn copy_from(&mut self, other: &ClockState)
        ensures { self.new ≡ other.now }
    {
        self.rates = other.rates;
        self.enabled = other.enabled;
    }

    /// Whether another state is the same.
    pub fn is_same(&self, other: &ClockState) -> bool
        ensures { (result ≡ true) ↔ (self.now ≡ other.now) }
    {
        self.rates == other.rates && self.enabled == other.enabled
    }

    /// The rate of a clock in Hz.
    pub fn rate(&self, clock: u32) -> u64
        requires { clock < CLOCKS }
        ensures { result ≡ rate_at self.now clock }
    {
        self.rates[clock as usize]
    }

    /// Whether a clock is enabled.
    pub fn enabled(&self, clock: u32) -> bool
        requires { clock < CLOCKS }
        ensures { result ≡ enabled_at self.now clock }
    {
        self.enabled[clock as usize]
    }

    /// Completes a pending set: sets a clock's rate, in Hz.
    pub fn complete(&mut self, clock: u32, rate: u64)
        requires { clock < CLOCKS }
        ensures rates { HasSet (Some (clock, rate)) self.old self.new }
        ensures enabled { self.new.enabled ≡ self.old.enabled }
    {
        self.rates[clock as usize] = rate;
    }

    /// Enables or disables a clock.
    pub fn set_enabled(&mut self, clock: u32, enabled: bool)
        requires { clock < CLOCKS }
        ensures rates { self.new.rates ≡ self.old.rates }
        ensures enabled { HasConfigured (Some (clock, enabled)) self.old self.new }
    {
        self.enabled[clock as usize] = enabled;
    }

    /// Executes a command of a caller, and gives the reply and the set that it accepted for later:
    /// clock, rate in Hz, and whether a delayed response is wanted. The reply begins with a status:
    /// NOT_FOUND for an unknown clock or message id; then OUT_OF_RANGE for an index past a list of
    /// rates, INVALID_PARAMETERS for unknown flags or attributes or if no rate lies in the
    /// requested direction; then NOT_SUPPORTED for an asynchronous set of a caller that the
    /// platform can't send to (own); then DENIED if the caller may not change the clock; then BUSY
    /// for a set while the clock has a pending one, or for an asynchronous set that has no room. A
    /// set rounds its rate to a supported one. A synchronous set and a configuration take effect at
    /// once; an asynchronous set changes nothing. A command that is refused changes nothing.
    pub fn execute(
        &mut self,
        plan: &Plan,
        base: &BaseState,
        caller: u32,
        command: ClockCommand,
        load: Load,
    ) -> ClockDone
        requires caller { IsAgent (length plan.now.agents) caller }
        ensures reply { result.reply.items
            ≡ reply_to plan.now base.now self.old load caller command }
        ensures later { result.later ≡ if_success result.reply.items (rate_later plan.now command) }
        ensures rates { HasSet (if_success result.reply.items (rate_now plan.now command))
            self.old self.new }
        ensures enabled { HasConfigured (if_success result.reply.items (enabled_now command))
            self.old self.new }
        ensures room { HasRoom load result.later }
        ensures known_later { IsKnownLater plan.now result.later }
        ensures known_now { IsKnown plan.now
            (if_success result.reply.items (rate_now plan.now command)) }
        ensures known_enabled { IsKnown plan.now
            (if_success result.reply.items (enabled_now command)) }
    {
        let mut reply = payload_of(&[]);
        let later = self.execute_into(plan, base, caller, command, load, &mut reply);
        ClockDone { reply, later }
    }

    /// As `execute`, with the reply written into `reply`: returns the set that was accepted for
    /// later.
    #[tactic(auto, unfolding(crate::specs::ClockReply::clock_reply))]
    pub fn execute_into(
        &mut self,
        plan: &Plan,
        base: &BaseState,
        caller: u32,
        command: ClockCommand,
        load: Load,
        reply: &mut Payload,
    ) -> Option<(u32, u64, bool)>
        requires caller { IsAgent (length plan.now.agents) caller }
        ensures reply { reply.new.items
            ≡ reply_to plan.now base.now self.old load caller command }
        ensures later { result ≡ if_success reply.new.items (rate_later plan.now command) }
        ensures rates { HasSet (if_success reply.new.items (rate_now plan.now command))
            self.old self.new }
        ensures enabled { HasConfigured (if_success reply.new.items (enabled_now command))
            self.old self.new }
        ensures room { HasRoom load result }
        ensures known_later { IsKnownLater plan.now result }
        ensures known_now { IsKnown plan.now
            (if_success reply.new.items (rate_now plan.now command)) }
        ensures known_enabled { IsKnown plan.now
            (if_success reply.new.items (enabled_now command)) }
    {
        match command {
            ClockCommand::SetRate { flags, clock, rate } => {
                return self.set_rate(plan, base, caller, flags, clock, rate, load, reply);
            }
            ClockCommand::Config { clock, attributes } => {
                self.configure(plan, base, caller, clock, attributes, reply);
            }
            _ => read(plan, self, caller, command, reply),
        }
        None
    }

    /// The clock and rate in Hz that a command of a caller sets at once, as `execute` does; `None`
    /// if it sets none, or is refused.
    #[tactic(auto, unfolding(crate::specs::ClockReply::clock_reply))]
    pub fn rate_change_of(
        &self,
        plan: &Plan,
        base: &BaseState,
        caller: u32,
        command: ClockCommand,
        load: Load,
    ) -> Option<(u32, u64)>
        requires caller { IsAgent (length plan.now.agents) caller }
        ensures { result ≡ if_success (reply_to plan.now base.now self.now load caller command)
            (rate_now plan.now command) }
    {
        match command {
            ClockCommand::SetRate { flags, clock, rate } => {
                match check_set(plan, base, caller, flags, clock, rate, load) {
                    Ok(set) if !set.asynchronous => Some((clock, set.rate)),
                    _ => None,
                }
            }
            _ => None,
        }
    }

    /// The clock and enabled bit that a command of a caller sets, as `execute` does; `None` if it
    /// sets none, or is refused.
    #[tactic(auto, unfolding(crate::specs::ClockReply::clock_reply))]
    pub fn enabled_change_of(
        &self,
        plan: &Plan,
        base: &BaseState,
        caller: u32,
        command: ClockCommand,
        load: Load,
    ) -> Option<(u32, bool)>
        requires caller { IsAgent (length plan.now.agents) caller }
        ensures { result ≡ if_success (reply_to plan.now base.now self.now load caller command)
            (enabled_now command) }
    {
        match command {
            ClockCommand::Config { clock, attributes } => {
                match check_config(plan, base, caller, clock, attributes) {
                    Ok(enable) => Some((clock, enable)),
                    Err(_) => None,
                }
            }
            _ => None,
        }
    }

    /// 0x5: sets a clock's rate at once, or accepts it for later.
    #[tactic(auto, unfolding(crate::specs::ClockReply::clock_reply))]
    fn set_rate(
        &mut self,
        plan: &Plan,
        base: &BaseState,
        caller: u32,
        flags: u32,
        clock: u32,
        rate: u64,
        load: Load,
        reply: &mut Payload,
    ) -> Option<(u32, u64, bool)>
        requires caller { IsAgent (length plan.now.agents) caller }
        ensures reply { reply.new.items ≡ set_words plan.now base.now caller load flags clock rate }
        ensures later { result
            ≡ if_success reply.new.items (rate_later plan.now (SetRate flags clock rate)) }
        ensures rates { HasSet
            (if_success reply.new.items (rate_now plan.now (SetRate flags clock rate)))
            self.old self.new }
        ensures enabled { self.new.enabled ≡ self.old.enabled }
        ensures room { HasRoom load result }
        ensures known_later { IsKnownLater plan.now result }
        ensures known_now { IsKnown plan.now
            (if_success reply.new.items (rate_now plan.now (SetRate flags clock rate))) }
    {
        match check_set(plan, base, caller, flags, clock, rate, load) {
            Ok(set) => {
                set_payload(reply, &[SUCCESS]);
                self.accept(clock, set)
            }
            Err(status) => {
                set_refusal(reply, status);
                None
            }
        }
    }

    /// Sets a rate at once, or leaves an asynchronous set for later.
    fn accept(&mut self, clock: u32, set: RateSet) -> Option<(u32, u64, bool)>
        requires { clock < CLOCKS }
        ensures later { result
            ≡ (if set.asynchronous then Some (clock, set.rate, set.response_wanted) else None) }
        ensures rates { HasSet (if set.asynchronous then None else Some (clock, set.rate))
            self.old self.new }
        ensures enabled { self.new.enabled ≡ self.old.enabled }
    {
        if set.asynchronous {
            return Some((clock, set.rate, set.response_wanted));
        }
        self.complete(clock, set.rate);
        None
    }

    /// 0x7: enables or disables a clock.
    fn configure(
        &mut self,
        plan: &Plan,
        base: &BaseState,
        caller: u32,
        clock: u32,
        attributes: u32,
        reply: &mut Payload,
    )
        requires caller { IsAgent (length plan.now.agents) caller }
        ensures reply { reply.new.items ≡ config_words plan.now base.now caller clock attributes }
        ensures rates { self.new.rates ≡ self.old.rates }
        ensures enabled { HasConfigured
            (if_success reply.new.items (enabled_now (Config clock attributes)))
            self.old self.new }
        ensures known { IsKnown plan.now
            (if_success reply.new.items (enabled_now (Config clock attributes))) }
    {
        match check_config(plan, base, caller, clock, attributes) {
            Ok(enable) => {
                self.set_enabled(clock, enable);
                set_payload(reply, &[SUCCESS]);
            }
            Err(status) => set_refusal(reply, status),
        }
    }
}
