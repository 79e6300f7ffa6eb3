//! The state of each power domain, and who is notified of its changes.
ghost use Rattle.std.specs.Prelude.{◌≡◌, ◌≤◌, ◌<◌, ◌-◌, ◌==◌, ◌↔◌, ℕ, length, true, false, not, if◌then◌else◌, Some, IfSome};
ghost use Rattle.std.specs.Int.{bit_at};
ghost use Rattle.scmi_codec.specs.Payload.{begins_with_success};
ghost use Rattle.scmi_codec.specs.declared.power_command.PowerCommand.TheVariants.{Set, Notify};
ghost use Rattle.scmi_plan.specs.Agent.{IsAgent};
ghost use Rattle.scmi_plan.specs.declared.limits.TheConstants.{AGENTS, DOMAINS};
ghost use Rattle.scmi_power.specs.PowerTable.{reply_to, state_at, state_at_start, set_now, set_later, is_subscribed, only_reads, set_words, notify_words, HasSet, HasNotified, IsKnown, HasRoom};
ghost use Rattle.scmi_codec.specs.Payload.{if_success};

use crate::checks::{check_notify, check_set};
use crate::domain_state::starting_state;
use crate::power_done::PowerDone;
use crate::power_effect::{NOTHING, PowerEffect};
use crate::reads::read;
use crate::subscribers::with_subscriber;
use scmi_base::BaseState;
use scmi_codec::{Payload, PowerCommand, SUCCESS, payload_of, set_payload, set_refusal};
use scmi_plan::{DOMAINS, Load, Plan};
use std::marker::Model;

/// The state of each domain, as the word that a reply has, and the agents that are notified of its
/// changes: bit a - 1 is for agent a.
#[derive(Drop, Debug)]
pub struct PowerState {
    states: [u32; DOMAINS],
    subscribers: [u8; DOMAINS],
}

impl Model for PowerState {
    ghost use Rattle.scmi_power.specs.PowerTable.{PowerTables, IsTable};

    ghost Value = { PowerTables };

    ghost view = { λ s. record { states = s.states; subscribers = s.subscribers } };

    ghost invariant = { λ s. IsTable (record { states = s.states; subscribers = s.subscribers }) };
}

impl PowerState {
    /// The state of a board at the start: each domain as in the plan, and no agent notified of
    /// changes.
    pub fn new(plan: &Plan) -> PowerState
        ensures states { (d : ℕ) → d < length plan.now.domains
            → state_at result d ≡ state_at_start plan.now d }
        ensures subscribed { (a d : ℕ) → is_subscribed result a d ≡ false }
    {
        let mut states = [0; DOMAINS];
        for domain in 0..plan.domains() {
            let state = starting_state(plan.domain(domain));
            states[domain as usize] = state;
        }
        PowerState {
            states,
            subscribers: [0; DOMAINS],
        }
    }

    /// Becomes the same as another state.
    pub fn copy_from(&mut self, other: &PowerState)
        ensures { self.new ≡ other.now }
    {
        self.states = other.states;
        self.subscribers = other.subscribers;
    }

    /// Whether another state is the same.
    pub fn is_same(&self, other: &PowerState) -> bool
        ensures { (result ≡ true) ↔ (self.now ≡ other.now) }
    {
        self.states == other.states && self.subscribers == other.subscribers
    }

    /// Executes a command of a caller, and gives the reply and what it set. The reply begins with a
    /// status: NOT_FOUND for an unknown domain or message id; then INVALID_PARAMETERS for flag bits
    /// besides bit 0 or for a word that is not a state; then NOT_SUPPORTED for a kind of set, or
    /// notifications, that the domain lacks, or that would send to a caller to which the platform
    /// can't (own); then DENIED for a domain that the caller may not change; then BUSY for a set of
    /// a domain that has a pending set, or for an asynchronous set without room. A command that is
    /// refused changes nothing. A synchronous set takes effect here; an asynchronous one is only
    /// named, for `complete`.
    pub fn execute(
        &mut self,
        plan: &Plan,
        base: &BaseState,
        caller: u32,
        command: PowerCommand,
        load: Load,
    ) -> PowerDone
        requires caller { IsAgent (length plan.now.agents) caller }
        ensures reply { result.reply.items
            ≡ reply_to plan.now base.now self.old load caller command }
        ensures changed { result.changed ≡ if_success result.reply.items (set_now command) }
        ensures later { result.later ≡ if_success result.reply.items (set_later command) }
        ensures states { HasSet result.changed self.old self.new }
        ensures subscribed { HasNotified result.reply.items caller command self.old self.new }
        ensures known_now { IsKnown plan.now result.changed }
        ensures room { HasRoom load result.later }
        ensures known_later { IsKnown plan.now result.later }
        ensures refused { begins_with_success result.reply.items ≡ false → self.new ≡ self.old }
        ensures read { only_reads command ≡ true → self.new ≡ self.old }
    {
        let mut reply = payload_of(&[]);
        let effect = self.execute_into(plan, base, caller, command, load, &mut reply);
        PowerDone {
            reply,
            changed: effect.changed,
            later: effect.later,
        }
    }

    /// As `execute`, with the reply written into `reply`. It also returns whether a state that was
    /// set now differs from the one before.
    #[tactic(auto, unfolding(crate::specs::PowerReply::power_reply))]
    pub fn execute_into(
        &mut self,
        plan: &Plan,
        base: &BaseState,
        caller: u32,
        command: PowerCommand,
        load: Load,
        reply: &mut Payload,
    ) -> PowerEffect
        requires caller { IsAgent (length plan.now.agents) caller }
        ensures reply { reply.new.items
            ≡ reply_to plan.now base.now self.old load caller command }
        ensures changed { result.changed ≡ if_success reply.new.items (set_now command) }
        ensures differs { IfSome result.changed (λ set.
            result.differs ≡ not (set.1 == state_at self.old set.0)) }
        ensures later { result.later ≡ if_success reply.new.items (set_later command) }
        ensures states { HasSet result.changed self.old self.new }
        ensures subscribed { HasNotified reply.new.items caller command self.old self.new }
        ensures known_now { IsKnown plan.now result.changed }
        ensures room { HasRoom load result.later }
        ensures known_later { IsKnown plan.now result.later }
        ensures refused { begins_with_success reply.new.items ≡ false → self.new ≡ self.old }
        ensures read { only_reads command ≡ true → self.new ≡ self.old }
    {
        match command {
            PowerCommand::Set {
                flags,
                domain,
                state,
            } => return self.set(plan, base, caller, flags, domain, state, load, reply),
            PowerCommand::Notify { domain, enable } => {
                self.notify(plan, base, caller, domain, enable, reply);
            }
            _ => read(plan, self, caller, command, reply),
        }
        NOTHING
    }

    /// Gives a domain the state of a set that takes effect now, and returns whether it was another
    /// before.
    pub fn complete(&mut self, domain: u32, state: u32) -> bool
        requires { domain < DOMAINS }
        ensures differs { result ≡ not (state == state_at self.old domain) }
        ensures states { HasSet (Some (domain, state)) self.old self.new }
        ensures subscribed { self.new.subscribers ≡ self.old.subscribers }
    {
        let place = domain as usize;
        let differs = self.states[place] != state;
        self.states[place] = state;
        differs
    }

    /// Who is notified of a domain's changes: bit a - 1 is for agent a.
    pub fn subscribers(&self, domain: u32) -> u8
        requires { domain < DOMAINS }
        ensures { (a : ℕ) → (bit_at result (a - 1) == 1) ≡ is_subscribed self.now a domain }
    {
        self.subscribers[domain as usize]
    }

    /// Ends an agent's requests for notifications, of every domain.
    pub fn reset(&mut self, agent: u32)
        requires agent { IsAgent AGENTS agent }
        ensures subscribed { (a d : ℕ) → 1 ≤ a → a ≤ AGENTS → d < DOMAINS
            → is_subscribed self.new a d
            ≡ (if agent == a then false else is_subscribed self.old a d) }
        ensures states { self.new.states ≡ self.old.states }
    {
        let mut subscribers = self.subscribers;
        for domain in 0..DOMAINS {
            subscribers[domain] = with_subscriber(subscribers[domain], agent, false);
        }
        self.subscribers = subscribers;
    }

    /// The state of a domain: 0 is ON, 0x40000000 is OFF.
    pub fn state(&self, domain: u32) -> u32
        requires { domain < DOMAINS }
        ensures { result ≡ state_at self.now domain }
    {
        self.states[domain as usize]
    }

    /// The domain and state that a command of a caller sets at once, as `execute` does; `None` if
    /// it sets none, or is refused.
    #[tactic(auto, unfolding(crate::specs::PowerReply::power_reply))]
    pub fn change_of(
        &self,
        plan: &Plan,
        base: &BaseState,
        caller: u32,
        command: PowerCommand,
        load: Load,
    ) -> Option<(u32, u32)>
        requires caller { IsAgent (length plan.now.agents) caller }
        ensures { result ≡ if_success (reply_to plan.now base.now self.now load caller command)
            (set_now command) }
    {
        match command {
            PowerCommand::Set {
                flags,
                domain,
                state,
            } => match check_set(plan, base, caller, flags, domain, state, load) {
                Ok(false) => Some((domain, state)),
                _ => None,
            },
            _ => None,
        }
    }

    /// 0x4: sets a domain's state, now or later.
    fn set(
        &mut self,
        plan: &Plan,
        base: &BaseState,
        caller: u32,
        flags: u32,
        domain: u32,
        state: u32,
        load: Load,
        reply: &mut Payload,
    ) -> PowerEffect
        requires caller { IsAgent (length plan.now.agents) caller }
        ensures reply { reply.new.items
            ≡ set_words plan.now base.now caller load flags domain state }
        ensures changed { result.changed
            ≡ if_success reply.new.items (set_now (Set flags domain state)) }
        ensures differs { IfSome result.changed (λ set.
            result.differs ≡ not (set.1 == state_at self.old set.0)) }
        ensures later { result.later
            ≡ if_success reply.new.items (set_later (Set flags domain state)) }
        ensures states { HasSet result.changed self.old self.new }
        ensures subscribed { self.new.subscribers ≡ self.old.subscribers }
        ensures known_now { IsKnown plan.now result.changed }
        ensures room { HasRoom load result.later }
        ensures known_later { IsKnown plan.now result.later }
        ensures refused { begins_with_success reply.new.items ≡ false → self.new ≡ self.old }
    {
        match check_set(plan, base, caller, flags, domain, state, load) {
            Ok(true) => {
                set_payload(reply, &[SUCCESS]);
                PowerEffect {
                    changed: None,
                    differs: false,
                    later: Some((domain, state)),
                }
            }
            Ok(false) => {
                let differs = self.complete(domain, state);
                set_payload(reply, &[SUCCESS]);
                PowerEffect {
                    changed: Some((domain, state)),
                    differs,
                    later: None,
                }
            }
            Err(status) => {
                set_refusal(reply, status);
                NOTHING
            }
        }
    }

    /// 0x6: enables or disables the caller's notifications of a domain's changes.
    fn notify(
        &mut self,
        plan: &Plan,
        base: &BaseState,
        caller: u32,
        domain: u32,
        enable: u32,
        reply: &mut Payload,
    )
        requires caller { IsAgent (length plan.now.agents) caller }
        ensures reply { reply.new.items ≡ notify_words plan.now base.now caller domain enable }
        ensures states { self.new.states ≡ self.old.states }
        ensures subscribed { HasNotified reply.new.items caller (Notify domain enable)
            self.old self.new }
        ensures refused { begins_with_success reply.new.items ≡ false → self.new ≡ self.old }
    {
        match check_notify(plan, base, caller, domain, enable) {
            Ok(enabled) => {
                let place = domain as usize;
                self.subscribers[place] = with_subscriber(self.subscribers[place], caller, enabled);
                set_payload(reply, &[SUCCESS]);
            }
            Err(status) => set_refusal(reply, status),
        }
    }
}
