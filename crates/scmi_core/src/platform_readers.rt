//! The state of a platform: its board, values, pending sets and outboxes.
ghost use Rattle.std.specs.Prelude.{◌≡◌, ◌≤◌, ◌↔◌, ◌⊎◌, List, length, None, IfSome};
ghost use Rattle.scmi_plan.specs.Agent.{IsNoAgent};
ghost use Rattle.scmi_plan.specs.declared.resource.Resource.TheVariants as resource;
ghost use Rattle.scmi_core.specs.History.{deeds, is_pending_after, is_subscriber_after, outbox, value_after};
ghost use Rattle.scmi_core.specs.Standing.{StandsAfter};
ghost use Rattle.scmi_core.specs.Pending.{pending_sets};
ghost use Rattle.scmi_core.specs.Value.{State, Rate, Enabled, bit_value};
ghost use Rattle.scmi_core.specs.declared.event.Event.{Event};

use crate::pending_set::PendingSet;
use crate::platform::Platform;
use scmi_plan::{Plan, Resource};

impl Platform {
    /// The board.
    pub fn board(&self) -> &Plan
        ensures { result.now ≡ self.now.board }
    {
        &self.plan
    }

    /// The state of a power domain, as the word that a reply has: 0 is ON, 0x40000000 is OFF.
    /// `None` if the board lacks the domain.
    pub fn power_state(&self, domain: u32) -> Option<u32>
        ensures value { (h : List Event) → StandsAfter self.now h
            → IfSome result (λ state. state ≡ value_after self.now.board (State domain) h) }
        ensures none { (result ≡ None) ↔ (length self.now.board.domains ≤ domain) }
    {
        if domain < self.plan.domains() {
            Some(self.tables.power.state(domain))
        } else {
            None
        }
    }

    /// The rate of a clock in Hz. `None` if the board lacks the clock.
    pub fn clock_rate(&self, clock: u32) -> Option<u64>
        ensures value { (h : List Event) → StandsAfter self.now h
            → IfSome result (λ rate. rate ≡ value_after self.now.board (Rate clock) h) }
        ensures none { (result ≡ None) ↔ (length self.now.board.clocks ≤ clock) }
    {
        if clock < self.plan.clocks() {
            Some(self.tables.clocks.rate(clock))
        } else {
            None
        }
    }

    /// Whether a clock is enabled. `None` if the board lacks the clock.
    pub fn is_clock_enabled(&self, clock: u32) -> Option<bool>
        ensures value { (h : List Event) → StandsAfter self.now h
            → IfSome result (λ enabled.
            bit_value enabled ≡ value_after self.now.board (Enabled clock) h) }
        ensures none { (result ≡ None) ↔ (length self.now.board.clocks ≤ clock) }
    {
        if clock < self.plan.clocks() {
            Some(self.tables.clocks.enabled(clock))
        } else {
            None
        }
    }

    /// Whether a power domain has a pending set: one that was accepted and is not complete yet.
    pub fn is_domain_pending(&self, domain: u32) -> bool
        ensures { (h : List Event) → StandsAfter self.now h
            → result ≡ is_pending_after self.now.board (resource.Domain domain) h }
    {
        self.tables.pending.is_pending(Resource::Domain(domain))
    }

    /// Whether a clock has a pending set of its rate.
    pub fn is_clock_pending(&self, clock: u32) -> bool
        ensures { (h : List Event) → StandsAfter self.now h
            → result ≡ is_pending_after self.now.board (resource.Clock clock) h }
    {
        self.tables.pending.is_pending(Resource::Clock(clock))
    }

    /// The pending sets, at most 8, in order of acceptance, in which they complete. Each shows what
    /// it will change (`PendingSet::effect`).
    pub fn pending_sets(&self) -> &[PendingSet]
        ensures { (h : List Event) → StandsAfter self.now h
            → result.now ≡ pending_sets self.now.board (deeds self.now.board h) }
    {
        self.tables.pending.as_slice()
    }

    /// How many messages wait in an agent's outbox, at most 16. `None` if the board lacks the
    /// agent.
    pub fn waiting(&self, agent: u32) -> Option<usize>
        ensures count { (h : List Event) → StandsAfter self.now h
            → IfSome result (λ count. count ≡ length (outbox self.now.board agent h)) }
        ensures none { (result ≡ None) ↔ IsNoAgent (length self.now.board.agents) agent }
    {
        if (1..=self.plan.agents()).contains(&agent) {
            Some(self.tables.outboxes.waiting(agent))
        } else {
            None
        }
    }

    /// Whether an agent is notified of a power domain's changes. `None` if the board lacks the
    /// agent or the domain.
    pub fn is_subscribed(&self, agent: u32, domain: u32) -> Option<bool>
        ensures value { (h : List Event) → StandsAfter self.now h
            → IfSome result (λ subscribed.
            subscribed ≡ is_subscriber_after self.now.board agent domain h) }
        ensures none { (result ≡ None) ↔ IsNoAgent (length self.now.board.agents) agent
            ⊎ (length self.now.board.domains ≤ domain) }
    {
        if (1..=self.plan.agents()).contains(&agent) && domain < self.plan.domains() {
            Some(self.tables.is_notified(agent, domain))
        } else {
            None
        }
    }
}
