//! Which notifications a step dropped.
ghost use Rattle.std.specs.Prelude.{◌≡◌, ◌<◌, ◌-◌, ◌++◌, ℕ, List, length, get_or, IfOk, OnOk};
ghost use Rattle.scmi_plan.specs.Agent.{IsAgent};
ghost use Rattle.scmi_core.specs.History.{deeds, is_subscriber_after, outbox, value_after};
ghost use Rattle.scmi_core.specs.Pending.{pending_sets};
ghost use Rattle.scmi_core.specs.Value.{State};
ghost use Rattle.scmi_core.specs.declared.event.Event.{Event};
ghost use Rattle.scmi_modes.specs.Standing.{IsStandingAfter, dropped_at, dropped_between, dropped_for, is_dropped_since, is_for, responds_to, responses_after};

use scmi_core::{Core, PendingSet};
use scmi_plan::{AGENTS, DOMAINS};
use std::alloc::{AllocError, Global};

/// A notification of a domain's state for an agent that was dropped.
#[derive(Clone, Copy)]
pub struct Dropped {
    pub agent: u32,
    pub domain: u32,
}

/// What is kept of a platform before a step, by which it shows after the step which notifications
/// the step dropped.
#[derive(Clone, Copy)]
pub struct Standing {
    // The state of each domain.
    states: [u32; DOMAINS],
    // How many messages wait for each agent, for agent a at index a - 1.
    waiting: [usize; AGENTS],
    // How many sets are pending.
    pending: usize,
    // For whom the first of them wants a delayed response.
    responds_to: Option<u32>,
}

impl Standing {
    /// That of a platform now.
    pub fn of(core: &Core) -> Standing
        ensures { IsStandingAfter core.now.board core.now.history result }
    {
        Standing {
            states: states_of(core),
            waiting: waiting_of(core),
            pending: core.pending_sets().len(),
            responds_to: responds_to(core.pending_sets()),
        }
    }

    /// The notifications that were dropped since, by rising agent and domain: the domain's state is
    /// another, the agent is notified of its changes, and nothing came into the agent's outbox
    /// beside the delayed response to the set that completed.
    pub fn dropped(&self, alloc: Global, core: &Core) -> Result<Vec<Dropped>, AllocError>
        ensures { IfOk result (λ dropped. (before : List Event)
            → IsStandingAfter core.now.board before self.now
            → dropped.items ≡ dropped_between core.now.board before core.now.history) }
    {
        let mut dropped = Vec::new(alloc);
        'agents: for index in 0..core.agents() {
            self.add_dropped(core, index + 1, &mut dropped)?;
        }
        Ok(dropped)
    }

    /// Adds the notifications for an agent that were dropped since.
    fn add_dropped(
        &self,
        core: &Core,
        agent: u32,
        dropped: &mut Vec<Dropped>,
    ) -> Result<(), AllocError>
        requires { IsAgent (length core.now.board.agents) agent }
        ensures { OnOk result (dropped.new.items ≡ dropped.old.items ++ dropped_for
            (is_dropped_since core.now.board self.now core.now.history) agent
            (length core.now.board.domains)) }
    {
        'domains: for domain in 0..core.board().domains() {
            self.add_if_dropped(core, agent, domain, dropped)?;
        }
        Ok(())
    }

    /// Adds the notification of a domain's state for an agent, if it was dropped since.
    fn add_if_dropped(
        &self,
        core: &Core,
        agent: u32,
        domain: u32,
        dropped: &mut Vec<Dropped>,
    ) -> Result<(), AllocError>
        requires agent { IsAgent (length core.now.board.agents) agent }
        requires domain { domain < length core.now.board.domains }
        ensures { OnOk result (dropped.new.items ≡ dropped.old.items ++ dropped_at
            (is_dropped_since core.now.board self.now core.now.history) agent domain) }
    {
        if self.is_dropped(core, agent, domain) {
            dropped.push(Dropped { agent, domain })?;
        }
        Ok(())
    }

    /// Whether the notification of a domain's state for an agent was dropped since.
    fn is_dropped(&self, core: &Core, agent: u32, domain: u32) -> bool
        requires agent { IsAgent (length core.now.board.agents) agent }
        requires domain { domain < length core.now.board.domains }
        ensures { result
            ≡ is_dropped_since core.now.board self.now core.now.history agent domain }
    {
        state_of(core, domain) != self.state(domain)
            && is_subscribed(core, agent, domain)
            && waiting_for(core, agent).saturating_sub(self.responses(core, agent))
                <= self.waiting(agent)
    }

    /// The state of a domain before.
    fn state(&self, domain: u32) -> u32
        ensures { result ≡ get_or self.now.states domain 0 }
    {
        match self.states.get(domain as usize) {
            Some(state) => *state,
            None => 0,
        }
    }

    /// How many messages waited for an agent before.
    fn waiting(&self, agent: u32) -> usize
        ensures { result ≡ get_or self.now.waiting (agent - 1) 0 }
    {
        match self.waiting.get((agent as usize).saturating_sub(1)) {
            Some(waiting) => *waiting,
            None => 0,
        }
    }

    /// How many delayed responses were made for an agent since: one if the first set that was
    /// pending has completed, and wanted one for it.
    fn responses(&self, core: &Core, agent: u32) -> usize
        ensures { result ≡ responses_after self.now.responds_to self.now.pending
            (length (pending_sets core.now.board (deeds core.now.board core.now.history))) agent }
    {
        if core.pending_sets().len() < self.pending && is_for(self.responds_to, agent) {
            1
        } else {
            0
        }
    }
}

/// The state of each domain of a platform.
fn states_of(core: &Core) -> [u32; DOMAINS]
    ensures { (d : ℕ) → d < length core.now.board.domains
        → get_or result d 0 ≡ value_after core.now.board (State d) core.now.history }
{
    let mut states = [0; DOMAINS];
    'domains: for domain in 0..core.board().domains() {
        let state = state_of(core, domain);
        states[domain as usize] = state;
    }
    states
}

/// How many messages wait for each agent of a platform.
fn waiting_of(core: &Core) -> [usize; AGENTS]
    ensures { (a : ℕ) → IsAgent (length core.now.board.agents) a
        → get_or result (a - 1) 0 ≡ length (outbox core.now.board a core.now.history) }
{
    let mut waiting = [0; AGENTS];
    'agents: for index in 0..core.agents() {
        let count = waiting_for(core, index + 1);
        waiting[index as usize] = count;
    }
    waiting
}

/// The state of a domain of the board.
fn state_of(core: &Core, domain: u32) -> u32
    requires { domain < length core.now.board.domains }
    ensures { result ≡ value_after core.now.board (State domain) core.now.history }
{
    match core.power_state(domain) {
        Some(state) => state,
        None => 0,
    }
}

/// How many messages wait for an agent of the board.
fn waiting_for(core: &Core, agent: u32) -> usize
    requires { IsAgent (length core.now.board.agents) agent }
    ensures { result ≡ length (outbox core.now.board agent core.now.history) }
{
    match core.waiting(agent) {
        Some(count) => count,
        None => 0,
    }
}

/// Whether an agent of the board is notified of the changes of a domain of the board.
fn is_subscribed(core: &Core, agent: u32, domain: u32) -> bool
    requires agent { IsAgent (length core.now.board.agents) agent }
    requires domain { domain < length core.now.board.domains }
    ensures { result ≡ is_subscriber_after core.now.board agent domain core.now.history }
{
    match core.is_subscribed(agent, domain) {
        Some(subscribed) => subscribed,
        None => false,
    }
}

/// For whom the first of these sets wants a delayed response.
fn responds_to(sets: &[PendingSet]) -> Option<u32>
    ensures { result ≡ responds_to sets.now }
{
    match sets {
        [set, ..] if set.wanted => Some(set.agent),
        _ => None,
    }
}

/// Whether a delayed response is for an agent.
fn is_for(responds_to: Option<u32>, agent: u32) -> bool
    ensures { result ≡ is_for responds_to agent }
{
    match responds_to {
        Some(to) => to == agent,
        None => false,
    }
}
