//! The notifications to subscribers of a domain's state.
ghost use Rattle.std.specs.Prelude.{◌≡◌, ◌≢◌, ◌≤◌, ◌<◌, ℕ, false, IfSome};
ghost use Rattle.scmi_plan.specs.Agent.{IsAgent};
ghost use Rattle.scmi_plan.specs.declared.limits.TheConstants.{AGENTS, DOMAINS};
ghost use Rattle.scmi_power.specs.PowerTable.{is_subscribed};
ghost use Rattle.scmi_core.specs.Outboxes.{Gets, HasSameOutbox};
ghost use Rattle.scmi_core.specs.Step.{told_at, announced_at, SameButOutboxes};
ghost use Rattle.scmi_core.specs.Tables.{load_at};

use crate::outboxes::OUTBOX_ROOM;
use crate::tables::Tables;

impl Tables {
    /// Notifies subscribers of a domain's state that was set, if it differs from the one before.
    #[inline(always)]
    pub fn announce(&mut self, agents: u32, causer: u32, changed: Option<(u32, u32)>, differs: bool)
        requires agents { agents ≤ AGENTS }
        requires domain { IfSome changed (λ set. set.0 < DOMAINS) }
        ensures rest { SameButOutboxes self.old self.new }
        ensures told { (a : ℕ) → 1 ≤ a → a ≤ agents → Gets self.old.outboxes self.new.outboxes a
            (announced_at self.old a causer changed differs) }
    {
        if let Some((domain, state)) = changed {
            if differs && self.has_subscribers(domain) {
                self.notify(agents, causer, domain, state);
            }
        }
    }

    /// Notifies the subscribers of a domain of its new state, by rising agent number.
    // Most sets are of a domain without subscribers; they pay nothing for the loop.
    #[inline(never)]
    fn notify(&mut self, agents: u32, causer: u32, domain: u32, state: u32)
        requires agents { agents ≤ AGENTS }
        requires domain { domain < DOMAINS }
        ensures rest { SameButOutboxes self.old self.new }
        ensures told { (a : ℕ) → 1 ≤ a → a ≤ agents → Gets self.old.outboxes self.new.outboxes a
            (told_at self.old a causer domain state) }
    {
        for agent in 0..agents {
            self.tell(agent + 1, causer, domain, state);
        }
    }

    /// Notifies an agent of a domain's new state, if it asked for that and its outbox has room.
    fn tell(&mut self, agent: u32, causer: u32, domain: u32, state: u32)
        requires agent { IsAgent AGENTS agent }
        requires domain { domain < DOMAINS }
        ensures told { Gets self.old.outboxes self.new.outboxes agent
            (told_at self.old agent causer domain state) }
        ensures others { (a : ℕ) → 1 ≤ a → a ≢ agent
            → HasSameOutbox self.old.outboxes self.new.outboxes a }
        ensures rest { SameButOutboxes self.old self.new }
    {
        if self.is_notified(agent, domain) && self.load(agent) < OUTBOX_ROOM {
            self.outboxes
                .put_state_changed(agent, causer, domain, state);
        }
    }

    /// Whether some agent is notified of a domain's changes.
    fn has_subscribers(&self, domain: u32) -> bool
        requires domain { domain < DOMAINS }
        ensures none { result ≡ false → (a : ℕ) → is_subscribed self.now.power a domain ≡ false }
    {
        self.power.subscribers(domain) != 0
    }

    /// Whether an agent is notified of a domain's changes.
    pub fn is_notified(&self, agent: u32, domain: u32) -> bool
        requires agent { IsAgent AGENTS agent }
        requires domain { domain < DOMAINS }
        ensures { result ≡ is_subscribed self.now.power agent domain }
    {
        (self.power.subscribers(domain) >> (agent - 1)) & 1 == 1
    }

    /// The length of an agent's outbox and its pending sets.
    fn load(&self, agent: u32) -> usize
        requires agent { IsAgent AGENTS agent }
        ensures { result ≡ load_at self.now agent }
    {
        self.pending.load(agent, self.outboxes.waiting(agent))
    }
}
