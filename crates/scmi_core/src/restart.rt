//! What is left of an agent that restarted without the platform.
ghost use Rattle.scmi_plan.specs.Agent.{IsAgent};
ghost use Rattle.scmi_plan.specs.declared.limits.TheConstants.{AGENTS};
ghost use Rattle.scmi_core.specs.Step.{HasRestarted};

use crate::tables::Tables;

impl Tables {
    /// Ends the requests for notifications of an agent that restarted, drops its messages, and takes
    /// back its wish for delayed responses to its pending sets.
    pub fn restart(&mut self, agent: u32)
        requires agent { IsAgent AGENTS agent }
        ensures { HasRestarted agent self.old self.new }
    {
        self.power.reset(agent);
        self.pending.forget_wishes(agent);
        self.outboxes.clear(agent);
    }
}
