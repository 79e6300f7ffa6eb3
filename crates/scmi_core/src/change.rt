//! What is left of a change that the hardware made.
ghost use Rattle.scmi_plan.specs.Plan.{IsValid};
ghost use Rattle.scmi_core.specs.Step.{HasChanged};
ghost use Rattle.scmi_core.specs.Tables.{IsThing};
ghost use Rattle.scmi_core.specs.Value.{IsReportable, change_reported, given, thing_of};

use crate::tables::Tables;
use scmi_plan::{Effect, Plan};

// The causer of what no agent's command changed.
const PLATFORM: u32 = 0;

impl Tables {
    /// Takes over a change that an agent caused, or the platform, which is 0, and notifies the
    /// subscribers of a domain whose state is another than before.
    #[inline(always)]
    pub fn change(&mut self, plan: &Plan, causer: u32, effect: Effect)
        requires known { IsThing plan.now (thing_of effect) }
        ensures valid { IsValid plan.now }
        ensures changed { HasChanged plan.now (given causer effect) self.old self.new }
    {
        let agents = plan.agents();
        match effect {
            Effect::State { domain, state } => {
                let differs = self.power.complete(domain, state);
                self.announce(agents, causer, Some((domain, state)), differs);
            }
            Effect::Rate { clock, rate } => self.clocks.complete(clock, rate),
            Effect::Enabled { clock, enabled } => self.clocks.set_enabled(clock, enabled),
        }
    }

    /// Takes over a change that the hardware made by itself.
    #[tactic(auto, using(crate::proofs::Reports::reportable_known))]
    pub fn report(&mut self, plan: &Plan, effect: Effect)
        requires reportable { IsReportable plan.now effect }
        ensures valid { IsValid plan.now }
        ensures changed { HasChanged plan.now (change_reported effect) self.old self.new }
    {
        self.change(plan, PLATFORM, effect);
    }
}
