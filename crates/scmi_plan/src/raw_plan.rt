//! A board as it was written down, before any rule was checked.
ghost use Rattle.std.specs.Prelude.{◌≡◌, ◌≤◌, ◌↔◌, ◌^◌, length, Err, IfOk, IfErr};

use crate::device::Device;
use crate::plan_error::PlanError;
use crate::rates::Rates;

/// A power domain as it was written down.
#[derive(Debug, Drop)]
pub struct RawDomain {
    pub name: String,
    pub on: bool,
    pub synchronous: bool,
    pub asynchronous: bool,
    pub notify: bool,
}

/// A clock as it was written down; `rate` is its starting rate in Hz.
#[derive(Debug, Drop)]
pub struct RawClock {
    pub name: String,
    pub enabled: bool,
    pub rate: u64,
    pub rates: Rates,
}

/// A board as it was written down. Agents are numbered from 1, all else from 0.
#[derive(Debug, Drop)]
pub struct RawPlan {
    pub vendor: String,
    pub sub_vendor: String,
    pub version: u32,
    pub trusted: u32,
    pub agents: Vec<String>,
    pub domains: Vec<RawDomain>,
    pub clocks: Vec<RawClock>,
    pub devices: Vec<Device>,
}

impl RawPlan {
    /// How many agents it names. `Count` for 2^32 or more, the only error.
    pub fn agent_count(&self) -> Result<u32, PlanError>
        ensures agents { IfOk result (λ agents. agents ≡ length self.now.agents.items) }
        ensures count { (result ≡ Err PlanError.Count) ↔ (2 ^ 32 ≤ length self.now.agents.items) }
        ensures errors { IfErr result (λ e. e ≡ PlanError.Count) }
    {
        u32::try_from(self.agents.len()).map_err(|_| PlanError::Count)
    }
}
