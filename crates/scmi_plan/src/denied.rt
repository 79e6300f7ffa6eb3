//! What is denied to agents from the start.
ghost use Rattle.std.specs.Prelude.{◌≡◌};
ghost use Rattle.scmi_plan.specs.Agent.{IsAgent};
ghost use Rattle.scmi_plan.specs.Board.{denied_also, masks_with, nothing_denied};
ghost use Rattle.scmi_plan.specs.declared.limits.TheConstants.{AGENTS};

use crate::limits::AGENTS;
use crate::scope::Scope;

/// The devices that are denied to each agent from 1 on, as a whole and for each protocol: bit d of a
/// mask is for device d (own).
#[derive(Clone, Copy, PartialEq, Eq, Debug, Drop)]
pub struct Denied {
    pub devices: [u32; AGENTS],
    pub power: [u32; AGENTS],
    pub clocks: [u32; AGENTS],
}

impl Denied {
    /// No device is denied to any agent.
    pub(crate) fn nothing() -> Denied
        ensures { result ≡ nothing_denied }
    {
        Denied {
            devices: [0; AGENTS],
            power: [0; AGENTS],
            clocks: [0; AGENTS],
        }
    }

    /// Denies an agent devices, or a protocol on them.
    pub(crate) fn deny(&mut self, agent: u32, devices: u32, scope: Scope)
        requires { IsAgent AGENTS agent }
        ensures { self.new ≡ denied_also self.old agent devices scope }
    {
        match scope {
            Scope::Device => add_bits(&mut self.devices, agent, devices),
            Scope::Power => add_bits(&mut self.power, agent, devices),
            Scope::Clock => add_bits(&mut self.clocks, agent, devices),
        }
    }
}

/// Adds devices to the mask of an agent.
fn add_bits(masks: &mut [u32; AGENTS], agent: u32, devices: u32)
    requires { IsAgent AGENTS agent }
    ensures { masks.new ≡ masks_with masks.old agent devices }
{
    let place = agent as usize - 1;
    masks[place] = masks[place] | devices;
}
