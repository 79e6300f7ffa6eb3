//! One yes or no for each agent and device.
ghost use Rattle.std.specs.Prelude.{◌≡◌, ◌≤◌, ◌<◌, ◌==◌, ◌&&◌, ◌↔◌, ℕ, true, if◌then◌else◌};
ghost use Rattle.std.specs.Int.{bit_at};
ghost use Rattle.scmi_base.specs.PermissionTable.{entry};
ghost use Rattle.scmi_plan.specs.Agent.{IsAgent};
ghost use Rattle.scmi_plan.specs.declared.limits.TheConstants.{AGENTS, DEVICES};

use scmi_plan::{AGENTS, with_bit, without_bit};
use std::marker::Model;

/// A mask for each agent from 1 on, of the devices with no: bit d is for device d.
#[derive(Drop, Debug)]
pub(crate) struct PermissionTable {
    denied: [u32; AGENTS],
}

impl Model for PermissionTable {
    ghost use Rattle.std.specs.Prelude.{ℕ, List, length, ◌≡◌};
    ghost use Rattle.scmi_plan.specs.declared.limits.TheConstants.{AGENTS};

    ghost Value = { List ℕ };

    ghost view = { λ t. t.denied };

    ghost invariant = { λ t. length t.denied ≡ AGENTS };
}

impl PermissionTable {
    /// The table of these masks.
    pub(crate) fn of(denied: &[u32; AGENTS]) -> PermissionTable
        ensures { result ≡ denied.now }
    {
        PermissionTable { denied: *denied }
    }

    /// Becomes the same as another table.
    pub(crate) fn copy_from(&mut self, other: &PermissionTable)
        ensures { self.new ≡ other.now }
    {
        self.denied = other.denied;
    }

    /// Whether another table is the same.
    pub(crate) fn is_same(&self, other: &PermissionTable) -> bool
        ensures { (result ≡ true) ↔ (self.now ≡ other.now) }
    {
        self.denied == other.denied
    }

    /// The devices with yes for an agent, bit d for device d.
    pub(crate) fn devices(&self, agent: u32) -> u32
        requires agent { IsAgent AGENTS agent }
        ensures { (d : ℕ) → d < DEVICES → (bit_at result d == 1) ≡ entry self.now agent d }
    {
        others(self.denied[agent as usize - 1])
    }

    pub(crate) fn set(&mut self, agent: u32, device: u32, allow: bool)
        requires agent { IsAgent AGENTS agent }
        requires device { device < DEVICES }
        ensures { (a d : ℕ) → 1 ≤ a → d < DEVICES → entry self.new a d
            ≡ (if agent == a && device == d then allow else entry self.old a d) }
    {
        let place = agent as usize - 1;
        let denied = with_device(self.denied[place], device, allow);
        self.denied[place] = denied;
    }

    /// Sets yes for an agent on every device.
    pub(crate) fn allow(&mut self, agent: u32)
        requires agent { IsAgent AGENTS agent }
        ensures { (a d : ℕ) → 1 ≤ a → d < DEVICES → entry self.new a d
            ≡ (if agent == a then true else entry self.old a d) }
    {
        self.denied[agent as usize - 1] = 0;
    }

    /// Gives an agent the mask that it has in others.
    pub(crate) fn begin_again(&mut self, agent: u32, denied: &[u32; AGENTS])
        requires agent { IsAgent AGENTS agent }
        ensures { (a d : ℕ) → 1 ≤ a → d < DEVICES → entry self.new a d
            ≡ (if agent == a then entry denied.now a d else entry self.old a d) }
    {
        let place = agent as usize - 1;
        self.denied[place] = denied[place];
    }
}

/// A mask of the devices with no, with one device set, and every other as it was.
fn with_device(denied: u32, device: u32, allow: bool) -> u32
    requires { device < DEVICES }
    ensures { (d : ℕ) → d < DEVICES → (bit_at result d == 0)
        ≡ (if device == d then allow else (bit_at denied d == 0)) }
{
    if allow {
        without_bit(denied, device)
    } else {
        with_bit(denied, device)
    }
}

/// The devices that a mask does not have.
fn others(mask: u32) -> u32
    ensures { (d : ℕ) → d < DEVICES → (bit_at result d == 1) ≡ (bit_at mask d == 0) }
{
    !mask
}
