//! A device of a board.
ghost use Rattle.std.specs.Prelude.{◌≡◌};
ghost use Rattle.scmi_plan.specs.Board.{IsPossible, held_also, holds, nothing_held};

use crate::mask::with_bit;
use crate::resource::Resource;

/// A set of domains and clocks, bit i for domain or clock i.
#[derive(Clone, Copy, PartialEq, Eq, Debug)]
pub struct Device {
    pub domains: u32,
    pub clocks: u32,
}

impl Device {
    /// None.
    pub(crate) fn nothing() -> Device
        ensures { result ≡ nothing_held }
    {
        Device {
            domains: 0,
            clocks: 0,
        }
    }

    /// Holds one domain or clock more.
    pub(crate) fn add(&mut self, resource: Resource)
        requires { IsPossible resource }
        ensures { self.new ≡ held_also self.old resource }
    {
        match resource {
            Resource::Domain(domain) => self.domains = with_bit(self.domains, domain),
            Resource::Clock(clock) => self.clocks = with_bit(self.clocks, clock),
        }
    }

    /// Whether it holds a domain or clock.
    pub(crate) fn holds(&self, resource: Resource) -> bool
        requires { IsPossible resource }
        ensures { result ≡ holds self.now resource }
    {
        match resource {
            Resource::Domain(domain) => (self.domains >> domain) & 1 == 1,
            Resource::Clock(clock) => (self.clocks >> clock) & 1 == 1,
        }
    }
}
