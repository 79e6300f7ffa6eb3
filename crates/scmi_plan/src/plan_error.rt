//! Why a board is no plan.
ghost use Rattle.std.specs.Prelude.{◌≡◌};
ghost use Rattle.scmi_plan.specs.PlanError.{number};
ghost use Rattle.scmi_plan.specs.declared.plan_error.PlanError.TheVariants.{Memory};

use std::alloc::{AllocError, AllocFailed};
use thiserror::Error;

/// The first rule that a board breaks, or out of memory (own).
#[derive(Clone, Copy, PartialEq, Eq, Debug, Error)]
pub enum PlanError {
    /// Not 1 to 8 agents, or more than 32 domains, clocks or devices.
    #[error("a board has 1 to 8 agents and at most 32 domains, clocks and devices")]
    Count = 1,
    /// A name of the vendor, sub-vendor, an agent, a domain or a clock is not valid.
    #[error("a name has 1 to 15 bytes, each 0x21 to 0x7E")]
    Name = 2,
    /// A list that does not have 1 to 64 rising rates, steps that are 0 or do not lead from the
    /// lowest rate to the highest, or a starting rate that is not supported.
    #[error("a clock has 1 to 64 rising rates or steps from low to high, and starts at one of them")]
    Rates = 3,
    /// A device holds a domain or clock that the board lacks.
    #[error("a device holds only domains and clocks of the board")]
    Device = 4,
    /// The trusted agent is not an agent of the board.
    #[error("the trusted agent is one of the board's agents")]
    Trusted = 5,
    /// Out of memory; the board keeps every rule.
    #[error("out of memory")]
    Memory = 6,
}

impl PlanError {
    /// The number of the rule, 1 to 5; 6 for `Memory`.
    pub fn number(&self) -> u8
        ensures { result ≡ number self.now }
    {
        *self as u8
    }
}

impl From<AllocError> for PlanError {
    ghost from_gives = { λ _ e. e ≡ Memory };

    fn from(_error: AllocError) -> PlanError {
        PlanError::Memory
    }
}
