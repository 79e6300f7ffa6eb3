//! The rows of a board, before its rates, devices and trusted agent were checked.
ghost use Rattle.std.specs.Prelude.{◌≡◌, ◌≢◌, ◌↔◌, None, IfSome};
ghost use Rattle.scmi_plan.specs.Plan.{IsValid};
ghost use Rattle.scmi_plan.specs.PlanError.{first_fault};
ghost use Rattle.scmi_plan.specs.declared.plan_error.PlanError.TheVariants.{Memory};

use crate::clock::Clock;
use crate::device::Device;
use crate::domain::Domain;
use crate::fault::{are_valid_clocks, are_valid_devices, is_trusted_agent};
use crate::plan_error::PlanError;
use scmi_codec::Name;
use std::marker::Model;

/// A board of 1 to 8 agents and at most 32 domains, clocks and devices, whose names are valid. Its
/// channels are whole, and nothing is kept or denied. Agents are numbered from 1, all else from 0.
/// If it is loose, names may be empty and have blanks, and a clock may start at a rate that is none
/// of its own.
#[derive(Debug, Drop)]
pub struct BoardRows {
    pub vendor: Name,
    pub sub_vendor: Name,
    pub version: u32,
    pub trusted: u32,
    pub agents: Vec<Name>,
    pub domains: Vec<Domain>,
    pub clocks: Vec<Clock>,
    pub devices: Vec<Device>,
    pub loose: bool,
}

impl Model for BoardRows {
    ghost use Rattle.scmi_plan.specs.Board.{Board};

    ghost Value = { Board };

    ghost use Rattle.scmi_plan.specs.BoardRows.{board_of_rows, AreRows};

    ghost view = { board_of_rows };

    ghost invariant = { AreRows };
}

impl BoardRows {
    /// The first rule that the board breaks.
    #[inline(never)]
    pub(crate) fn fault(&self) -> Option<PlanError>
        ensures fault { result ≡ first_fault self.now }
        ensures rule { IfSome result (λ fault. fault ≢ Memory) }
        ensures rules { (first_fault self.now ≡ None) ↔ IsValid self.now }
    {
        if !are_valid_clocks(&self.clocks, self.loose) {
            Some(PlanError::Rates)
        } else if !are_valid_devices(&self.devices, self.domains.len(), self.clocks.len()) {
            Some(PlanError::Device)
        } else if !is_trusted_agent(self.trusted, self.agents.len()) {
            Some(PlanError::Trusted)
        } else {
            None
        }
    }
}
