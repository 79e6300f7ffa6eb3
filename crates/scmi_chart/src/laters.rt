//! Whose last command takes effect later.
ghost use Rattle.std.specs.Prelude.{◌≡◌, IfOk, false, get_or, set};
ghost use Rattle.scmi_chart.specs.Shown.{none_later};

use std::alloc::{AllocError, Global};
use std::marker::Model;

/// How many lifelines there may be.
pub const LANES: usize = 256;

/// Of each lifeline, whether its agent's last command takes effect later.
#[derive(Drop)]
pub(crate) struct Laters {
    laters: Vec<bool>,
}

impl Model for Laters {
    ghost use Rattle.std.specs.Prelude.{◌≡◌, List, Bool, length};
    ghost use Rattle.scmi_chart.specs.declared.laters.TheConstants.{LANES};

    ghost Value = { List Bool };

    ghost view = { λ l. l.laters.items };

    ghost invariant = { λ l. length l.laters.items ≡ LANES };
}

impl Laters {
    /// No agent has posted a command.
    pub fn new(alloc: Global) -> Result<Laters, AllocError>
        ensures { IfOk result (λ laters. laters ≡ none_later) }
    {
        let laters = vec![in alloc; false; LANES]?;
        Ok(Laters { laters })
    }

    /// The agent posted a command, which takes effect later or at once.
    pub fn post(&mut self, agent: u8, is_later: bool)
        ensures { self.new ≡ set self.old agent is_later }
    {
        self.laters[usize::from(agent)] = is_later;
    }

    /// Whether the last command of the agent takes effect later.
    pub fn is_later(&self, agent: u8) -> bool
        ensures { result ≡ get_or self.now agent false }
    {
        self.laters[usize::from(agent)]
    }
}
