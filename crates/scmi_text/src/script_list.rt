//! Scripts of agents, gathered line by line.
ghost use Rattle.std.specs.Prelude.{◌≡◌, ℕ, nat_eq, []};
ghost use Rattle.std.specs.List.{All, list_any, IsDistinct};
ghost use Rattle.std.specs.Ordering.{nat_cmp};
ghost use Rattle.std.specs.BTreeSet.{contains};
ghost use Rattle.std.proofs.Props.{props};
ghost use Rattle.scmi_plan.specs.Agent.{IsAgent};
ghost use Rattle.scmi_board.specs.LineError.{GivesUnless};
ghost use Rattle.scmi_text.specs.ScriptText.{scripts_of, with_order, with_script};
ghost use Rattle.scmi_text.specs.Scripts.{agents_of, AreOfDistinctAgents};

use scmi_board::LineError;
use scmi_link::{Order, Script};
use std::alloc::Global;
use std::collections::BTreeSet;

/// The scripts that were begun, the last of which is being read: each is of an agent of the board, and
/// no two are of one agent.
#[derive(Drop)]
pub(crate) struct ScriptList {
    agents: u32,
    scripts: Vec<Script>,
    // The agents of the scripts, so that a second script is found without going through them.
    begun: BTreeSet<u32>,
    ghost within: { All (IsAgent agents) (agents_of scripts.items) },
    ghost begun_are: { (agent : ℕ) →
        contains nat_cmp begun agent ≡ list_any (nat_eq agent) (agents_of scripts.items) },
    ghost distinct: { AreOfDistinctAgents scripts.items } by { Prim.hlevel props },
}

impl ScriptList {
    /// No script, for a board of this many agents.
    pub(crate) fn new(alloc: Global, agents: u32) -> ScriptList
        ensures agents { result.agents ≡ agents }
        ensures none { result.scripts.items ≡ [] }
    {
        ScriptList {
            agents,
            scripts: Vec::new(alloc),
            begun: BTreeSet::new(alloc),
        }
    }

    /// The number of the board's agents.
    pub(crate) fn agents(&self) -> u32
        ensures { result ≡ self.now.agents }
    {
        self.agents
    }

    /// Begins the script of an agent of the board. `Form` if it was begun before.
    pub(crate) fn begin(&mut self, alloc: Global, agent: u32) -> Result<(), LineError>
        requires { IsAgent self.old.agents agent }
        ensures agents { self.new.agents ≡ self.old.agents }
        ensures script { GivesUnless (λ _. scripts_of self.new.scripts.items) result
            (with_script (scripts_of self.old.scripts.items) agent) }
    {
        self.scripts.reserve(1)?;
        let Ok(is_first) = self.begun.insert(agent) else {
            return Err(LineError::Memory);
        };
        if !is_first {
            return Err(LineError::Form);
        }
        self.scripts.push_reserved(Script {
            agent,
            lines: Vec::new(alloc),
        });
        Ok(())
    }

    /// Adds an order at the end of the script that was begun last. `Form` if no script was begun.
    pub(crate) fn add(&mut self, order: Order) -> Result<(), LineError>
        ensures agents { self.new.agents ≡ self.old.agents }
        ensures order { GivesUnless (λ _. scripts_of self.new.scripts.items) result
            (with_order (scripts_of self.old.scripts.items) order) }
    {
        let Some(script) = self.scripts.last_mut() else {
            return Err(LineError::Form);
        };
        let Ok(()) = script.lines.push(order) else {
            return Err(LineError::Memory);
        };
        Ok(())
    }

    /// The scripts in the order in which they were begun.
    pub(crate) fn into_scripts(self) -> Vec<Script>
        ensures within { All (IsAgent self.agents) (agents_of result.items) }
        ensures distinct { AreOfDistinctAgents result.items }
        ensures scripts { result.items ≡ self.scripts.items }
    {
        let ScriptList {
            agents: _,
            scripts,
            begun: _,
        } = self;
        scripts
    }
}
