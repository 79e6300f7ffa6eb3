//! The steps of a script, by its lines.
ghost use Rattle.std.specs.Prelude.{◌≡◌, ◌<◌, get_or, length};
ghost use Rattle.scmi_text.specs.StepList.{HaveSteps, steps_in};

use crate::step::Step;
use crate::step_kinds::StepKinds;
use crate::steps::read_step;
use std::marker::Model;

/// The steps of a script, in order. They are kept as its lines, which are read again as a step is
/// asked for: so a step takes two words, whatever its payload. Contracts see the steps.
#[derive(Drop)]
pub struct StepList<'a> {
    lines: Vec<&'a [u8]>,
    agents: u32,
    kinds: StepKinds,
}

impl<'a> Model for StepList<'a> {
    ghost use Rattle.std.specs.Prelude.{List};
    ghost use Rattle.scmi_text.specs.StepList.{HaveSteps, steps_in};
    ghost use Rattle.scmi_text.specs.declared.step.Step.{Step};

    ghost Value = { List Step };

    ghost view = { λ l. steps_in l.kinds l.agents l.lines.items };

    ghost invariant = { λ l. HaveSteps l.kinds l.agents l.lines.items };
}

impl<'a> StepList<'a> {
    /// The steps of these lines, of a script of these kinds for a board of this many agents.
    pub(crate) fn of(lines: Vec<&'a [u8]>, agents: u32, kinds: StepKinds) -> StepList<'a>
        requires { HaveSteps kinds agents lines.items }
        ensures { result ≡ steps_in kinds agents lines.entry.items }
    {
        StepList {
            lines,
            agents,
            kinds,
        }
    }

    /// The number of steps.
    pub fn len(&self) -> usize
        ensures { result ≡ length self.now }
    {
        self.lines.len()
    }

    /// Makes `step` the step at an index from 0.
    pub fn read_into(&self, index: usize, step: &mut Step)
        requires { index < length self.now }
        ensures { step.new ≡ get_or self.now index step.new }
    {
        // Each line has been read before, so there is no error.
        if let Ok(there) = read_step(self.lines[index], self.agents, self.kinds) {
            *step = there;
        }
    }
}
