//! Which kinds of steps a script may have.
ghost use Rattle.std.specs.Prelude.{◌≡◌, OnOk};
ghost use Rattle.scmi_board.specs.LineError.{Gives};
ghost use Rattle.scmi_text.specs.StepText.{with_hardware};

use scmi_board::LineError;

/// Which kinds of steps a script may have: those without hardware and restarts, or all.
#[derive(Clone, Copy, PartialEq, Eq, Debug)]
pub(crate) enum StepKinds {
    WithoutHardware,
    All,
}

impl StepKinds {
    /// `Form` if a script of these kinds has no step beside hardware, and no restart.
    pub fn need_hardware(self) -> Result<(), LineError>
        ensures allowed { OnOk result (self ≡ StepKinds.All) }
        ensures hardware { Gives (λ _. tt) result (with_hardware self) }
    {
        match self {
            StepKinds::WithoutHardware => Err(LineError::Form),
            StepKinds::All => Ok(()),
        }
    }
}
