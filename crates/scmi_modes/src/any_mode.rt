//! The modes that a program takes.
ghost use Rattle.std.specs.Prelude.{◌≡◌, ◌≢◌, IfSome, IfNone};
ghost use Rattle.scmi_modes.specs.AnyMode.{Takes, any_text_of, hardware_text};
ghost use Rattle.scmi_modes.specs.declared.any_mode.AnyMode.{AnyMode};
ghost use Rattle.scmi_modes.specs.declared.kind.Kind.{Kind as KindOf};

use crate::kind::Kind;
use crate::mode::Mode;
use crate::mode_lines::{HARDWARE_RINGS, HARDWARE_WORDS};

/// What a run does with its input, in any of the modes.
#[derive(Clone, Copy, Debug, PartialEq, Eq)]
pub enum AnyMode {
    /// What programs may ask for.
    Plain(Mode),
    /// A board and a script that may have steps beside hardware that refuses, all on one thread.
    Hardware(Kind),
}

/// Which modes a program takes.
#[derive(Clone, Copy, Debug, PartialEq, Eq)]
pub enum Modes {
    /// The five of `Mode` alone.
    Plain,
    /// All, for people.
    ForPeople,
}

impl Modes {
    /// The mode among these that a line names, exactly.
    pub fn of_line(self, line: &[u8]) -> Option<AnyMode>
        ensures some { IfSome result (λ mode. line.now ≡ any_text_of mode) }
        ensures taken { IfSome result (λ mode. Takes self mode) }
        ensures none { IfNone result
            ((mode : AnyMode) → Takes self mode → line.now ≢ any_text_of mode) }
    {
        if let Some(mode) = Mode::of_line(line) {
            return Some(AnyMode::Plain(mode));
        }
        match self {
            Modes::Plain => None,
            Modes::ForPeople => hardware_mode(line),
        }
    }
}

/// The mode `hardware` that a line names, exactly.
fn hardware_mode(line: &[u8]) -> Option<AnyMode>
    ensures some { IfSome result (λ mode. line.now ≡ any_text_of mode) }
    ensures none { IfNone result ((kind : KindOf) → line.now ≢ hardware_text kind) }
{
    if line == HARDWARE_RINGS.as_bytes() {
        Some(AnyMode::Hardware(Kind::Rings))
    } else if line == HARDWARE_WORDS.as_bytes() {
        Some(AnyMode::Hardware(Kind::Words))
    } else {
        None
    }
}
