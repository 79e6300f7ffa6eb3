//! The mode of a run, which is the first line of the input.
ghost use Rattle.std.specs.Prelude.{◌≡◌, ◌≢◌, IfSome, IfNone};
ghost use Rattle.scmi_modes.specs.Mode.{text_of};
ghost use Rattle.scmi_modes.specs.declared.mode.Mode.{Mode};

use crate::kind::Kind;
use crate::mode_lines::{ONCE, STEPS_RINGS, STEPS_WORDS, THREADS_RINGS, THREADS_WORDS};

/// What a run does with its input.
#[derive(Clone, Copy, Debug, PartialEq, Eq)]
pub enum Mode {
    /// One area in, one area out.
    Once,
    /// A board and a script, all on one thread.
    Steps(Kind),
    /// A board and a script for each agent, each in a thread of its own.
    Threads(Kind),
}

impl Mode {
    /// The mode that a line names, exactly.
    pub fn of_line(line: &[u8]) -> Option<Mode>
        ensures some { IfSome result (λ mode. line.now ≡ text_of mode) }
        ensures none { IfNone result ((mode : Mode) → line.now ≢ text_of mode) }
    {
        if line == ONCE.as_bytes() {
            Some(Mode::Once)
        } else if line == STEPS_RINGS.as_bytes() {
            Some(Mode::Steps(Kind::Rings))
        } else if line == STEPS_WORDS.as_bytes() {
            Some(Mode::Steps(Kind::Words))
        } else if line == THREADS_RINGS.as_bytes() {
            Some(Mode::Threads(Kind::Rings))
        } else if line == THREADS_WORDS.as_bytes() {
            Some(Mode::Threads(Kind::Words))
        } else {
            None
        }
    }
}
