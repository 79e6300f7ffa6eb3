//! The commands of a record that are answered later.
ghost use Rattle.std.specs.Prelude.{◌≡◌};

use scmi_codec::{Answer, Frame};

/// The most commands that are outstanding at once.
pub const OUTSTANDING: usize = 8;

/// A command of an agent that waits for its answer in a record.
#[derive(Drop)]
pub(crate) struct Outstanding {
    pub agent: u32,
    pub frame: Frame,
    // What it got, if it was executed.
    pub answer: Option<Answer>,
}

impl Outstanding {
    /// The same command again. It takes no memory.
    pub fn copy(&self) -> Outstanding
        ensures { result ≡ self.now }
    {
        Outstanding {
            agent: self.agent,
            frame: self.frame.copy(),
            answer: match &self.answer {
                Some(answer) => Some(answer.copy()),
                None => None,
            },
        }
    }
}
