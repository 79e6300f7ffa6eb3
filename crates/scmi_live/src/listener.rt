//! Who is given what happens in a session.

use crate::live_error::LiveError;
use scmi_text::{Step, StepLine};

/// Who is given what happens in a session. A contract sees the steps that it was given as taken,
/// each with its line, and the line at the end.
pub trait Listener {
    ghost use Rattle.std.specs.Prelude.{◌≡◌, [], ◌∷◌, List, Option, Some, None, IfErr, OnErr, OnOk};
    ghost use Rattle.scmi_live.specs.Heard.{Gives, Heard, MayGive};
    ghost use Rattle.scmi_live.specs.LiveError.{IsRefused};

    ghost heard: { Self → Option (List Heard) };

    /// The next line is about to be read.
    fn ready(&mut self)
        ensures { heard self.new ≡ heard self.old };

    /// This step was taken, and gave this line. `Write` if the output fails, `Memory` when out of
    /// memory; then the listener has it or not. The error ends the session.
    fn took(&mut self, step: &Step, line: &StepLine) -> Result<(), LiveError>
        ensures ok { OnOk result (Gives (heard self.old) (heard self.new)
            ((Some step.now, line.now) ∷ [])) }
        ensures err { OnErr result (MayGive (heard self.old) (heard self.new)
            ((Some step.now, line.now) ∷ [])) }
        ensures errors { IfErr result IsRefused };

    /// From here on replies are to be described, or are not.
    fn describe(&mut self, on: bool)
        ensures { heard self.new ≡ heard self.old };

    /// This line asks for help.
    fn help(&mut self, text: &[u8])
        ensures { heard self.new ≡ heard self.old };

    /// A line ends the session.
    fn quit(&mut self)
        ensures { heard self.new ≡ heard self.old };

    /// The line of this number, from 1, encodes nothing, and nothing was done.
    fn unknown(&mut self, number: usize, text: &[u8])
        ensures { heard self.new ≡ heard self.old };

    /// The notification of a domain's state for an agent was dropped, since its outbox had no room.
    fn dropped(&mut self, agent: u32, domain: u32)
        ensures { heard self.new ≡ heard self.old };

    /// The session has ended with this line, and this is how many notifications were dropped in all.
    /// The errors are those of `took`.
    fn ended(&mut self, line: &StepLine, dropped: usize) -> Result<(), LiveError>
        ensures ok { OnOk result
            (Gives (heard self.old) (heard self.new) ((None, line.now) ∷ [])) }
        ensures err { OnErr result
            (MayGive (heard self.old) (heard self.new) ((None, line.now) ∷ [])) }
        ensures errors { IfErr result IsRefused };

    /// The session has ended before its input did, for this reason; `run_live` gives it to its
    /// caller.
    fn failed(&mut self, fault: LiveError)
        ensures { heard self.new ≡ heard self.old };
}
