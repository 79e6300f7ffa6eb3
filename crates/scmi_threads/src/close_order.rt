//! The order to close.

use crate::script_run::ScriptRun;
use crate::stop::Stop;
use scmi_link::{Channel, Line};

impl<'a, C: Channel> ScriptRun<'a, C> {
    ghost use Rattle.std.specs.Prelude.{◌≡◌};
    ghost use Rattle.scmi_link.specs.declared.order.Order.TheVariants as order;
    ghost use Rattle.scmi_threads.specs.Orders.{HasDone, IsAtRest, IsUndisturbed, stop_of};
    ghost use Rattle.scmi_threads.specs.ScriptRuns.{HasRun};

    /// Closes the agent's endpoint, and notes how, or that it was refused.
    #[tactic(auto, using(crate::proofs::ClosesLemmas::closes_idle, crate::proofs::ClosesLemmas::closes_withdrawn, crate::proofs::ClosesLemmas::is_shut, crate::proofs::Looking::close_looks))]
    pub(crate) fn close(&mut self) -> Result<(), Stop>
        ensures ran { HasRun self.old self.new }
        ensures done { IsAtRest self.old.log →
            HasDone C.FULL order.Close
            (stop_of result) self.old.end.caller self.new.end.caller self.old.log self.new.log }
    {
        self.log.reserve_line()?;
        match self.end.close(self.link) {
            Ok(closing) => self.log.note_closing(closing),
            Err(refusal) => self.log.note(Line::NotClosed(refusal)),
        }
        Ok(())
    }
}
