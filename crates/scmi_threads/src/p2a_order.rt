//! The order to take messages.

use crate::limits::TURNS;
use crate::script_run::ScriptRun;
use crate::stop::Stop;
use scmi_ends::Pause;
use scmi_link::{Channel, Line};
use std::sync::Wait;

impl<'a, C: Channel> ScriptRun<'a, C> {
    ghost use Rattle.std.specs.Prelude.{◌≡◌, ◌<◌, vec_len, vec_capacity, IsTrue};
    ghost use Rattle.scmi_link.specs.View.{one_more};
    ghost use Rattle.scmi_link.specs.declared.order.Order.TheVariants as order;
    ghost use Rattle.scmi_threads.specs.Logs.{IsSameLog};
    ghost use Rattle.scmi_threads.specs.Orders.{HasDone, HasLookedFor, HasTaken, IsUnmoved, TakesOne, stop_of};
    ghost use Rattle.scmi_threads.specs.ScriptRuns.{HasRun};

    /// Takes this many P2A messages, and notes each.
    pub(crate) fn take_messages<R: Wait>(&mut self, rt: &R, count: u32) -> Result<(), Stop>
        ensures ran { HasRun self.old self.new }
        ensures done { HasDone C.FULL (order.P2a count)
            (stop_of result) self.old.end.caller self.new.end.caller self.old.log self.new.log }
    {
        'messages: for _taken in 0..count {
            self.take_message(rt)?;
        }
        Ok(())
    }

    // Polls for a message, at most `TURNS` times, and notes it.
    fn take_message<R: Wait>(&mut self, rt: &R) -> Result<(), Stop>
        ensures ran { HasRun self.old self.new }
        ensures unmoved { IsUnmoved self.old.end.caller self.new.end.caller self.old.log
            self.new.log }
        ensures taken { HasTaken self.old.end.caller.closed result self.old.log self.new.log }
        ensures looks { HasLookedFor result self.old.log self.new.log }
    {
        self.log.reserve_message()?;
        let mut pause = Pause::on(self.processors);
        'turns: for _ in 0..TURNS {
            if self.look() {
                return Ok(());
            }
            pause.wait(rt);
        }
        self.log.note(Line::Limit);
        Err(Stop::Limit)
    }

    // Polls once for a message, counts that, and notes the message, for which there is room.
    // Returns whether one came.
    #[tactic(auto, using(crate::proofs::ClosesLemmas::takes_open, crate::proofs::Looking::look_counted))]
    fn look(&mut self) -> bool
        requires p2a { vec_len self.old.log.p2a < vec_capacity self.old.log.p2a }
        requires lines { vec_len self.old.log.lines < vec_capacity self.old.log.lines }
        ensures ran { HasRun self.old self.new }
        ensures unmoved { IsUnmoved self.old.end.caller self.new.end.caller self.old.log
            self.new.log }
        ensures counted { self.new.log.message_looks ≡ one_more self.old.log.message_looks }
        ensures taken { IsTrue result →
            TakesOne self.old.end.caller.closed self.old.log self.new.log }
        ensures none { ¬ (IsTrue result) → (self.new.log.p2a ≡ self.old.log.p2a) ×
            (self.new.log.lines ≡ self.old.log.lines) }
    {
        self.log.message_looks = self.log.message_looks.wrapping_add(1);
        match self.end.next_p2a(self.link) {
            Some(frame) => {
                self.log.note_message(frame);
                true
            }
            None => false,
        }
    }
}
