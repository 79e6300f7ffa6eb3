//! The order to wait for a state.
ghost use Rattle.std.specs.Prelude.{◌↔◌, IsTrue};
ghost use Rattle.scmi_threads.specs.Orders.{IsGot, ShowsState};

use crate::limits::CALLS;
use crate::script_run::ScriptRun;
use crate::stop::Stop;
use scmi_codec::{Command, PowerCommand, SUCCESS};
use scmi_link::{Channel, Line};
use std::sync::Wait;

/// Whether the line reports a reply.
fn is_reply(line: &Line) -> bool
    ensures { IsTrue result ↔ IsGot line.now }
{
    matches!(line, Line::Got(_))
}

/// Whether the line reports a reply with status 0 and this state.
fn shows_state(line: &Line, state: u32) -> bool
    ensures { IsTrue result ↔ ShowsState state line.now }
{
    match line {
        Line::Got(reply) => reply.as_slice() == [SUCCESS, state].as_slice(),
        _ => false,
    }
}

impl<'a, C: Channel> ScriptRun<'a, C> {
    ghost use Rattle.std.specs.Prelude.{◌≡◌, ◌∷◌, [], length, IfOk, IfErr, OnErr};
    ghost use Rattle.scmi_link.specs.declared.order.Order.TheVariants as order;
    ghost use Rattle.scmi_threads.specs.Logs.{IsSameLog};
    ghost use Rattle.scmi_threads.specs.Parts.{command};
    ghost use Rattle.scmi_threads.specs.declared.stop.Stop.TheVariants as stop;
    ghost use Rattle.scmi_threads.specs.Orders.{HasAsked, HasDone, HasLooked, IsAtRest, IsUndisturbed, LeavesRest, stop_of};
    ghost use Rattle.scmi_threads.specs.ScriptRuns.{HasRun};

    /// Asks for the state of a power domain until it is this one, and notes whether it came to be.
    pub(crate) fn wait_for_state<R: Wait>(
        &mut self,
        rt: &R,
        domain: u32,
        state: u32,
    ) -> Result<(), Stop>
        ensures ran { HasRun self.old self.new }
        ensures done { IsUndisturbed self.new.end.caller → IsAtRest self.old.log →
            HasDone C.FULL (order.Until domain state)
            (stop_of result) self.old.end.caller self.new.end.caller self.old.log self.new.log }
    {
        self.log.reserve_line()?;
        if self.sees_state(rt, domain, state)? {
            self.log.note(Line::UntilOk);
            return Ok(());
        }
        self.log.note(Line::UntilLimit);
        Err(Stop::Limit)
    }

    // Asks once for the state. Gives the line that reports what came of it.
    fn ask_state<R: Wait>(&mut self, rt: &R, domain: u32) -> Result<Line, Stop>
        ensures ran { HasRun self.old self.new }
        ensures lines { self.new.log.lines ≡ self.old.log.lines }
        ensures asked { IsUndisturbed self.new.end.caller → IsAtRest self.old.log →
            IfOk result (λ line.
            HasAsked C.FULL self.old.end.caller.closed
            (command (length self.old.log.posted.items) 0x11 0x5 (record { items = domain ∷ [] }))
            line self.old.log self.new.log) }
        ensures rest { LeavesRest self.old.end.caller self.new.end.caller self.old.log
            self.new.log }
        ensures same { OnErr result (IsSameLog self.old.log self.new.log) }
        ensures errors { IfErr result (λ why. why ≡ stop.Memory) }
    {
        let command = Command::Power(PowerCommand::Get { domain }).pack(0);
        self.ask(
            rt,
            command.header.protocol(),
            command.header.id(),
            &command.payload,
        )
    }

    // Asks at most `CALLS` times, up to the first call without an answer. Returns whether the last
    // reply is SUCCESS and this state.
    fn sees_state<R: Wait>(&mut self, rt: &R, domain: u32, state: u32) -> Result<bool, Stop>
        ensures ran { HasRun self.old self.new }
        ensures lines { self.new.log.lines ≡ self.old.log.lines }
        ensures rest { LeavesRest self.old.end.caller self.new.end.caller self.old.log
            self.new.log }
        ensures looked { IsUndisturbed self.new.end.caller → IsAtRest self.old.log →
            HasLooked C.FULL self.old.end.caller.closed domain state result self.old.log
            self.new.log }
    {
        'calls: for _calls in 0..CALLS {
            let line = self.ask_state(rt, domain)?;
            if shows_state(&line, state) {
                return Ok(true);
            }
            if !is_reply(&line) {
                return Ok(false);
            }
        }
        Ok(false)
    }
}
