//! The order to call.
ghost use Rattle.std.specs.Prelude.{◌≡◌, ◌<◌, ◌++◌, ◌∷◌, [], false, length, vec_len, vec_capacity, IfOk, IfErr, OnOk, OnErr};
ghost use Rattle.scmi_link.specs.View.{knows_close};
ghost use Rattle.scmi_link.specs.Lines.{IsOfCall, answer_line};
ghost use Rattle.scmi_threads.specs.Orders.{ending};

use crate::limits::TURNS;
use crate::script_run::ScriptRun;
use crate::stop::Stop;
use scmi_codec::{Answer, Frame, Header, Message, Payload, payload_of};
use scmi_ends::Pause;
use scmi_link::{Channel, Collected, Line, PostError};
use std::sync::Wait;

/// The line of a call with this answer.
fn line_of(answer: &Answer) -> Line
    ensures { result ≡ answer_line answer.now }
{
    match answer {
        Answer::Reply(message) => Line::Got(payload_of(message.payload.as_slice())),
        // The platform never gives a command this answer: a release is what an agent answers on
        // P2A.
        Answer::Released => Line::Got(payload_of(&[])),
        Answer::ChannelError => Line::Error,
    }
}

/// Whether a call with this line ends its script, and why.
fn ending_of(line: &Line) -> Result<(), Stop>
    ensures { result ≡ ending line.now }
{
    match line {
        Line::Limit => Err(Stop::Limit),
        _ => Ok(()),
    }
}

impl<'a, C: Channel> ScriptRun<'a, C> {
    ghost use Rattle.std.specs.Prelude.{◌≡◌, ◌<◌, ◌++◌, ◌∷◌, [], List, false, length, vec_len, vec_capacity, IfOk, IfErr, OnOk, OnErr};
    ghost use Rattle.scmi_codec.specs.declared.frame.Frame.{Frame};
    ghost use Rattle.scmi_link.specs.View.{knows_close};
    ghost use Rattle.scmi_link.specs.Lines.{IsOfCall};
    ghost use Rattle.scmi_link.specs.declared.order.Order.TheVariants as order;
    ghost use Rattle.scmi_threads.specs.Logs.{IsSameLog};
    ghost use Rattle.scmi_threads.specs.Orders.{HasAsked, HasAwaited, HasDone, HasWaited, IsAtRest, IsRefusal, IsUndisturbed, LeavesRest, stop_of};
    ghost use Rattle.scmi_threads.specs.Parts.{command};
    ghost use Rattle.scmi_threads.specs.ScriptRuns.{HasRun};
    ghost use Rattle.scmi_threads.specs.declared.stop.Stop.TheVariants as stop;

    /// Posts a command, waits for its reply, and notes what came of it.
    pub(crate) fn call<R: Wait>(
        &mut self,
        rt: &R,
        protocol: u8,
        id: u8,
        payload: &Payload,
    ) -> Result<(), Stop>
        ensures ran { HasRun self.old self.new }
        ensures done { IsUndisturbed self.new.end.caller → IsAtRest self.old.log →
            HasDone C.FULL (order.Call protocol id payload.now)
            (stop_of result) self.old.end.caller self.new.end.caller self.old.log self.new.log }
    {
        self.log.reserve_line()?;
        let line = self.ask(rt, protocol, id, payload)?;
        let ended = ending_of(&line);
        self.log.note(line);
        ended
    }

    /// Makes room in the log, posts a command, and waits for its reply. Gives the line that reports
    /// what came of it.
    #[tactic(auto, using(crate::proofs::Looking::waited_since))]
    pub(crate) fn ask<R: Wait>(
        &mut self,
        rt: &R,
        protocol: u8,
        id: u8,
        payload: &Payload,
    ) -> Result<Line, Stop>
        ensures ran { HasRun self.old self.new }
        ensures lines { self.new.log.lines ≡ self.old.log.lines }
        ensures of_call { IfOk result IsOfCall }
        ensures asked { IsUndisturbed self.new.end.caller → IsAtRest self.old.log →
            IfOk result (λ line.
            HasAsked C.FULL self.old.end.caller.closed
            (command (length self.old.log.posted.items) protocol id payload.now) line self.old.log
            self.new.log) }
        ensures rest { LeavesRest self.old.end.caller self.new.end.caller self.old.log
            self.new.log }
        ensures same { OnErr result (IsSameLog self.old.log self.new.log) }
        ensures errors { IfErr result (λ why. why ≡ stop.Memory) }
    {
        self.log.reserve_call()?;
        match self.post_command(protocol, id, payload) {
            Ok(()) => Ok(self.await_reply(rt)),
            Err(refusal) => Ok(Line::NotPosted(refusal)),
        }
    }

    // Posts a command, and notes it, for which there is room.
    #[tactic(auto, using(crate::proofs::TokenLemmas::next_push, crate::proofs::ClosesLemmas::stays_open, crate::proofs::ClosesLemmas::is_refused, crate::proofs::Answered::before_post, crate::proofs::Looking::post_looks))]
    fn post_command(&mut self, protocol: u8, id: u8, payload: &Payload) -> Result<(), PostError>
        requires { vec_len self.old.log.posted < vec_capacity self.old.log.posted }
        ensures ran { HasRun self.old self.new }
        ensures unclosed { OnOk result (self.new.end.caller.closed ≡ false) }
        ensures same { (self.new.log.read ≡ self.old.log.read) ×
            (self.new.log.lines ≡ self.old.log.lines) ×
            (self.new.log.reply_looks ≡ self.old.log.reply_looks) }
        ensures posted { OnOk result
            (self.new.log.posted.items ≡ self.old.log.posted.items ++ command
            (length self.old.log.posted.items) protocol id payload.now ∷ []) }
        ensures not_posted { OnErr result (self.new.log.posted.items ≡ self.old.log.posted.items) }
        ensures refusal { IfErr result (λ error.
            IsUndisturbed self.new.end.caller → IsAtRest self.old.log →
            IsRefusal C.FULL self.old.end.caller.closed error) }
        ensures rest { LeavesRest self.old.end.caller self.new.end.caller self.old.log
            self.new.log }
    {
        let token = self.end.call(self.link, protocol, id, payload)?;
        let header = Header::command(protocol, token, id);
        let payload = payload_of(payload.as_slice());
        self.log
            .note_posted(Frame::Good(Message { header, payload }));
        Ok(())
    }

    // Waits for the reply, counts the polls, and notes it, for which there is room. Gives the line
    // that reports it.
    #[tactic(auto, using(crate::proofs::ClosesLemmas::has_waited, crate::proofs::Answered::before_wait, crate::proofs::Answered::answer_read, crate::proofs::Looking::has_waited, crate::proofs::Looking::wait_counted))]
    fn await_reply<R: Wait>(&mut self, rt: &R) -> Line
        requires room { vec_len self.old.log.read < vec_capacity self.old.log.read }
        requires unclosed { self.old.end.caller.closed ≡ false }
        ensures ran { HasRun self.old self.new }
        ensures lines { self.new.log.lines ≡ self.old.log.lines }
        ensures of_call { IsOfCall result }
        ensures awaited { (frames : List Frame) (command : Frame)
            → self.old.log.posted.items ≡ frames ++ command ∷ []
            → length frames ≡ length self.old.log.read.items → IsUndisturbed self.new.end.caller
            → HasAwaited command result self.old.log.read.items self.new.log.read.items }
        ensures waited { HasWaited result self.old.log self.new.log }
        ensures posted { self.new.log.posted ≡ self.old.log.posted }
        ensures rest { LeavesRest self.old.end.caller self.new.end.caller self.old.log
            self.new.log }
    {
        let pause = Pause::on(self.processors);
        let waited = self.end.wait_counted(rt, self.link, TURNS, pause);
        self.log.reply_looks = self.log.reply_looks.wrapping_add(u64::from(waited.looks));
        match waited.answer {
            Collected::Got(answer) => {
                let line = line_of(&answer);
                self.log.note_read(answer);
                line
            }
            Collected::Closed => Line::Closed,
            Collected::Nothing => Line::Limit,
        }
    }
}
