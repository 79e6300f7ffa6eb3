//! A session whose lines are answered one by one.

use crate::listener::Listener;
use crate::live_error::LiveError;
use crate::meant::{Meant, line_meant};
use scmi_link::Channel;
use scmi_modes::{Session, Standing};
use scmi_plan::{Plan, RawPlan};
use scmi_text::{Step, StepLine};
use std::alloc::{AllocError, Global};
use std::marker::Model;

/// A session of a board, whose lines are answered one by one. A contract sees the session.
#[derive(Drop)]
pub(crate) struct Live<'a, C: Channel> {
    alloc: Global,
    board: &'a RawPlan,
    agents: u32,
    session: Session<C>,
    dropped: usize,
}

impl<'a, C: Channel> Model for Live<'a, C> {
    ghost use Rattle.std.specs.Prelude.{◌≡◌, length};
    ghost use Rattle.scmi_plan.specs.RawPlan.{asked_board};
    ghost use Rattle.scmi_live.specs.Live.{LiveView};

    ghost Value = { LiveView };

    ghost view = { λ l. record {
      board = asked_board l.board.now;
      agents = l.agents;
      session = l.session;
    } };

    ghost invariant = { λ l. l.agents ≡ length l.session.agents };
}

impl<'a, C: Channel> Live<'a, C> {
    ghost use Rattle.std.specs.Prelude.{◌≡◌, length, IfErr, IfOk, IsErrOf, OnErr, OnOk};
    ghost use Rattle.scmi_plan.specs.RawPlan.{asked_board};
    ghost use Rattle.scmi_ends.specs.Shut.{ShowsClose};
    ghost use Rattle.scmi_modes.specs.Run.{IsGathered, IsNewSession};
    ghost use Rattle.scmi_text.specs.Step.{IsStepOf};
    ghost use Rattle.scmi_live.specs.Heard.{Gives, MayGive};
    ghost use Rattle.scmi_live.specs.Live.{Answers, AnswersAs, IsStep, MakesStep, StopsAs, StopsAt, StopsStep, at_end, goes_on};
    ghost use Rattle.scmi_live.specs.LiveError.{IsRefused};
    ghost use Rattle.scmi_live.specs.Meant.{IsMeantOf, line_meant};

    /// A session over new channels, of a board of which this is the plan.
    pub(crate) fn open(
        alloc: Global,
        board: &'a RawPlan,
        plan: Plan,
    ) -> Result<Live<'a, C>, AllocError>
        ensures new { IfOk result (λ live. IsNewSession plan live.session) }
        ensures board { IfOk result (λ live. live.board ≡ asked_board board.now) }
        ensures agents { IfOk result (λ live. live.agents ≡ length plan.agents) }
    {
        let session = Session::open(alloc, plan)?;
        let agents = session.core().agents();
        Ok(Live {
            alloc,
            board,
            agents,
            session,
            dropped: 0,
        })
    }

    /// Answers a line: makes the step that it encodes, and gives the listener what came of it, or
    /// what else the line asks for. A line that encodes no step leaves the session as it is. Whether
    /// the session goes on. `Memory` when out of memory, and what the listener gives: then it was
    /// given nothing, or the step with its line. `Write` only at a step.
    pub(crate) fn answer<L: Listener>(
        &mut self,
        number: usize,
        text: &[u8],
        listener: &mut L,
    ) -> Result<bool, LiveError>
        ensures goes_on { IfOk result (λ on. on ≡
            goes_on (line_meant self.old.board self.old.agents text.now)) }
        ensures answers { OnOk result
            (Answers C.FULL (ShowsClose C.caller_view C.close_shows) text.now self.old self.new
            (L.heard listener.old) (L.heard listener.new)) }
        ensures stops { OnErr result
            (StopsAt C.FULL (ShowsClose C.caller_view C.close_shows) text.now self.old self.new
            (L.heard listener.old) (L.heard listener.new)) }
        ensures errors { IfErr result IsRefused }
        ensures write { IsErrOf result LiveError.Write →
            IsStep (line_meant self.old.board self.old.agents text.now) }
    {
        let meant = line_meant(self.alloc, self.board, self.agents, text)?;
        self.act(meant, number, text, listener)
    }

    /// Does what a line means.
    fn act<L: Listener>(
        &mut self,
        meant: Meant,
        number: usize,
        text: &[u8],
        listener: &mut L,
    ) -> Result<bool, LiveError>
        requires { IsMeantOf self.old.agents meant }
        ensures goes_on { IfOk result (λ on. on ≡ goes_on meant) }
        ensures answers { OnOk result
            (AnswersAs C.FULL (ShowsClose C.caller_view C.close_shows) meant self.old self.new
            (L.heard listener.old) (L.heard listener.new)) }
        ensures stops { OnErr result
            (StopsAs C.FULL (ShowsClose C.caller_view C.close_shows) meant self.old self.new
            (L.heard listener.old) (L.heard listener.new)) }
        ensures errors { IfErr result IsRefused }
        ensures write { IsErrOf result LiveError.Write → IsStep meant }
    {
        match meant {
            Meant::Nothing => Ok(true),
            Meant::Describe(on) => {
                listener.describe(on);
                Ok(true)
            }
            Meant::Help => {
                listener.help(text);
                Ok(true)
            }
            Meant::Quit => {
                listener.quit();
                Ok(false)
            }
            Meant::Does(step) => {
                self.make(&step, listener)?;
                Ok(true)
            }
            Meant::Unknown => {
                listener.unknown(number, text);
                Ok(true)
            }
        }
    }

    /// Makes a step, gives it to the listener with its line, and reports the notifications that it
    /// dropped.
    fn make<L: Listener>(&mut self, step: &Step, listener: &mut L) -> Result<(), LiveError>
        requires { IsStepOf self.old.agents step.now }
        ensures makes { OnOk result
            (MakesStep C.FULL (ShowsClose C.caller_view C.close_shows) step.now self.old self.new
            (L.heard listener.old) (L.heard listener.new)) }
        ensures stops { OnErr result
            (StopsStep C.FULL (ShowsClose C.caller_view C.close_shows) step.now self.old self.new
            (L.heard listener.old) (L.heard listener.new)) }
        ensures errors { IfErr result IsRefused }
    {
        let before = Standing::of(self.session.core());
        let line = self.session.step(step)?;
        listener.took(step, &line)?;
        self.report(&before, listener)?;
        Ok(())
    }

    /// Reports each notification that was dropped since, and counts it.
    fn report<L: Listener>(&mut self, before: &Standing, listener: &mut L) -> Result<(), AllocError>
        ensures same { self.new ≡ self.old }
        ensures kept { L.heard listener.new ≡ L.heard listener.old }
    {
        let dropped = before.dropped(self.alloc, self.session.core())?;
        'notifications: for notification in &dropped {
            listener.dropped(notification.agent, notification.domain);
        }
        self.dropped = self.dropped.saturating_add(dropped.len());
        Ok(())
    }

    /// Ends the session: gathers all endpoints, and gives the listener the length of the history.
    pub(crate) fn end<L: Listener>(self, listener: &mut L) -> Result<(), LiveError>
        ensures gathered { IsGathered self.entry.session }
        ensures heard { OnOk result (Gives (L.heard listener.old) (L.heard listener.new)
            (at_end self.entry.session)) }
        ensures stops { OnErr result (MayGive (L.heard listener.old) (L.heard listener.new)
            (at_end self.entry.session)) }
        ensures errors { IfErr result IsRefused }
    {
        let dropped = self.dropped;
        let events = self.session.retire().len();
        listener.ended(&StepLine::Trace { events }, dropped)
    }
}
