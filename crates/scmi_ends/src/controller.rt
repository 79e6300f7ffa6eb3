//! The platform's side of all agents' channels.
ghost use Rattle.std.specs.Prelude.{◌≡◌, ◌≢◌, ◌<◌, ◌++◌, ◌∷◌, ◌↔◌, [], List, None, true, false, length, map, IfOk, OnOk, OnErr, IfErr, IsTrue};
ghost use Rattle.scmi_plan.specs.Agent.{IsAgent, IsNoAgent};
ghost use Rattle.scmi_core.specs.History.{deeds};
ghost use Rattle.scmi_core.specs.Asked.{Asked, IsAsked};
ghost use Rattle.scmi_core.specs.Driven.{HappensOn, HasMade, IsEnd, asks};
ghost use Rattle.scmi_core.specs.Pending.{pending_sets};
ghost use Rattle.scmi_core.specs.declared.event.Event.TheVariants as event;

use crate::buffers::Buffers;
use crate::flush::flush_one;
use crate::link::Link;
use crate::serve::serve_one;
use crate::serve_error::ServeError;
use crate::serve_on::serve_one_on;
use crate::shut::shut_one;
use scmi_core::{Core, Hardware};
use scmi_link::{Channel, Flushed, Served, ShutError};
use std::marker::Model;

/// The platform: its core, and its endpoints of each agent's two channels.
///
/// Condition of each call that is given links: they are the whole list of `connect`, in order.
/// Agents are numbered from 1. Between any two calls the commands taken off each agent's A2P
/// channel are those of the history, each answered as the history requires, and the messages posted
/// on its P2A channel are those delivered to it. No call waits, and `close` takes no memory.
#[derive(Drop)]
pub struct Controller<C: Channel> {
    pub(crate) core: Core,
    pub(crate) callees: Vec<C::Callee>,
    pub(crate) callers: Vec<C::Caller>,
    // After how many events each agent's A2P channel was first closed here, if it was.
    pub(crate) closed_at: Vec<Option<usize>>,
    pub(crate) buffers: Buffers,
}

impl<C: Channel> Model for Controller<C> {
    ghost use Rattle.std.specs.Prelude.{map};
    ghost use Rattle.scmi_ends.specs.ControllerView.{ControllerView};
    ghost use Rattle.scmi_ends.specs.Agreement.{EndsAgree};

    ghost Value = { ControllerView };

    ghost view = { λ platform.
        record {
          board = platform.core.board;
          history = platform.core.history;
          room = platform.core.room;
          callees = map
              C.callee_view platform.callees.items;
          callers = map C.caller_view platform.callers.items;
          closed_at = platform.closed_at.items;
          a2p_identities = map C.callee_identity platform.callees.items;
          p2a_identities = map C.caller_identity platform.callers.items;
        } };

    ghost invariant = { λ platform.
        EndsAgree platform.core.board platform.core.history
        (map C.callee_view platform.callees.items)
        (map C.caller_view platform.callers.items) platform.closed_at.items };
}

impl<C: Channel> Controller<C> {
    ghost use Rattle.scmi_link.specs.View.{callee_knows_close};
    ghost use Rattle.scmi_ends.specs.ControllerView.{callee_of};
    ghost use Rattle.scmi_ends.specs.Links.{HasLinks};
    ghost use Rattle.scmi_ends.specs.Agreement.{IsInStep};
    ghost use Rattle.scmi_ends.specs.Serve.{Serves};
    ghost use Rattle.scmi_ends.specs.ServeOn.{ServesOn};
    ghost use Rattle.scmi_ends.specs.Flush.{Flushes};
    ghost use Rattle.scmi_ends.specs.Shut.{Shuts, ShowsClose};

    /// The platform itself: its board, its history, and its state.
    pub fn core(&self) -> &Core
        ensures board { result.now.board ≡ self.now.board }
        ensures history { result.now.history ≡ self.now.history }
    {
        &self.core
    }

    /// Makes room in the trace, takes one frame off an agent's A2P channel, executes it and answers
    /// it.
    ///
    /// `Done` adds the command to the history, and never comes once the channel is closed.
    /// `Nothing` if the take gave none, and then the history stays. `NoAgent`, checked first, if
    /// the board lacks the agent (own); `Memory` if the trace could not grow. After either nothing
    /// was taken, and nothing changed.
    pub fn serve(&mut self, links: &[Link<C>], agent: u32) -> Result<Served, ServeError>
        requires { HasLinks C.identity links.now self.old }
        ensures links { HasLinks C.identity links.now self.new }
        ensures agrees { IsInStep self.new }
        ensures board { self.new.board ≡ self.old.board }
        ensures serves { IfOk result (λ served. Serves agent self.old served self.new) }
        ensures closed { callee_knows_close (callee_of self.old agent) ≡ true →
            result ≢ Ok Served.Done }
        ensures no_agent { (result ≡ Err ServeError.NoAgent) ↔
            IsNoAgent (length self.old.board.agents) agent }
        ensures memory { result ≡ Err ServeError.Memory → self.old.room ≡ 0 }
        ensures err { OnErr result (self.new ≡ self.old) }
    {
        reserve_for(&mut self.core, agent)?;
        let index = agent as usize - 1;
        Ok(serve_one(
            &mut self.core,
            &links[index].a2p,
            &mut self.callees[index],
            agent,
            &mut self.buffers,
        ))
    }

    /// As `serve`, beside the hardware: what the command changes of it is made first, and if the
    /// hardware refuses that, the command has failed, and its reply is the status of the fault. The
    /// hardware is not asked if the call is refused.
    pub fn serve_on<H: Hardware>(
        &mut self,
        links: &[Link<C>],
        agent: u32,
        hardware: &mut H,
    ) -> Result<Served, ServeError>
        requires { HasLinks C.identity links.now self.old }
        ensures links { HasLinks C.identity links.now self.new }
        ensures agrees { IsInStep self.new }
        ensures board { self.new.board ≡ self.old.board }
        ensures serves { IfOk result (λ served.
            ServesOn agent self.old (H.asked hardware.old) served
            self.new (H.asked hardware.new)) }
        ensures obeyed { H.REFUSES ≡ false → IfOk result (λ served.
            Serves agent self.old served self.new) }
        ensures made { (before : List Asked)
            → HasMade before self.old.board self.old.history (H.asked hardware.old)
            → HasMade before self.new.board self.new.history (H.asked hardware.new) }
        ensures closed { callee_knows_close (callee_of self.old agent) ≡ true →
            result ≢ Ok Served.Done }
        ensures no_agent { (result ≡ Err ServeError.NoAgent) ↔
            IsNoAgent (length self.old.board.agents) agent }
        ensures memory { result ≡ Err ServeError.Memory → self.old.room ≡ 0 }
        ensures err { OnErr result (self.new ≡ self.old) }
        ensures unasked { OnErr result
            (IsAsked (H.asked hardware.old) None (H.asked hardware.new)) }
    {
        reserve_for(&mut self.core, agent)?;
        let index = agent as usize - 1;
        Ok(serve_one_on(
            &mut self.core,
            hardware,
            &links[index].a2p,
            &mut self.callees[index],
            agent,
            &mut self.buffers,
        ))
    }

    /// As `advance`, beside the hardware: what the completion changes of it is made first, and if
    /// the hardware refuses that, the set ends as failed with its fault. The hardware is not asked
    /// if the call is refused.
    pub fn advance_on<H: Hardware>(&mut self, hardware: &mut H) -> Result<bool, ServeError>
        ensures agrees { IsInStep self.new }
        ensures board { self.new.board ≡ self.old.board }
        ensures pending { IfOk result (λ did.
            IsTrue did ↔
            (0 < length (pending_sets self.old.board (deeds self.old.board self.old.history)))) }
        ensures happens { IfOk result (λ did.
            IsTrue did →
            HappensOn self.old.board IsEnd self.old.history (H.asked hardware.old)
            self.new.history (H.asked hardware.new)) }
        ensures obeyed { H.REFUSES ≡ false → IfOk result (λ did.
            IsTrue did → self.new.history ≡ self.old.history ++ event.Advance ∷ []) }
        ensures rest { self.new ≡
            record self.old { history = self.new.history; room = self.new.room } }
        ensures made { (before : List Asked)
            → HasMade before self.old.board self.old.history (H.asked hardware.old)
            → HasMade before self.new.board self.new.history (H.asked hardware.new) }
        ensures same { IfOk result (λ did. ¬ (IsTrue did) → self.new ≡ self.old) }
        ensures err { OnErr result (self.new ≡ self.old) }
        ensures unasked { OnErr result
            (IsAsked (H.asked hardware.old) None (H.asked hardware.new)) }
        ensures memory { IfErr result (λ error.
            (error ≡ ServeError.Memory) × (self.old.room ≡ 0) ×
            (pending_sets self.old.board (deeds self.old.board self.old.history) ≢ [])) }
    {
        match self.core.advance_on(hardware) {
            Ok(ended) => Ok(ended),
            Err(_error) => Err(ServeError::Memory),
        }
    }

    /// Completes the first pending set and adds that to the history (own); `Ok(false)` if nothing
    /// is pending. `Memory` if a set is pending and the trace could not grow is the only refusal.
    /// After it, and after `Ok(false)`, nothing changed.
    pub fn advance(&mut self) -> Result<bool, ServeError>
        ensures agrees { IsInStep self.new }
        ensures board { self.new.board ≡ self.old.board }
        ensures pending { IfOk result (λ did.
            IsTrue did ↔
            (0 < length (pending_sets self.old.board (deeds self.old.board self.old.history)))) }
        ensures event { IfOk result (λ did.
            IsTrue did →
            self.new ≡ record self.old
            { history = self.old.history ++ event.Advance ∷ []; room = self.new.room }) }
        ensures same { IfOk result (λ did. ¬ (IsTrue did) → self.new ≡ self.old) }
        ensures err { OnErr result (self.new ≡ self.old) }
        ensures memory { IfErr result (λ error.
            (error ≡ ServeError.Memory) × (self.old.room ≡ 0) ×
            (pending_sets self.old.board (deeds self.old.board self.old.history) ≢ [])) }
    {
        match self.core.advance() {
            Ok(did) => Ok(did),
            Err(_) => Err(ServeError::Memory),
        }
    }

    /// Makes room in the trace, collects a release on an agent's P2A channel, and then posts the
    /// first message of its outbox, which adds the posting to the history.
    ///
    /// The first that applies: `Waiting` if the message before is still outstanding; `Nothing` if
    /// the outbox is empty; `Closed` if the channel is closed; `Waiting` if it has no place. It
    /// posts only if a message is in the outbox and none is outstanding, and then once. `NoAgent`,
    /// checked first, if the board lacks the agent (own); `Memory` if the trace could not grow.
    /// After either nothing was collected or posted, and nothing changed.
    pub fn flush(&mut self, links: &[Link<C>], agent: u32) -> Result<Flushed, ServeError>
        requires { HasLinks C.identity links.now self.old }
        ensures links { HasLinks C.identity links.now self.new }
        ensures agrees { IsInStep self.new }
        ensures board { self.new.board ≡ self.old.board }
        ensures flushes { IfOk result (λ flushed. Flushes C.FULL agent self.old flushed self.new) }
        ensures made { asks self.new.board self.new.history
            ≡ asks self.old.board self.old.history }
        ensures no_agent { (result ≡ Err ServeError.NoAgent) ↔
            IsNoAgent (length self.old.board.agents) agent }
        ensures memory { result ≡ Err ServeError.Memory → self.old.room ≡ 0 }
        ensures err { OnErr result (self.new ≡ self.old) }
    {
        reserve_for(&mut self.core, agent)?;
        let index = agent as usize - 1;
        Ok(flush_one(
            &mut self.core,
            &links[index].p2a,
            &mut self.callers[index],
            agent,
            &mut self.buffers,
        ))
    }

    /// Closes an agent's A2P channel, so that no further command of it is executed, and notes after
    /// how many events it first did; collects once on its P2A channel, and closes that.
    ///
    /// `NoAgent`, checked first, if the board lacks the agent; then nothing changed (own).
    /// `InService` and `ReplyWaiting` come only if a message is outstanding on P2A: A2P is closed
    /// then, P2A is not, and the call may be repeated.
    pub fn close(&mut self, links: &[Link<C>], agent: u32) -> Result<(), ShutError>
        requires { HasLinks C.identity links.now self.old }
        ensures links { HasLinks C.identity links.now self.new }
        ensures agrees { IsInStep self.new }
        ensures board { self.new.board ≡ self.old.board }
        ensures shuts { result ≢ Err ShutError.NoAgent →
            Shuts (ShowsClose C.caller_view C.close_shows) agent self.old result self.new }
        ensures made { asks self.new.board self.new.history
            ≡ asks self.old.board self.old.history }
        ensures no_agent { (result ≡ Err ShutError.NoAgent) ↔
            IsNoAgent (length self.old.board.agents) agent }
        ensures unchanged { result ≡ Err ShutError.NoAgent → self.new ≡ self.old }
    {
        if is_no_agent(&self.core, agent) {
            return Err(ShutError::NoAgent);
        }
        let index = agent as usize - 1;
        let events = self.core.trace().len();
        shut_one(
            &links[index],
            &mut self.callees[index],
            &mut self.callers[index],
            &mut self.closed_at[index],
            events,
        )
    }
}

// Whether this is the number of no agent of the board.
fn is_no_agent(core: &Core, agent: u32) -> bool
    ensures no_agent { result ≡ true → IsNoAgent (length core.now.board.agents) agent }
    ensures agent { result ≡ false → IsAgent (length core.now.board.agents) agent }
{
    agent == 0 || agent > core.agents()
}

// Makes room in the trace for one event of an agent of the board.
fn reserve_for(core: &mut Core, agent: u32) -> Result<(), ServeError>
    ensures agent { OnOk result (IsAgent (length core.old.board.agents) agent) }
    ensures room { OnOk result (0 < core.new.room) }
    ensures board { core.new.board ≡ core.old.board }
    ensures history { core.new.history ≡ core.old.history }
    ensures no_agent { (result ≡ Err ServeError.NoAgent) ↔
        IsNoAgent (length core.old.board.agents) agent }
    ensures memory { result ≡ Err ServeError.Memory → core.old.room ≡ 0 }
    ensures err { OnErr result (core.new ≡ core.old) }
{
    if is_no_agent(core, agent) {
        return Err(ServeError::NoAgent);
    }
    core.reserve().map_err(|_| ServeError::Memory)
}
