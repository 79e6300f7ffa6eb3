//! An agent at its script.
ghost use Rattle.std.specs.Prelude.{◌≡◌, ◌%◌, length};
ghost use Rattle.scmi_codec.specs.declared.header.TheConstants.{TOKENS};
ghost use Rattle.scmi_link.specs.View.{new_caller, new_callee};
ghost use Rattle.scmi_threads.specs.Closes.{IsClosedAs, IsClosedAs-prop};

use crate::agent_log::AgentLog;
use crate::gate::Gate;
use crate::stop::Stop;
use scmi_ends::{AgentEnd, Link, Processors};
use scmi_link::{Channel, Order};
use std::alloc::Global;
use std::sync::Wait;

/// An agent's endpoint, beside its link and its script, and a log of what was done at the endpoint.
/// It waits as threads on these processors do.
#[derive(Drop)]
pub struct ScriptRun<'a, C: Channel> {
    pub processors: Processors,
    pub link: &'a Link<C>,
    pub script: &'a [Order],
    pub end: AgentEnd<C>,
    pub log: AgentLog,
    ghost of_a2p: { end.a2p_identity ≡ C.identity link.now.a2p },
    ghost of_p2a: { end.p2a_identity ≡ C.identity link.now.p2a },
    ghost posted_is: { log.posted.items ≡ end.caller.posted },
    ghost read_is: { log.read.items ≡ end.caller.read },
    ghost p2a_is: { log.p2a.items ≡ end.callee.taken },
    ghost token_is: { end.token ≡ length log.posted.items % TOKENS },
    ghost replies_looked: { log.reply_looks ≡ end.caller.collects },
    ghost messages_looked: { log.message_looks ≡ end.callee.takes },
    ghost both_closed: { end.callee.closed ≡ end.caller.closed },
    ghost closing_is: { IsClosedAs log.closing end.caller } by { IsClosedAs-prop log.closing end.caller },
}

impl<'a, C: Channel> ScriptRun<'a, C> {
    ghost use Rattle.scmi_ends.specs.AgentView.{IsOfLink};
    ghost use Rattle.scmi_threads.specs.Logs.{IsEmptyLog};
    ghost use Rattle.scmi_threads.specs.Orders.{HasDone, IsAtRest, IsUndisturbed, stop_of};
    ghost use Rattle.scmi_threads.specs.ScriptRuns.{HasPlayed, HasRun, IsNewOnLink};

    /// The run of a script that has done nothing, with an empty log.
    pub(crate) fn new(
        alloc: Global,
        processors: Processors,
        link: &'a Link<C>,
        script: &'a [Order],
        end: AgentEnd<C>,
    ) -> ScriptRun<'a, C>
        requires ready { IsNewOnLink (C.identity link.now.a2p) (C.identity link.now.p2a) end }
        ensures end { result.end ≡ end }
        ensures script { result.script ≡ script.entry }
        ensures log { IsEmptyLog result.log }
    {
        ScriptRun {
            processors,
            link,
            script,
            end,
            log: AgentLog::new(alloc),
        }
    }

    /// Runs the script, up to the first order that gives up.
    pub(crate) fn run<G: Gate, R: Wait>(&mut self, rt: &R, gate: &G)
        ensures { HasPlayed C.FULL (G.asked gate.now) self.old self.new }
    {
        let script = self.script;
        let mut line = 0u32;
        'orders: for order in script {
            line = line.saturating_add(1);
            gate.before(rt, self.end.id(), line);
            if let Err(stop) = self.step(rt, order) {
                self.log.stopped = Some(stop);
                return;
            }
        }
    }

    /// Carries out an order.
    fn step<R: Wait>(&mut self, rt: &R, order: &Order) -> Result<(), Stop>
        ensures ran { HasRun self.old self.new }
        ensures done { IsUndisturbed self.new.end.caller → IsAtRest self.old.log →
            HasDone C.FULL order.now
            (stop_of result) self.old.end.caller self.new.end.caller self.old.log self.new.log }
    {
        match order {
            Order::Call(protocol, id, payload) => self.call(rt, *protocol, *id, payload),
            Order::Until(domain, state) => self.wait_for_state(rt, *domain, *state),
            Order::P2a(count) => self.take_messages(rt, *count),
            Order::Close => self.close(),
        }
    }
}
