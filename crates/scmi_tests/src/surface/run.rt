//! The surface of `scmi_run`, whose library is `scmi_modes`.
ghost use Rattle.std.specs.Prelude.{length};
ghost use Rattle.scmi_link.specs.Scripts.{AreScriptsOf};

use scmi_codec::{Answer, Frame, Payload};
use scmi_core::Trace;
use scmi_link::{Channel, CloseError, Closing, PostError};
use scmi_modes::{
    AgentLog, Gate, Kind, Line, Order, Outcome, RunError, Script, Stop, run, run_agents, run_once,
    run_steps, run_threads,
};
use scmi_plan::Plan;
use std::alloc::Global;
use std::io::{Read, Write};
use std::sync::Wait;
use std::thread::Threads;

fn call_each<G: Gate, R: Read, W: Write, T: Threads + Wait + Sync>(
    rt: &T,
    alloc: Global,
    gate: &G,
    reader: &mut R,
    writer: &mut W,
) -> u8 {
    let _ran: Result<(), RunError> = run_once(alloc, reader, writer);
    let _ran: Result<(), RunError> = run_steps(alloc, reader, writer, Kind::Words);
    let _ran: Result<(), RunError> = run_threads(rt, alloc, gate, reader, writer, Kind::Rings);
    run(rt, alloc, gate, reader, writer)
}

fn call_run_agents<C: Channel, G: Gate, T: Threads + Wait + Sync>(
    rt: &T,
    alloc: Global,
    gate: &G,
    plan: Plan,
    scripts: &[Script],
) -> Result<Outcome, RunError>
    requires { AreScriptsOf (length plan.agents) scripts.now }
{
    run_agents::<C, G, T>(rt, alloc, gate, plan, scripts)
}

/// What a run leaves, by all its fields.
fn name_the_fields(outcome: Outcome) -> (Trace, bool, usize) {
    let Outcome {
        trace,
        logs,
        memory,
    } = outcome;
    let logs: Vec<AgentLog> = logs;
    (trace, memory, logs.len())
}

/// What an agent did, by its fields. Its two counts of polls stand beside them.
fn name_the_log(log: AgentLog) -> ([usize; 4], Option<Closing>, Option<Stop>) {
    let AgentLog {
        posted,
        read,
        p2a,
        closing,
        lines,
        stopped,
        reply_looks: _replies,
        message_looks: _messages,
    } = log;
    let posted: Vec<Frame> = posted;
    let read: Vec<Answer> = read;
    let p2a: Vec<Frame> = p2a;
    let lines: Vec<Line> = lines;
    let lengths = [posted.len(), read.len(), p2a.len(), lines.len()];
    (lengths, closing, stopped)
}

/// A script by all its fields.
fn rebuilt(script: Script) -> Script {
    let Script { agent, lines } = script;
    let agent: u32 = agent;
    let lines: Vec<Order> = lines;
    Script { agent, lines }
}

fn name_the_variants(order: &Order, line: &Line, stop: Stop, kind: Kind) -> [u8; 4] {
    let order = match order {
        Order::Call(_protocol, _message, _payload) => 1,
        Order::Until(_domain, _state) => 2,
        Order::P2a(_count) => 3,
        Order::Close => 4,
    };
    let stop = match stop {
        Stop::Limit => 1,
        Stop::Memory => 2,
    };
    let kind = match kind {
        Kind::Rings => 1,
        Kind::Words => 2,
    };
    [order, form_of(line), stop, kind]
}

/// A line has a variant for each form of output.
fn form_of(line: &Line) -> u8 {
    match line {
        Line::Got(_payload) => 1,
        Line::Error => 2,
        Line::Closed => 3,
        Line::NotPosted(_error) => 4,
        Line::Limit => 5,
        Line::UntilOk => 6,
        Line::UntilLimit => 7,
        Line::P2a(_frame) => 8,
        Line::Close(_closing) => 9,
        Line::NotClosed(_error) => 10,
    }
}

/// An error is one of these, in this order.
fn number(error: RunError) -> u32 {
    match error {
        RunError::Mode => 1,
        RunError::Size => 2,
        RunError::Read => 3,
        RunError::Area => 4,
        RunError::Board(line) => line,
        RunError::Script(line) => line,
        RunError::Plan(rule) => u32::from(rule),
        RunError::Limit => 8,
        RunError::Memory => 9,
        RunError::Write => 10,
    }
}

/// A gate has one method.
struct Passed;

impl Gate for Passed {
    fn before<R: Wait>(&self, _rt: &R, _agent: u32, _line: u32) {}
}
