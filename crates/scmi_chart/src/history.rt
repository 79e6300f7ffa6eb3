//! The steps that draw what a run of agents in threads left.
ghost use Rattle.std.specs.Prelude.{◌≡◌, ◌++◌, ◌∷◌, [], ◌≤◌, length, nat_eq, IfOk, OnOk};
ghost use Rattle.std.specs.List.{count_by};
ghost use Rattle.scmi_plan.specs.declared.limits.TheConstants.{AGENTS};
ghost use Rattle.scmi_chart.specs.History.{call_of, closes_from, malformed_steps, receivers, steps_of_event, steps_of_run, taken_by, taking_steps};

use scmi_codec::{Frame, Message, payload_of};
use scmi_core::{Event, Trace};
use scmi_plan::Report;
use scmi_text::{AgentStep, Call, PlatformStep, Step};
use scmi_threads::AgentLog;
use std::alloc::{AllocError, Global};

/// The steps of a run that left this history and these logs: those of the history, in order, and
/// then the closes of its agents, which a history does not have.
pub(crate) fn steps_of_run(
    alloc: Global,
    trace: &Trace,
    logs: &[AgentLog],
) -> Result<Vec<Step>, AllocError>
    requires few { length logs.now ≤ AGENTS }
    ensures { IfOk result (λ steps. steps.items ≡ steps_of_run trace.now.events logs.now) }
{
    let mut steps = Vec::new(alloc);
    let mut sent = Vec::new(alloc);
    let mut events = trace.events();
    'events: while let Some(event) = events.next() {
        add_event(&mut steps, &mut sent, logs, &event)?;
    }
    add_closes(&mut steps, logs)?;
    Ok(steps)
}

/// Adds the steps of an event, after messages were posted to these agents.
fn add_event(
    steps: &mut Vec<Step>,
    sent: &mut Vec<u32>,
    logs: &[AgentLog],
    event: &Event,
) -> Result<(), AllocError>
    ensures steps { OnOk result (steps.new.items
        ≡ steps.old.items ++ steps_of_event logs.now sent.old.items event.now) }
    ensures sent { OnOk result (sent.new.items ≡ sent.old.items ++ receivers event.now) }
{
    match event {
        Event::Command(agent, Frame::Good(message)) => {
            let (agent, call) = (*agent, call_of(message));
            add(steps, Step::Do { agent, call })
        }
        Event::CommandFailed(agent, Frame::Good(message), fault) => {
            let (agent, fault, call) = (*agent, *fault, call_of(message));
            add(steps, Step::Fail { agent, fault, call })
        }
        Event::Command(agent, Frame::Malformed { length, header })
        | Event::CommandFailed(agent, Frame::Malformed { length, header }, _) => {
            add_malformed(steps, *agent, *length, *header)
        }
        Event::Advance => add(steps, Step::Advance),
        Event::AdvanceFailed(fault) => add(steps, Step::AdvanceFailed { fault: *fault }),
        Event::Sent(agent) => add_message(steps, sent, logs, *agent),
        Event::Restarted(agent) => add(steps, Step::Restart { agent: *agent }),
        Event::Reported(effect) => {
            let report = Report::Changed(*effect);
            add(steps, Step::Report { report })
        }
        Event::Promoted(place) => {
            let report = Report::First(*place);
            add(steps, Step::Report { report })
        }
        Event::Settled(clock, rate) => {
            let (clock, rate) = (*clock, *rate);
            let report = Report::Settled { clock, rate };
            add(steps, Step::Report { report })
        }
    }
}

/// Adds a step.
fn add(steps: &mut Vec<Step>, step: Step) -> Result<(), AllocError>
    ensures { OnOk result (steps.new.items ≡ steps.old.items ++ step ∷ []) }
{
    Ok(steps.push(step)?)
}

/// A command but for its token: the agent's next, as of each command that an agent in a thread
/// posts.
fn call_of(message: &Message) -> Call
    ensures { result ≡ call_of message.now }
{
    Call {
        protocol: message.header.protocol(),
        message: message.header.id(),
        payload: payload_of(message.payload.as_slice()),
    }
}

/// Adds the steps of a malformed frame.
fn add_malformed(
    steps: &mut Vec<Step>,
    agent: u32,
    length: u32,
    header: u32,
) -> Result<(), AllocError>
    ensures { OnOk result (steps.new.items
        ≡ steps.old.items ++ malformed_steps agent length header) }
{
    let step = AgentStep::Malformed { length, header };
    add(steps, Step::Agent { agent, step })?;
    let step = PlatformStep::Serve;
    add(steps, Step::Platform { agent, step })?;
    let step = AgentStep::Collect;
    add(steps, Step::Agent { agent, step })
}

/// Adds the posting of a message to an agent, and that the agent takes it, if its log has it.
fn add_message(
    steps: &mut Vec<Step>,
    sent: &mut Vec<u32>,
    logs: &[AgentLog],
    agent: u32,
) -> Result<(), AllocError>
    ensures steps { OnOk result (steps.new.items ≡ steps.old.items
        ++ steps_of_event logs.now sent.old.items (Event.Sent agent)) }
    ensures sent { OnOk result (sent.new.items
        ≡ sent.old.items ++ receivers (Event.Sent agent)) }
{
    let step = PlatformStep::Flush;
    add(steps, Step::Platform { agent, step })?;
    if count_of(sent, agent) < taken_by(logs, agent) {
        let step = AgentStep::P2a;
        add(steps, Step::Agent { agent, step })?;
    }
    Ok(sent.push(agent)?)
}

/// How often a number is among others.
fn count_of(numbers: &[u32], number: u32) -> usize
    ensures { result ≡ count_by (nat_eq number) numbers.now }
{
    let mut count = 0;
    'numbers: for i in 0..numbers.len() {
        if number == numbers[i] {
            count += 1;
        }
    }
    count
}

/// How many messages an agent took, by its log.
fn taken_by(logs: &[AgentLog], agent: u32) -> usize
    ensures { result ≡ taken_by logs.now agent }
{
    match logs.get((agent as usize).saturating_sub(1)) {
        Some(log) => log.p2a.len(),
        None => 0,
    }
}

/// Adds the closes of the agents whose scripts closed.
fn add_closes(steps: &mut Vec<Step>, mut logs: &[AgentLog]) -> Result<(), AllocError>
    requires few { length logs.now ≤ AGENTS }
    ensures { OnOk result (steps.new.items ≡ steps.old.items ++ closes_from 1 logs.entry.now) }
{
    let mut agent: u32 = 1;
    'logs: while let [log, rest @ ..] = logs {
        if log.closing.is_some() {
            let step = AgentStep::Close;
            add(steps, Step::Agent { agent, step })?;
        }
        agent += 1;
        logs = rest;
    }
    Ok(())
}
