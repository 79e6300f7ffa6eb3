//! Steps as a script has them, in numbers.

use crate::step::{AgentStep, Call, PlatformStep, Step};
use scmi_codec::{Fault, rate_words};
use scmi_plan::{Effect, Report};
use std::fmt;

/// A step. Its text is the line of a script that encodes it, without a line feed.
#[derive(Clone, Copy)]
pub struct PlainStep<'a>(pub &'a Step);

impl fmt::Display for PlainStep<'_> {
    fn fmt<W: fmt::Write>(&self, f: &mut fmt::Formatter<W>) -> fmt::Result {
        match self.0 {
            Step::Agent { agent, step } => write_agent_step(f, *agent, step),
            Step::Platform { agent, step } => write!(f, "{} {agent}", word_of(*step)),
            Step::Do { agent, call } => write_call(f, "do", *agent, call),
            Step::Advance => f.write_str("advance"),
            Step::Fail { agent, fault, call } => write_refused(f, *agent, *fault, call),
            Step::AdvanceFailed { fault } => write_advance_refused(f, *fault),
            Step::Report { report } => write_report(f, *report),
            Step::Restart { agent } => write!(f, "restart {agent}"),
        }
    }
}

fn write_agent_step<W: fmt::Write>(
    f: &mut fmt::Formatter<W>,
    agent: u32,
    step: &AgentStep,
) -> fmt::Result {
    match step {
        AgentStep::Call(call) => write_call(f, "call", agent, call),
        AgentStep::Raw(message) => {
            let header = message.header.pack();
            write!(f, "raw {agent} 0x{header:x}")?;
            write_words(f, message.payload.as_slice())
        }
        AgentStep::Malformed { length, header } => {
            write!(f, "bad {agent} {length} 0x{:x}", *header)
        }
        AgentStep::Collect => write!(f, "collect {agent}"),
        AgentStep::P2a => write!(f, "p2a {agent}"),
        AgentStep::Close => write!(f, "close {agent}"),
    }
}

fn word_of(step: PlatformStep) -> &'static str {
    match step {
        PlatformStep::Serve => "serve",
        PlatformStep::Flush => "flush",
        PlatformStep::Shut => "shut",
    }
}

fn write_call<W: fmt::Write>(
    f: &mut fmt::Formatter<W>,
    word: &str,
    agent: u32,
    call: &Call,
) -> fmt::Result {
    write!(f, "{word} {agent} ")?;
    write_command(f, call)
}

fn write_command<W: fmt::Write>(f: &mut fmt::Formatter<W>, call: &Call) -> fmt::Result {
    let protocol = call.protocol;
    let message = call.message;
    write!(f, "0x{protocol:x} 0x{message:x}")?;
    write_words(f, call.payload.as_slice())
}

/// A command beside hardware that refuses: HARDWARE_ERROR is the status of `fail`.
fn write_refused<W: fmt::Write>(
    f: &mut fmt::Formatter<W>,
    agent: u32,
    fault: Fault,
    call: &Call,
) -> fmt::Result {
    match fault {
        Fault::HardwareError => write_call(f, "fail", agent, call),
        _ => {
            let status = fault.status();
            let name = status.name();
            write!(f, "refuse {agent} {name} ")?;
            write_command(f, call)
        }
    }
}

fn write_advance_refused<W: fmt::Write>(f: &mut fmt::Formatter<W>, fault: Fault) -> fmt::Result {
    match fault {
        Fault::HardwareError => f.write_str("advance failed"),
        _ => {
            let status = fault.status();
            let name = status.name();
            write!(f, "advance refused {name}")
        }
    }
}

fn write_report<W: fmt::Write>(f: &mut fmt::Formatter<W>, report: Report) -> fmt::Result {
    f.write_str("report ")?;
    match report {
        Report::Changed(effect) => write_change(f, effect),
        Report::First(place) => write!(f, "first {place}"),
        Report::Settled { clock, rate } => {
            write!(f, "settled {clock}")?;
            write_words(f, &rate_words(rate))
        }
    }
}

fn write_change<W: fmt::Write>(f: &mut fmt::Formatter<W>, effect: Effect) -> fmt::Result {
    match effect {
        Effect::State { domain, state } => {
            write!(f, "state {domain}")?;
            write_words(f, &[state])
        }
        Effect::Rate { clock, rate } => {
            write!(f, "rate {clock}")?;
            write_words(f, &rate_words(rate))
        }
        Effect::Enabled { clock, enabled } => {
            write!(f, "enabled {clock}")?;
            write_words(f, &[u32::from(enabled)])
        }
    }
}

/// The payload words: digits as they are, other numbers in hexadecimal.
fn write_words<W: fmt::Write>(f: &mut fmt::Formatter<W>, words: &[u32]) -> fmt::Result {
    for word in words {
        let word = *word;
        if word < 10 {
            write!(f, " {word}")?;
        } else {
            write!(f, " 0x{word:x}")?;
        }
    }
    Ok(())
}
