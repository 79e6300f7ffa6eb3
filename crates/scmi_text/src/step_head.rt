//! What comes before the payload words in the line of a step.
ghost use Rattle.std.specs.Prelude.{◌≡◌};
ghost use Rattle.scmi_text.specs.StepHead.{call_with, step_with};
ghost use Rattle.scmi_text.specs.StepText.{has_payload};

use crate::step::{AgentStep, Call, PlatformStep, Step};
use scmi_codec::{Fault, Header, Message, Payload};
use scmi_plan::Report;

/// A step but for its payload words.
#[derive(Clone, Copy)]
pub(crate) enum Head {
    Do {
        agent: u32,
        protocol: u8,
        message: u8,
    },
    Call {
        agent: u32,
        protocol: u8,
        message: u8,
    },
    Raw {
        agent: u32,
        header: u32,
    },
    Malformed {
        agent: u32,
        length: u32,
        header: u32,
    },
    Collect {
        agent: u32,
    },
    P2a {
        agent: u32,
    },
    Close {
        agent: u32,
    },
    Platform {
        agent: u32,
        step: PlatformStep,
    },
    Advance,
    Fail {
        agent: u32,
        fault: Fault,
        protocol: u8,
        message: u8,
    },
    AdvanceFailed {
        fault: Fault,
    },
    Report {
        report: Report,
    },
    Restart {
        agent: u32,
    },
}

/// Whether payload words belong to a step.
pub(crate) fn has_payload(head: Head) -> bool
    ensures { result ≡ has_payload head }
{
    matches!(
        head,
        Head::Do { .. } | Head::Call { .. } | Head::Raw { .. } | Head::Fail { .. }
    )
}

/// The step with this head and these payload words.
pub(crate) fn step_with(head: Head, payload: Payload) -> Step
    ensures { result ≡ step_with head payload.items }
{
    match head {
        Head::Do {
            agent,
            protocol,
            message,
        } => Step::Do {
            agent,
            call: call_with(protocol, message, payload),
        },
        Head::Call {
            agent,
            protocol,
            message,
        } => Step::Agent {
            agent,
            step: AgentStep::Call(call_with(protocol, message, payload)),
        },
        Head::Raw { agent, header } => Step::Agent {
            agent,
            step: AgentStep::Raw(Message {
                header: Header::unpack(header),
                payload,
            }),
        },
        Head::Malformed {
            agent,
            length,
            header,
        } => Step::Agent {
            agent,
            step: AgentStep::Malformed { length, header },
        },
        Head::Collect { agent } => Step::Agent {
            agent,
            step: AgentStep::Collect,
        },
        Head::P2a { agent } => Step::Agent {
            agent,
            step: AgentStep::P2a,
        },
        Head::Close { agent } => Step::Agent {
            agent,
            step: AgentStep::Close,
        },
        Head::Platform { agent, step } => Step::Platform { agent, step },
        Head::Advance => Step::Advance,
        Head::Fail {
            agent,
            fault,
            protocol,
            message,
        } => {
            let call = call_with(protocol, message, payload);
            Step::Fail { agent, fault, call }
        }
        Head::AdvanceFailed { fault } => Step::AdvanceFailed { fault },
        Head::Report { report } => Step::Report { report },
        Head::Restart { agent } => Step::Restart { agent },
    }
}

fn call_with(protocol: u8, message: u8, payload: Payload) -> Call
    ensures { result ≡ call_with protocol message payload.items }
{
    Call {
        protocol,
        message,
        payload,
    }
}
