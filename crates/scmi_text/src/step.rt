//! The lines of a script that runs on one thread.
use scmi_codec::{Fault, Message, Payload};
use scmi_plan::Report;

/// One line of a script: which call is made.
#[derive(PartialEq, Eq, Debug, Drop)]
pub enum Step {
    /// The agent makes this call.
    Agent {
        agent: u32,
        step: AgentStep,
    },
    /// The platform makes this call, of the agent's channels.
    Platform {
        agent: u32,
        step: PlatformStep,
    },
    /// Call, serve and collect in turn.
    Do {
        agent: u32,
        call: Call,
    },
    /// The platform completes one pending set.
    Advance,
    /// Call, serve and collect in turn, beside hardware that refuses each change for this reason.
    Fail {
        agent: u32,
        fault: Fault,
        call: Call,
    },
    /// The platform ends one pending set, whose change the hardware refuses for this reason.
    AdvanceFailed {
        fault: Fault,
    },
    /// The hardware reports this to the platform without being asked.
    Report {
        report: Report,
    },
    /// The platform ends what this agent asked for, which has restarted without it.
    Restart {
        agent: u32,
    },
}

/// A call that an agent makes.
#[derive(PartialEq, Eq, Debug, Drop)]
pub enum AgentStep {
    /// It posts a command with its next token.
    Call(Call),
    /// It posts this message.
    Raw(Message),
    /// It posts a malformed frame of this length in bytes and this header word.
    Malformed { length: u32, header: u32 },
    /// It collects.
    Collect,
    /// It takes a P2A message.
    P2a,
    /// It closes its endpoint.
    Close,
}

/// A call that the platform makes of one agent's channels.
#[derive(Clone, Copy, PartialEq, Eq, Debug)]
pub enum PlatformStep {
    /// It serves the agent.
    Serve,
    /// It posts the first message of the agent's outbox.
    Flush,
    /// It closes its endpoint of the agent's channels.
    Shut,
}

/// A command that an agent posts, but for its token.
#[derive(PartialEq, Eq, Debug, Drop)]
pub struct Call {
    pub protocol: u8,
    pub message: u8,
    pub payload: Payload,
}
