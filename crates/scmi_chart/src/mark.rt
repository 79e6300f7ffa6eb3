//! The marks of a chart.

/// The words of a message: its name (DEN0056B), what it is about, the value that this gets, and a
/// comment. An empty part is left out.
#[derive(Drop)]
pub struct Label {
    pub name: Vec<u8>,
    pub object: Vec<u8>,
    pub value: Vec<u8>,
    pub tag: Vec<u8>,
}

/// A message between an agent and the platform: it leaves in one slot, and is taken in the same or
/// in a later one.
#[derive(Drop)]
pub struct Message {
    pub agent: u8,
    pub slot: u16,
    pub taken: u16,
    pub label: Label,
    /// What is shown of it when a reader points at it: its header and words. Empty if there is
    /// nothing.
    pub detail: Vec<u8>,
}

/// How a command was answered.
#[derive(Clone, Copy)]
pub enum Outcome {
    Success,
    /// An asynchronous set was accepted, and takes effect later.
    Pending,
    /// Another status than SUCCESS, or a channel error.
    Refusal,
}

#[derive(Clone, Copy)]
pub enum Side {
    Agent,
    Platform,
}

/// What is drawn on the lifelines.
#[derive(Drop)]
pub enum Mark {
    /// A command that was executed, with its token if its frame was well formed.
    Command {
        message: Message,
        token: Option<u16>,
    },
    /// A command that was not executed: it was withdrawn, or waited until the channel was closed or
    /// the run ended.
    Withdrawn {
        message: Message,
        token: Option<u16>,
    },
    /// A command that could not be posted.
    Refused {
        message: Message,
    },
    /// The platform executes a command, from one slot to another.
    Execution {
        slot: u16,
        until: u16,
    },
    Reply {
        message: Message,
        outcome: Outcome,
    },
    /// A delayed response, with the token of its command.
    Delayed {
        message: Message,
        token: u16,
    },
    Notification {
        message: Message,
    },
    /// A message is posted to an agent.
    Posted {
        slot: u16,
    },
    /// An advance of the pending sets, and whether one completed.
    Advance {
        slot: u16,
        is_effective: bool,
        text: Vec<u8>,
    },
    /// The channels of an agent were closed, from its side or from the platform's.
    Closed {
        agent: u8,
        slot: u16,
        by: Side,
        text: Vec<u8>,
    },
    /// Words beside a lifeline.
    Remark {
        agent: u8,
        slot: u16,
        beside: Side,
        text: Vec<u8>,
    },
    /// The end of a pending set whose change the hardware refused.
    Failed {
        slot: u16,
        text: Vec<u8>,
    },
    /// The hardware refused what an agent's command was to change.
    Fault {
        agent: u8,
        slot: u16,
        text: Vec<u8>,
    },
    /// An agent restarted, and the platform ended what it asked for.
    Restarted {
        agent: u8,
        slot: u16,
        text: Vec<u8>,
    },
}

impl Mark {
    /// The message that it shows, if it does.
    pub(crate) fn message(&self) -> Option<&Message> {
        match self {
            Mark::Command { message, .. }
            | Mark::Withdrawn { message, .. }
            | Mark::Refused { message }
            | Mark::Reply { message, .. }
            | Mark::Delayed { message, .. }
            | Mark::Notification { message } => Some(message),
            _ => None,
        }
    }
}
