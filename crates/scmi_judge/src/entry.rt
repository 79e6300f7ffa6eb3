//! What a record shows.
ghost use Rattle.std.specs.Prelude.{◌≡◌};
ghost use Rattle.scmi_judge.specs.Shown.{is_from_platform};

use scmi_codec::{Answer, Frame, Message};
use scmi_plan::Report;

/// One entry of a record of what went over a platform's channels, at its place in time.
#[derive(Clone, Drop)]
pub enum Entry {
    /// A command of an agent, with the answer that it got. It is executed here.
    Answered {
        agent: u32,
        frame: Frame,
        answer: Answer,
    },
    /// A message of the platform that an agent took.
    Delivered {
        agent: u32,
        message: Message,
    },
    /// A command of an agent that is answered later. It has a place that is free, below
    /// `OUTSTANDING`, and is executed anywhere from here on.
    Asked {
        place: u32,
        agent: u32,
        frame: Frame,
    },
    /// The answer to the command at a place, which was executed before, and is free from here on.
    Replied {
        place: u32,
        agent: u32,
        frame: Frame,
        answer: Answer,
    },
    /// The record has no answer to the command at a place, which is free from here on: it was
    /// executed before, or it never is.
    GivenUp {
        place: u32,
    },
    /// The hardware told the platform this, here.
    Told {
        report: Report,
    },
}

impl Entry {
    /// Whether the platform gave what the entry shows: an answer or a message.
    pub fn is_from_platform(&self) -> bool
        ensures { result ≡ is_from_platform self.now }
    {
        matches!(
            self,
            Entry::Answered { .. } | Entry::Delivered { .. } | Entry::Replied { .. }
        )
    }

    /// The same entry again. It takes no memory.
    pub fn copy(&self) -> Entry
        ensures { result ≡ self.now }
    {
        match self {
            Entry::Answered {
                agent,
                frame,
                answer,
            } => Entry::Answered {
                agent: *agent,
                frame: frame.copy(),
                answer: answer.copy(),
            },
            Entry::Delivered { agent, message } => Entry::Delivered {
                agent: *agent,
                message: message.copy(),
            },
            Entry::Asked {
                place,
                agent,
                frame,
            } => Entry::Asked {
                place: *place,
                agent: *agent,
                frame: frame.copy(),
            },
            Entry::Replied {
                place,
                agent,
                frame,
                answer,
            } => Entry::Replied {
                place: *place,
                agent: *agent,
                frame: frame.copy(),
                answer: answer.copy(),
            },
            Entry::GivenUp { place } => Entry::GivenUp { place: *place },
            Entry::Told { report } => Entry::Told { report: *report },
        }
    }
}
