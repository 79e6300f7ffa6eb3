//! What a chart shows.
use crate::mark::Mark;

/// What happened in a run. The time axis is divided into slots of equal height: a step of a script
/// takes one, or two if a command is posted in it and its reply read. A script of 2,000 lines takes
/// 4,000 slots at most; there is room for 65,535. What names an agent without a lifeline, or a slot
/// past the last, is drawn where that would be.
#[derive(Drop)]
pub struct Chart {
    /// The board's name.
    pub title: Vec<u8>,
    /// The text below the title, such as the mode of the run.
    pub subtitle: Vec<u8>,
    /// How many slots the axis has.
    pub slots: u16,
    /// The agents, in the order of their numbers from 1: at most 8.
    pub lifelines: Vec<Lifeline>,
    /// The steps of the script, in order.
    pub steps: Vec<Step>,
    /// What happened, in order: later marks are drawn over earlier ones.
    pub marks: Vec<Mark>,
    /// The states beside the lifelines: at most 255 columns.
    pub columns: Vec<Column>,
}

/// An agent.
#[derive(Drop)]
pub struct Lifeline {
    /// The agent's number, the first being 1.
    pub agent: u8,
    pub name: Vec<u8>,
    /// The slot in which the agent closed its channels, if it did.
    pub closed: Option<u16>,
}

/// A step of a script.
#[derive(Drop)]
pub struct Step {
    /// The step's number, the first being 0: each second one is shaded.
    pub number: u16,
    /// The line of the script.
    pub line: u32,
    /// The first slot of the step, and how many it takes.
    pub slot: u16,
    pub slots: u16,
    pub text: Vec<u8>,
}

/// What a column shows.
#[derive(Clone, Copy)]
pub enum Kind {
    Domain,
    Clock,
    /// The outbox of this agent.
    Outbox(u8),
}

/// The states of one domain, clock or outbox along the time axis.
#[derive(Drop)]
pub struct Column {
    /// The column's number from the left, the first being 0.
    pub place: u8,
    pub kind: Kind,
    pub name: Vec<u8>,
    pub spans: Vec<Span>,
    /// The notifications that were dropped at an outbox, in the order of their times.
    pub drops: Vec<Dropped>,
}

/// Notifications that were dropped at one time, since the outbox of their agent had no room.
#[derive(Drop)]
pub struct Dropped {
    /// The time, as that of a span.
    pub time: u16,
    /// How many they are.
    pub count: u8,
    /// Which they are, for a reader who points at the mark.
    pub detail: Vec<u8>,
}

/// A state that lasted. Time 0 is before the first slot, and time `n + 1` after the mark of slot `n`.
#[derive(Clone, Copy)]
pub struct Span {
    pub since: u16,
    pub until: u16,
    pub state: State,
}

/// A state of a domain, of a clock or of an outbox.
#[derive(Clone, Copy, PartialEq, Eq)]
pub enum State {
    On,
    Off,
    /// A clock's rate in Hz, and whether the clock is enabled.
    Rate { hertz: u64, is_enabled: bool },
    /// This many messages wait in the outbox.
    Waiting(u8),
    /// A set is pending.
    Pending,
}
