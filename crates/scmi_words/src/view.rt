//! What a seat at the table knows, as contracts see it. No value of these types is ever made.
//!
//! A half of a channel is what one of its endpoints has done. The seat that the table is made with
//! has both halves; then the callee's goes to a seat of its own. Only a step of a seat changes its
//! half.
use crate::phase::Phase;
use scmi_codec::{Answer, Frame};
use std::collections::LinkedList;

/// What the rule of the table states about the caller's half.
pub struct CallerState {
    pub posted: LinkedList<Frame>,
    pub read: LinkedList<Answer>,
    pub phase: Phase,
    /// The words stored since the last collect, from the length on.
    pub draft: LinkedList<u64>,
    pub closed: bool,
}

/// The caller's half.
pub struct CallerHalf {
    pub state: CallerState,
    /// Whether it was notified that the callee has closed.
    pub told: bool,
    /// At least this many of `posted` were taken, as its refused closes showed.
    pub shown_taken: u64,
    /// At least this many of `posted` were answered, as its refused closes showed.
    pub shown_answered: u64,
    /// How many were posted when it closed.
    pub final_posted: u64,
    /// How many were taken when it closed.
    pub final_taken: u64,
    /// How many steps it has made.
    pub steps: u64,
    /// How many of them were loads of the status.
    pub looks: u64,
    /// The status that the last of these found.
    pub saw: u64,
}

/// What the rule of the table states about the callee's half.
pub struct CalleeState {
    pub taken: LinkedList<Frame>,
    pub answered: LinkedList<Answer>,
    /// The words stored since the last take, from the length on.
    pub draft: LinkedList<u64>,
    pub closed: bool,
}

/// The callee's half.
pub struct CalleeHalf {
    pub state: CalleeState,
    /// Whether it was notified that the caller has closed.
    pub told: bool,
    /// How many were posted when it closed.
    pub final_posted: u64,
    /// How many were taken when it closed.
    pub final_taken: u64,
    /// How many steps it has made.
    pub steps: u64,
    /// How many of them were exchanges of the status from posted to taken.
    pub looks: u64,
    /// The status that the last of these found.
    pub saw: u64,
}

/// The halves that a seat has.
pub struct View {
    pub caller: Option<CallerHalf>,
    pub callee: Option<CalleeHalf>,
}
