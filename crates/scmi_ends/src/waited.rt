//! What came of a wait.
use scmi_link::Collected;

/// What an agent's wait for a reply ended with, and after how many polls.
#[derive(Clone, PartialEq, Eq, Debug, Drop)]
pub struct Waited {
    /// What the last poll gave; `Nothing` if there was none.
    pub answer: Collected,
    /// How often it polled.
    pub looks: u32,
}
