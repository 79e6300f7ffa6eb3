//! The lines behind a board's rows.

use crate::channel_line::ChannelLine;
use crate::deny_line::DenyLine;
use scmi_plan::{PROTOCOLS, Resource};

/// A line that a board may have behind its rows (own).
#[derive(Clone, Copy, Debug, PartialEq, Eq, Drop)]
pub enum BoardLine {
    /// What an agent's channels are.
    Channel(ChannelLine),
    /// No agent may switch this off.
    Keep(Resource),
    /// What is denied to an agent from the start.
    Deny(DenyLine),
    /// This has a number on the board and is not there.
    Absent(Resource),
    /// The clock of this number takes each rate as it is asked for.
    Free(u32),
    /// The board has these protocols besides the base protocol, and no others: a row of their ids.
    Protocols([u8; PROTOCOLS]),
}
