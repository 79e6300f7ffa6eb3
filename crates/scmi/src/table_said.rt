//! What the lines behind a board's rows say, and names in strings of C.

use scmi_board::{BoardLine, ids_of};
use scmi_plan::{AgentChannel, Scope, WHOLE_CHANNEL};
use std::fmt::{self, Write};

/// The channels of an agent, by the line that contains them, of which there is one at most; whole if
/// none does.
pub(crate) fn channel_of(lines: &[BoardLine], agent: u32) -> AgentChannel {
    for line in lines {
        if let BoardLine::Channel(said) = line
            && said.agent == agent
        {
            return said.channel;
        }
    }
    WHOLE_CHANNEL
}

/// The devices that are denied to an agent, as a whole or for a protocol: bit d is for device d.
pub(crate) fn denied_to(lines: &[BoardLine], agent: u32, scope: Scope) -> u32 {
    let mut devices = 0;
    for line in lines {
        match line {
            BoardLine::Deny(said) if said.agent == agent && said.scope == scope => {
                devices |= said.devices;
            }
            _ => {}
        }
    }
    devices
}

/// The ids of the board's protocols, by the last line that contains them.
pub(crate) fn protocols_of(lines: &[BoardLine]) -> Option<&[u8]> {
    for line in lines.iter().rev() {
        if let BoardLine::Protocols(row) = line {
            return Some(ids_of(row));
        }
    }
    None
}

/// A name, as it is between the quotation marks of a string. A board that keeps the rules has
/// printable ASCII in its names, so no other byte needs a mark.
#[derive(Clone, Copy)]
pub(crate) struct InString<'a>(pub(crate) &'a str);

impl fmt::Display for InString<'_> {
    fn fmt<W: fmt::Write>(&self, f: &mut fmt::Formatter<W>) -> fmt::Result {
        for letter in self.0.chars() {
            // Two question marks could begin a trigraph.
            if matches!(letter, '"' | '\\' | '?') {
                f.write_char('\\')?;
            }
            f.write_char(letter)?;
        }
        Ok(())
    }
}
