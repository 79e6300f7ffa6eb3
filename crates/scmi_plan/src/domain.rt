//! A power domain of a board.

use scmi_codec::Name;

/// A power domain: its name, whether it is ON at the start, and what it supports.
#[derive(PartialEq, Eq, Debug, Drop)]
pub struct Domain {
    pub name: Name,
    pub on: bool,
    pub synchronous: bool,
    pub asynchronous: bool,
    pub notify: bool,
}
