//! The names of a board's agents, domains and clocks.

use crate::words::numbered_words;
use scmi_plan::RawPlan;
use std::alloc::{AllocError, Global};

/// The name of an agent; its number if the board lacks it, and `platform` for 0.
pub(crate) fn agent_name(
    alloc: Global,
    board: &RawPlan,
    agent: u32,
) -> Result<Vec<u8>, AllocError> {
    if agent == 0 {
        return Vec::from_slice(alloc, b"platform");
    }
    match board.agents.get(agent as usize - 1) {
        Some(name) => Vec::from_slice(alloc, name.as_bytes()),
        None => numbered_words(alloc, "agent %", agent),
    }
}

/// The name of a power domain; its number if the board lacks it.
pub(crate) fn domain_name(
    alloc: Global,
    board: &RawPlan,
    domain: u32,
) -> Result<Vec<u8>, AllocError> {
    match board.domains.get(domain as usize) {
        Some(domain) => Vec::from_slice(alloc, domain.name.as_bytes()),
        None => numbered_words(alloc, "domain %", domain),
    }
}

/// The name of a clock; its number if the board lacks it.
pub(crate) fn clock_name(
    alloc: Global,
    board: &RawPlan,
    clock: u32,
) -> Result<Vec<u8>, AllocError> {
    match board.clocks.get(clock as usize) {
        Some(clock) => Vec::from_slice(alloc, clock.name.as_bytes()),
        None => numbered_words(alloc, "clock %", clock),
    }
}
