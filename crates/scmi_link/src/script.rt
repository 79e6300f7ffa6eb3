//! What an agent is to do.
use crate::order::Order;

/// The orders of one agent.
#[derive(PartialEq, Eq, Debug, Drop)]
pub struct Script {
    /// The agent's number, from 1 on.
    pub agent: u32,
    /// What it is to do, in this order.
    pub lines: Vec<Order>,
}
