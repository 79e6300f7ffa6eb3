//! The board of the tests.

use scmi_board::{Lines, TextError, read_board};
use scmi_plan::{Plan, RawPlan};
use std::alloc::Global;
use std::test::Fail;

/// Agents `ap`, which is trusted, and `modem`; a domain `cpu`, and a device of it.
const BOARD: &[u8] = b"board Acme Lab 1 1
agent ap
agent modem
domain cpu off san
device 0 -
end
";

pub fn board(alloc: Global) -> Result<RawPlan, TextError> {
    read_board(alloc, &mut Lines::new(BOARD))
}

pub fn plan(alloc: Global) -> Result<Plan, Fail> {
    Ok(Plan::check(alloc, &board(alloc)?)?)
}
