//! A platform's plan, of a board's text.
ghost use Rattle.std.specs.Prelude.{◌≡◌, ◌≢◌, ◌+◌, List, IfOk, IfErr, Ok, Err, ℕ};
ghost use Rattle.scmi_plan.specs.Plan.{IsValid};
ghost use Rattle.scmi_plan.specs.PlanError.{number};
ghost use Rattle.scmi_plan.specs.declared.plan_error.PlanError.TheVariants as plan_error;
ghost use Rattle.scmi_board.specs.ValidBoard.{IsBoardFault};
ghost use Rattle.scmi_c.specs.Board.{IsFault, board_of_text};
ghost use Rattle.scmi_c.specs.declared.code.TheConstants.{MEMORY, RULE};

use crate::code::{LINE, MEMORY, RULE};
use scmi_board::{BoardError, ValidBoard, read_valid_board};
use scmi_plan::{Plan, PlanError};
use std::alloc::Global;

/// The plan of a board's text with what the lines behind its rows say, or the number of its fault for
/// C: `LINE` and the number of the first line of another form, from 1 (the last line if `end` is
/// missing, 0 if there is no line), or of the first after `end`; `RULE` and the number of the first
/// rule that the board breaks; `MEMORY` when out of memory.
pub fn read_plan(alloc: Global, text: &[u8]) -> Result<Plan, u32>
    ensures board { IfOk result (λ plan. board_of_text text.now ≡ Ok plan) }
    ensures fault { IfErr result (λ n. n ≢ MEMORY → board_of_text text.now ≡ Err n) }
    ensures valid { IfOk result IsValid }
    ensures faults { IfErr result IsFault }
{
    match read_valid_board(alloc, text) {
        Ok(ValidBoard { described: _, plan }) => {
            let _agents = plan.agents();
            Ok(plan)
        }
        Err(error) => Err(fault_code(error)),
    }
}

/// The number of the fault of a text, or of its board.
fn fault_code(error: BoardError) -> u32
    ensures fault { (text : List ℕ) → IsBoardFault text error →
        result ≢ MEMORY → board_of_text text ≡ Err result }
    ensures faults { IsFault result }
{
    match error {
        BoardError::Line(line) | BoardError::After(line) => LINE.saturating_add(line),
        BoardError::Rule(rule) => rule_code(rule),
        BoardError::Memory => MEMORY,
    }
}

/// The number of a board's fault.
pub fn rule_code(error: PlanError) -> u32
    ensures rule { error ≢ plan_error.Memory → result ≡ RULE + number error }
    ensures memory { error ≡ plan_error.Memory → result ≡ MEMORY }
    ensures faults { IsFault result }
{
    match error {
        PlanError::Memory => MEMORY,
        rule => RULE + u32::from(rule.number()),
    }
}
