//! What the lines behind a board's rows make of its plan.
ghost use Rattle.std.specs.Prelude.{◌≡◌};
ghost use Rattle.std.specs.List.{All};
ghost use Rattle.scmi_board.specs.BoardLines.{IsLineOf, with_board_line, with_lines};

use crate::board_line::BoardLine;
use crate::protocol_row::ids_of;
use scmi_plan::Plan;

/// Gives a plan what this line says of it.
pub fn apply_line(plan: &mut Plan, line: &BoardLine)
    requires line { IsLineOf plan.old line.now }
    ensures board { plan.new ≡ with_board_line plan.old line.now }
{
    match *line {
        BoardLine::Channel(said) => {
            let _ = plan.set_channel(said.agent, said.channel);
        }
        BoardLine::Keep(resource) => {
            let _ = plan.keep(resource);
        }
        BoardLine::Deny(said) => {
            let _ = plan.deny(said.agent, said.devices, said.scope);
        }
        BoardLine::Absent(resource) => {
            let _ = plan.set_absent(resource);
        }
        BoardLine::Free(clock) => {
            let _ = plan.set_free(clock);
        }
        BoardLine::Protocols(row) => {
            let _ = plan.set_protocols(ids_of(&row));
        }
    }
}

/// Gives a plan what these lines say of it, in this order.
pub fn apply_lines(plan: &mut Plan, lines: &[BoardLine])
    requires lines { All (IsLineOf plan.old) lines.now }
    ensures lines { plan.new ≡ with_lines plan.old lines.now }
{
    'lines: for line in lines {
        apply_line(plan, line);
    }
}
