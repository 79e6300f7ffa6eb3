//! What command or report each change came of.
ghost use Rattle.std.specs.Prelude.{List};
ghost use Rattle.scmi_plan.specs.Board.{Board};
ghost use Rattle.scmi_core.specs.Legal.{IsLegal};
ghost use Rattle.scmi_core.specs.declared.event.Event.{Event};
ghost use Rattle.scmi_laws.specs.Causes.{HasOwnCauses};

/// That no two changes share a command or a report, in every legal history of every board, whoever
/// made it. It does nothing: its clause is the law.
///
/// Each change came of a command of its causer that asked for it and succeeded, but that hardware
/// may have settled the rate of a free clock since, or the hardware reported it, as
/// `every_legal_history` has it, and two changes came of two such events. So a
/// history has at most as many changes as commands and reports: a command that is accepted for
/// later changes nothing at once, and no set completes twice.
pub fn every_change()
    ensures own { (board : Board) (h : List Event) → IsLegal board h → HasOwnCauses board h }
{
    // Nothing to do: the clause holds of every history.
}
