//! What a record shows of each history that may be behind it.
ghost use Rattle.std.specs.Prelude.{◌≡◌, ℕ, List, None, filter_map, reverse, false};
ghost use Rattle.std.specs.List.{All};
ghost use Rattle.scmi_plan.specs.Board.{Board};
ghost use Rattle.scmi_core.specs.Agents.{answers_to, frames_of};
ghost use Rattle.scmi_core.specs.Legal.{IsLegal};
ghost use Rattle.scmi_core.specs.Plain.{IsNoRestart};
ghost use Rattle.scmi_judge.specs.Behind.{Behind, HasAtMostOne, IsAtOnce, IsEvent};
ghost use Rattle.scmi_judge.specs.Moves.{Move, history, outstanding_at, told_event};
ghost use Rattle.scmi_judge.specs.Shown.{answer_shown, frame_shown, told_shown};
ghost use Rattle.scmi_judge.specs.declared.entry.Entry.{Entry};
ghost use Rattle.scmi_judge.specs.declared.unseen.Unseen.{Unseen};

/// What every record shows of each legal history that may be behind it: each agent was posted
/// exactly the recorded messages, in order, and at most one more; and if no agent may restart, none
/// did. If each command has its answer at once, each agent posted exactly the recorded commands and
/// got exactly the recorded answers, in order; no command is ever outstanding, and each move is an
/// event of the history. The hardware told exactly what the record shows, in order: nothing is
/// added where nobody told it. The entries stand newest first. The function does nothing: its
/// clauses are the laws.
pub fn every_record()
    ensures frames { (may : Unseen) (board : Board) (entries : List Entry) (moves : List Move)
        → Behind may board entries moves → All IsAtOnce entries → (a : ℕ)
        → frames_of a (history moves) ≡ filter_map (frame_shown a) (reverse entries) }
    ensures answers { (may : Unseen) (board : Board) (entries : List Entry) (moves : List Move)
        → Behind may board entries moves → All IsAtOnce entries → (a : ℕ)
        → answers_to board a (history moves) ≡ filter_map (answer_shown a) (reverse entries) }
    ensures messages { (may : Unseen) (board : Board) (entries : List Entry) (moves : List Move)
        → Behind may board entries moves → IsLegal board (history moves) → (a : ℕ)
        → HasAtMostOne board entries (history moves) a }
    ensures no_restart { (may : Unseen) (board : Board) (entries : List Entry) (moves : List Move)
        → Behind may board entries moves → may.restarts ≡ false
        → All IsNoRestart (history moves) }
    ensures at_once { (may : Unseen) (board : Board) (entries : List Entry) (moves : List Move)
        → Behind may board entries moves → All IsAtOnce entries
        → All IsEvent moves × ((place : ℕ) → outstanding_at place moves ≡ None) }
    ensures told { (may : Unseen) (board : Board) (entries : List Entry) (moves : List Move)
        → Behind may board entries moves
        → filter_map told_event (history moves) ≡ filter_map told_shown (reverse entries) }
{
    // Nothing to do: the clauses hold of every record.
}
