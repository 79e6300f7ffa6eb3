//! What commands that only read are to the other agents.
ghost use Rattle.std.specs.Prelude.{◌≡◌, ◌++◌, ◌∷◌, [], ℕ, List, true};
ghost use Rattle.scmi_plan.specs.Board.{Board};
ghost use Rattle.scmi_core.specs.Deed.{Success};
ghost use Rattle.scmi_core.specs.Laws.{AreAlikeBut};
ghost use Rattle.scmi_core.specs.Legal.{IsLegal};
ghost use Rattle.scmi_core.specs.declared.event.Event.{Event};
ghost use Rattle.scmi_laws.specs.Reads.{DoesNothing, HasQuietReads, is_quiet, is_read};

/// What a command that only reads is to others, in every legal history of every board, whoever made
/// it. It does nothing: its clauses are the laws.
///
/// A success of a read does nothing, and one of any other command does something. A read moves
/// nobody: only its own agent asked it and was answered. Without all the reads of one agent and all
/// its refused commands, a history is as legal, and the same to every other agent.
pub fn every_read()
    ensures harmless { (board : Board) (s : Success) → is_read s.command ≡ true
        → DoesNothing board s }
    ensures complete { (board : Board) (s : Success) → DoesNothing board s
        → is_read s.command ≡ true }
    ensures read { (board : Board) (h : List Event) (a : ℕ) (event : Event) → IsLegal board h
        → is_quiet board a h event ≡ true → AreAlikeBut board a (h ++ event ∷ []) h }
    ensures isolation { (board : Board) (h : List Event) → IsLegal board h
        → HasQuietReads board h }
{
    // Nothing to do: the clauses hold of every history.
}
