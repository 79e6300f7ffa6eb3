//! What a board's own rules leave as it was.
ghost use Rattle.std.specs.Prelude.{ℕ, List};
ghost use Rattle.scmi_core.specs.PlainBoards.{AllowsAll, ConfiguresByPermission, FindsClocks, FindsDomains, ListsOwn, Names, ReadsAll, Refuses, ResetsToAll, Rounds, SetsByPermission, SharesAll, Starts};
ghost use Rattle.scmi_core.specs.declared.pending_set.PendingSet.{PendingSet};
ghost use Rattle.scmi_codec.specs.declared.message.Message.{Message};
ghost use Rattle.scmi_clock.specs.ClockReply.{ClockView};
ghost use Rattle.scmi_plan.specs.Board.{Board};
ghost use Rattle.scmi_plan.specs.declared.scope.Scope.{Scope};
ghost use Rattle.scmi_power.specs.PowerReply.{PowerView};

/// What the definitions give of a board that keeps nothing (`Plan::keep`), denies nothing
/// (`Plan::deny`), gives each agent all 8 pending sets, has all that it lists (`Plan::set_absent`),
/// frees no clock (`Plan::set_free`), says nothing of its protocols (`Plan::set_protocols`) and is
/// not loose (`BoardRows`): what they give if no board says such things. It does nothing: its clauses
/// are the laws.
///
/// Each agent is allowed everywhere at the start, and by a reset of its permissions. A set of a state
/// and a clock's configuration are denied for the caller's permission alone. A domain or clock that
/// is not found is one that the board lacks, and each rate is rounded to a supported one. An agent
/// has room for what is left of the pending sets and of its outbox. A message of each protocol asks
/// what it says, and power domains and clocks are listed. Each name has 1 to 15 bytes and no blank,
/// each clock starts at a rate of its own, and a board that breaks this is refused for it.
pub fn every_plain_board()
    ensures allows { (board : Board) (a d : ℕ) (s : Scope) → AllowsAll board a d s }
    ensures resets { (board : Board) (a d : ℕ) (s : Scope) (agent flags : ℕ)
        → ResetsToAll board a d s agent flags }
    ensures sets { (board : Board) (v : PowerView) (flags d state : ℕ)
        → SetsByPermission board v flags d state }
    ensures configures { (board : Board) (v : ClockView) (c attributes : ℕ)
        → ConfiguresByPermission board v c attributes }
    ensures finds_domains { (board : Board) (d : ℕ) → FindsDomains board d }
    ensures finds_clocks { (board : Board) (c : ℕ) → FindsClocks board c }
    ensures rounds { (board : Board) (c flags asked : ℕ) → Rounds board c flags asked }
    ensures reads { (board : Board) (m : Message) → ReadsAll board m }
    ensures lists { (board : Board) (caller skip : ℕ) → ListsOwn board caller skip }
    ensures names { (board : Board) → Names board }
    ensures starts { (board : Board) (c : ℕ) → Starts board c }
    ensures refuses { (board : Board) → Refuses board }
    ensures shares { (waiting a : ℕ) (sets : List PendingSet) → SharesAll waiting a sets }
{
    // Nothing to do: the clauses hold of every board.
}
