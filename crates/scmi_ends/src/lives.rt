//! The lives of an agent that restarts.
ghost use Rattle.std.specs.Prelude.{ℕ, List};
ghost use Rattle.scmi_core.specs.declared.event.Event.{Event};
ghost use Rattle.scmi_link.specs.View.{CallerView, CalleeView};
ghost use Rattle.scmi_plan.specs.Board.{Board};
ghost use Rattle.scmi_ends.specs.Headline.{CommandsAgree};
ghost use Rattle.scmi_ends.specs.Life.{LifeAgrees};

/// What the headline says of an agent it says of each of its lives. It does nothing: its clause is
/// the law.
///
/// A life begins with the agent's end of `connect`, or with that of `AgentEnd::restart`, and ends
/// with the next restart. So it posted the commands from number j to before number k, j and k being
/// how many the agent had posted at these restarts. `AgentEnd::restart` leaves each of those before
/// answered and read, so its replies are those from number j on as well.
pub fn every_life()
    ensures life { (board : Board) (h : List Event) (a j k : ℕ) (caller : CallerView)
        (callee : CalleeView) → CommandsAgree board h a caller callee
        → LifeAgrees board h a j k caller }
{
    // Nothing to do: the clause holds of every agent.
}
