//! What one agent's command is to another agent, and what each other event is to an agent.
ghost use Rattle.std.specs.Prelude.{◌≡◌, ◌≢◌, ◌++◌, ◌∷◌, [], ℕ, List};
ghost use Rattle.scmi_codec.specs.declared.frame.Frame.{Frame};
ghost use Rattle.scmi_core.specs.History.{answer_to};
ghost use Rattle.scmi_core.specs.Legal.{IsLegal};
ghost use Rattle.scmi_plan.specs.declared.effect.Effect.{Effect};
ghost use Rattle.scmi_core.specs.declared.event.Event.{Event};
ghost use Rattle.scmi_codec.specs.declared.fault.Fault.{Fault};
ghost use Rattle.scmi_core.specs.declared.event.Event.TheVariants.{Advance, AdvanceFailed, Command, CommandFailed, Promoted, Reported, Restarted, Sent, Settled};
ghost use Rattle.scmi_laws.specs.Others.{IsUnanswered, Reaches, SeesCompletion, SeesFailure, SeesPromotion, SeesReport, SeesRestart, SeesSettling, SeesTheSame, situation_of};
ghost use Rattle.scmi_plan.specs.Board.{Board};

/// All that one agent's command is to another agent, in every legal history of every board, whoever
/// made it. It does nothing: its clauses are the laws.
///
/// An answer depends on four things beside the board and the command: the values, what the agent
/// may do, which domains and clocks have a pending set, and whether a set of its own has room.
/// Another agent's command reaches it by no more than one value that the other may change, one
/// pending set more after all others, and one notification that it had asked for. That of the
/// trusted agent may also change permissions and end requests.
pub fn every_other_agent()
    ensures answers { (board : Board) (h k : List Event) (b : ℕ) (frame : Frame)
        → SeesTheSame board b h k → answer_to board b frame h ≡ answer_to board b frame k }
    ensures reaches { (board : Board) (h : List Event) (a b : ℕ) (frame : Frame)
        → IsLegal board h → a ≢ b → Reaches board h (Command a frame) a b }
{
    // Nothing to do: the clauses hold of every history.
}

/// All that each event other than a command is to an agent, in every legal history of every board,
/// whoever made it. It does nothing: its clauses are the laws.
///
/// A completion gives one value, takes one pending set, the first, and makes no more than the
/// delayed response to its own agent and one notification. A set that ends as failed changes no
/// value, and makes no more than that response, which has the status of the fault. A posting to
/// another agent, and a command that failed, whoever asked it and whatever the fault, leave an
/// agent's situation as it was. A restart of another agent ends no set: it only drops that agent's
/// wish for delayed responses, on which no answer depends. A promotion only changes the order of the
/// pending sets, on which no answer depends either, and a settled rate only changes what the pending
/// set of its clock gives that clock. A report of the hardware gives one value, leaves permissions,
/// requests and pending sets, answers nobody, and makes no more than one notification, with the
/// platform, 0, as causer.
pub fn every_event()
    ensures advance { (board : Board) (h : List Event) (b : ℕ)
        → IsLegal board (h ++ Advance ∷ [])
        → SeesCompletion b (situation_of board b h) (situation_of board b (h ++ Advance ∷ [])) }
    ensures advance_failed { (board : Board) (h : List Event) (fault : Fault) (b : ℕ)
        → IsLegal board (h ++ AdvanceFailed fault ∷ [])
        → SeesFailure b fault (situation_of board b h)
        (situation_of board b (h ++ AdvanceFailed fault ∷ [])) }
    ensures sent { (board : Board) (h : List Event) (a b : ℕ) → IsLegal board h → a ≢ b
        → situation_of board b (h ++ Sent a ∷ []) ≡ situation_of board b h }
    ensures command_failed { (board : Board) (h : List Event) (a b : ℕ) (frame : Frame)
        (fault : Fault) → IsLegal board h
        → situation_of board b (h ++ CommandFailed a frame fault ∷ []) ≡ situation_of board b h }
    ensures restarted { (board : Board) (h : List Event) (a b : ℕ) → IsLegal board h → a ≢ b
        → SeesRestart board a b (situation_of board b h)
        (situation_of board b (h ++ Restarted a ∷ [])) }
    ensures promoted { (board : Board) (h : List Event) (place b : ℕ) → IsLegal board h
        → SeesPromotion board place b (situation_of board b h)
        (situation_of board b (h ++ Promoted place ∷ [])) }
    ensures settled { (board : Board) (h : List Event) (clock rate b : ℕ) → IsLegal board h
        → SeesSettling board clock rate b (situation_of board b h)
        (situation_of board b (h ++ Settled clock rate ∷ [])) }
    ensures reported { (board : Board) (h : List Event) (effect : Effect) (b : ℕ)
        → IsLegal board h → SeesReport b effect (situation_of board b h)
        (situation_of board b (h ++ Reported effect ∷ [])) }
    ensures unanswered { (board : Board) (h : List Event) (effect : Effect) (b : ℕ)
        → IsUnanswered board h (Reported effect) b }
{
    // Nothing to do: the clauses hold of every history.
}
