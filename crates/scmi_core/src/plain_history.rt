//! What a platform is without the hardware's refusals and reports, restarts, promotions and
//! settlings.
ghost use Rattle.std.specs.Prelude.{◌++◌, ◌∷◌, [], List};
ghost use Rattle.std.specs.List.{All};
ghost use Rattle.scmi_plan.specs.Board.{Board};
ghost use Rattle.scmi_core.specs.Legal.{IsLegal};
ghost use Rattle.scmi_core.specs.Plain.{EndsInOrder, HasPlainHistory, HasPlainOrigins, IsNoPromotion, IsNoSettling, IsPlain};
ghost use Rattle.scmi_core.specs.Standing.{MovesOn, Standing, StandsAfter};
ghost use Rattle.scmi_core.specs.declared.event.Event.{Event};

/// Beside hardware that never refuses and reports nothing, and without restarts, promotions and
/// settlings, a history has commands, advances and postings alone, and a platform is as such a
/// history leaves it. Whatever else it has, without promotions sets end in order of acceptance, and
/// if none was settled each change is what a command asked for, or the hardware reported it. It does
/// nothing: its clauses are the laws.
///
/// `Core` and `Platform` add one event with each call. It is plain if the call is `command`,
/// `advance` or `sent`, or if it is `command_on` or `advance_on` and the hardware never refuses
/// (`obeyed`).
pub fn every_plain_history()
    ensures history { (h : List Event) (event : Event) → IsPlain event → All IsPlain h
        → All IsPlain (h ++ event ∷ []) }
    ensures start { (p : Standing) → StandsAfter p [] → HasPlainHistory p }
    ensures platform { (p k : Standing) (event : Event) → IsPlain event → MovesOn p event k
        → HasPlainHistory p → HasPlainHistory k }
    ensures order { (board : Board) (h : List Event) → All IsNoPromotion h
        → EndsInOrder board h }
    ensures asked { (board : Board) (h : List Event) → IsLegal board h → All IsNoSettling h
        → HasPlainOrigins board h }
{
    // Nothing to do: the clauses hold of every history.
}
