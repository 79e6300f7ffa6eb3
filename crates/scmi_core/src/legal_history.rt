//! What every legal history keeps.
ghost use Rattle.std.specs.Prelude.{◌≡◌, ◌++◌, ◌∷◌, [], ℕ, List, true};
ghost use Rattle.std.specs.List.{All};
ghost use Rattle.std.specs.Option.{option_to_list};
ghost use Rattle.scmi_plan.specs.Board.{Board};
ghost use Rattle.scmi_core.specs.Asked.{made_of};
ghost use Rattle.scmi_core.specs.Bounds.{HasBounds, HasResponses};
ghost use Rattle.scmi_plan.specs.Plan.{IsValid};
ghost use Rattle.scmi_core.specs.Channels.{KeepsChannels};
ghost use Rattle.scmi_core.specs.Driven.{asks};
ghost use Rattle.scmi_core.specs.Effect.{commanded_effects, effect_after, effects};
ghost use Rattle.scmi_core.specs.History.{deeds};
ghost use Rattle.scmi_core.specs.Laws.{AreAlikeBut, HasIntegrity, HasIsolation, HasTrustedPermissions, KeepsOn, is_refused};
ghost use Rattle.scmi_core.specs.Legal.{IsLegal};
ghost use Rattle.scmi_core.specs.Plain.{IsNoReport};
ghost use Rattle.scmi_core.specs.Reports.{IsTakenOver};
ghost use Rattle.scmi_plan.specs.declared.effect.Effect.{Effect};
ghost use Rattle.scmi_core.specs.declared.event.Event.{Event};

use crate::trace::Trace;

impl Trace {
    /// What these events keep if they are a legal history of a board: the laws of
    /// `every_legal_history`, of this one. It does nothing.
    pub fn laws(&self)
        ensures bounds { (board : Board) → IsLegal board self.now.events
            → HasBounds board (deeds board self.now.events) }
        ensures responses { (board : Board) → IsLegal board self.now.events
            → HasResponses board (deeds board self.now.events) }
        ensures isolation { (board : Board) → IsLegal board self.now.events
            → HasIsolation board self.now.events }
        ensures integrity { (board : Board) → IsLegal board self.now.events
            → HasIntegrity board self.now.events }
        ensures permissions { (board : Board) → IsLegal board self.now.events
            → HasTrustedPermissions board self.now.events }
        ensures kept { (board : Board) → IsLegal board self.now.events
            → KeepsOn board self.now.events }
        ensures channels { (board : Board) → IsValid board → IsLegal board self.now.events
            → KeepsChannels board self.now.events }
    {
        every_legal_history();
    }
}

/// What every legal history of every board keeps, whoever made it. It does nothing: its clauses
/// are the laws.
///
/// At most 8 sets are pending, an agent's outbox and its pending sets are at most 16 together, and
/// no delayed response is lost unless its agent restarts. A command that is refused moves nobody.
/// Without all the commands that an agent had refused, a history is as legal, and the same to every
/// other agent. Each change came of a command whose agent might make that change there, or the
/// hardware reported it, and only the trusted agent decides what agents may do. A change is what
/// its command asked for, but for the rate of a free clock that the hardware settled after the
/// command. No agent switches
/// off what the board keeps. Each answer and each message has room in its agent's channels, and for
/// an agent that the platform can't send to none is made. What a history changes of the hardware is
/// what each event changes, in order, and the hardware is asked for all of it but what it reported.
/// What it reports is the thing's value from then on, and leaves all else but the notifications.
pub fn every_legal_history()
    ensures bounds { (board : Board) (h : List Event) → IsLegal board h
        → HasBounds board (deeds board h) }
    ensures responses { (board : Board) (h : List Event) → IsLegal board h
        → HasResponses board (deeds board h) }
    ensures refused { (board : Board) (h : List Event) (a : ℕ) (event : Event) → IsLegal board h
        → is_refused board a h event ≡ true → AreAlikeBut board a (h ++ event ∷ []) h }
    ensures isolation { (board : Board) (h : List Event) → IsLegal board h
        → HasIsolation board h }
    ensures integrity { (board : Board) (h : List Event) → IsLegal board h
        → HasIntegrity board h }
    ensures permissions { (board : Board) (h : List Event) → IsLegal board h
        → HasTrustedPermissions board h }
    ensures kept { (board : Board) (h : List Event) → IsLegal board h → KeepsOn board h }
    ensures channels { (board : Board) (h : List Event) → IsValid board → IsLegal board h
        → KeepsChannels board h }
    ensures made { (board : Board) (h : List Event)
        → made_of (asks board h) ≡ commanded_effects board h }
    ensures unreported { (board : Board) (h : List Event) → All IsNoReport h
        → commanded_effects board h ≡ effects board h }
    ensures reports { (board : Board) (h : List Event) (effect : Effect) → IsLegal board h
        → IsTakenOver board h effect }
    ensures effects { (board : Board) (h : List Event) (event : Event)
        → effects board (h ++ event ∷ [])
        ≡ effects board h ++ option_to_list (effect_after board h event) }
{
    // Nothing to do: the clauses hold of every history.
}
