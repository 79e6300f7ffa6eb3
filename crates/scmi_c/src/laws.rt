//! What holds of each platform that a program drives, of each whose hardware refuses and reports
//! nothing, and of what is held back.
ghost use Rattle.std.specs.Prelude.{◌≡◌, ℕ, List, []};
ghost use Rattle.std.specs.List.{All};
ghost use Rattle.scmi_codec.specs.declared.frame.Frame.{Frame};
ghost use Rattle.scmi_codec.specs.declared.frame.Frame.TheVariants.{Malformed};
ghost use Rattle.scmi_core.specs.Asked.{made_of};
ghost use Rattle.scmi_core.specs.Effect.{commanded_effects, effects};
ghost use Rattle.scmi_core.specs.Plain.{IsNoReport, IsPlain};
ghost use Rattle.scmi_core.specs.declared.event.Event.{Event};
ghost use Rattle.scmi_c.specs.Aside.{IsHeldBack};
ghost use Rattle.scmi_c.specs.Calls.{HasHappened};
ghost use Rattle.scmi_c.specs.Driven.{IsDriven, failures, refused_of};
ghost use Rattle.scmi_c.specs.Kept.{HasNoneAside, Kept};
ghost use Rattle.scmi_c.specs.Plain.{HasPlainHistory};
ghost use Rattle.scmi_c.specs.Standing.{Held, StandsAt, board_of};

/// What a program has said of the hardware of a platform that it drives: the changes that the
/// hardware made are those of the history but what it reported, in order, each once, and those that
/// it refused are those that failed. A platform that was made is driven, and each call that a
/// driver uses leaves it driven: `scmi_ask`, `scmi_commit`, `scmi_commit_rate`, `scmi_fail`,
/// `scmi_refuse`, their kin for areas and words, `scmi_advance`, `scmi_fail_advance`,
/// `scmi_refuse_advance`, `scmi_advance_at`, `scmi_fail_advance_at`, `scmi_refuse_advance_at`,
/// `scmi_settled`, `scmi_sent`, `scmi_restart`, `scmi_domain_is` and `scmi_clock_is`. It does
/// nothing: its clauses are the laws.
pub fn every_driver()
    ensures made { (p : Held) (h : List Event) → IsDriven p h
        → made_of p.said ≡ commanded_effects (board_of p) h }
    ensures unreported { (p : Held) (h : List Event) → IsDriven p h → All IsNoReport h
        → made_of p.said ≡ effects (board_of p) h }
    ensures refused { (p : Held) (h : List Event) → IsDriven p h
        → refused_of p.said ≡ failures (board_of p) h }
{
    // Nothing to do: the clauses hold of every platform.
}

/// A platform that was made, and of which since then nothing was refused, restarted, promoted,
/// settled or reported, is at a history of commands, completions and postings alone: all events but
/// those of `scmi_fail` and `scmi_refuse`, their kin for areas, words and pending sets,
/// `scmi_restart`, `scmi_settled`, `scmi_domain_is` and `scmi_clock_is`, the report that
/// `scmi_commit_rate` and its kin put behind the command, and the promotions of `scmi_advance_at`,
/// `scmi_fail_advance_at` and `scmi_refuse_advance_at`. It does nothing: its clauses are the laws.
pub fn plain_histories()
    ensures made { (p : Held) → StandsAt p [] → HasPlainHistory p }
    ensures event { (p k : Held) (event : Event) → HasPlainHistory p → HasHappened p k event
        → IsPlain event → HasPlainHistory k }
{
    // Nothing to do: the clauses hold of every platform.
}

/// What is held back while commands are set aside. If none is, no frame is held back, so `scmi_ask`
/// and its kin serve a program that sets nothing aside as if there were no such calls. A frame that
/// is no message is never held back. It does nothing: its clauses are the laws.
pub fn nothing_held_back()
    ensures free { (p : Kept) (agent : ℕ) (frame : Frame) → HasNoneAside p
        → ¬ (IsHeldBack p agent frame) }
    ensures malformed { (p : Kept) (agent len header : ℕ) →
        ¬ (IsHeldBack p agent (Malformed len header)) }
{
    // Nothing to do: the clauses hold of every platform.
}
