//! What a controller adds to a history without the hardware's refusals and reports, and without
//! restarts.
ghost use Rattle.std.specs.Prelude.{ℕ, Bool};
ghost use Rattle.std.specs.List.{All};
ghost use Rattle.scmi_core.specs.Plain.{IsPlain};
ghost use Rattle.scmi_link.specs.declared.flushed.Flushed.{Flushed};
ghost use Rattle.scmi_link.specs.declared.served.Served.{Served};
ghost use Rattle.scmi_ends.specs.ControllerView.{ControllerView};
ghost use Rattle.scmi_ends.specs.Flush.{Flushes};
ghost use Rattle.scmi_ends.specs.Serve.{Serves};

/// Beside hardware that never refuses and reports nothing, and without restarts, the history of a
/// controller has commands, advances and postings alone. It does nothing: its clauses are the laws.
///
/// `serve`, and `serve_on` if the hardware never refuses (`obeyed`), add a command or nothing, and
/// `flush` a posting or nothing. `advance`, and `advance_on` if the hardware never refuses, add an
/// advance or nothing. `restart` alone adds a restart, and `report` and `tell` alone what the
/// hardware reports.
pub fn every_plain_call()
    ensures serves { (a : ℕ) (old : ControllerView) (served : Served) (new : ControllerView)
        → Serves a old served new → All IsPlain old.history → All IsPlain new.history }
    ensures flushes { (full : Bool) (a : ℕ) (old : ControllerView) (flushed : Flushed)
        (new : ControllerView) → Flushes full a old flushed new
        → All IsPlain old.history → All IsPlain new.history }
{
    // Nothing to do: the clauses hold of every controller.
}
