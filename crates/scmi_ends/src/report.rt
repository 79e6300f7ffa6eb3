//! What the hardware reports by itself.
ghost use Rattle.std.specs.Prelude.{◌≡◌, ◌⊎◌, ◌++◌, ◌∷◌, ◌↔◌, [], true, false, Err, OnOk, OnErr, IfOk, IfErr};
ghost use Rattle.scmi_core.specs.Driven.{asks};
ghost use Rattle.scmi_core.specs.Legal.{CanFollow, told};
ghost use Rattle.scmi_core.specs.Value.{HasNoResource, HasNoState};
ghost use Rattle.scmi_core.specs.declared.event.Event.TheVariants.{Reported};

use crate::controller::Controller;
use scmi_core::{CoreError, Effect};
use scmi_link::Channel;
use scmi_plan::Report;

impl<C: Channel> Controller<C> {
    ghost use Rattle.scmi_ends.specs.Agreement.{IsInStep};

    /// Takes over a change that the hardware made by itself, and that no command asked for, and
    /// adds it to the history, as `Core::report`: reads give the new value from now on, and the
    /// notifications of a domain's change wait in the outboxes until `flush` posts them (own). The
    /// hardware is asked for nothing.
    ///
    /// `NoResource` if the board lacks the domain or clock, `NoState` if a domain's state is
    /// neither ON nor OFF, and `Memory`, checked last, if the trace could not grow. After an error
    /// nothing changed.
    pub fn report(&mut self, effect: Effect) -> Result<(), CoreError>
        ensures agrees { IsInStep self.new }
        ensures board { self.new.board ≡ self.old.board }
        ensures event { OnOk result (self.new ≡ record self.old {
          history = self.old.history ++ Reported effect ∷ [];
          room = self.new.room;
        }) }
        ensures made { asks self.new.board self.new.history
            ≡ asks self.old.board self.old.history }
        ensures no_resource { (result ≡ Err CoreError.NoResource)
            ↔ HasNoResource self.old.board effect }
        ensures no_state { (result ≡ Err CoreError.NoState) ↔ HasNoState self.old.board effect }
        ensures memory { result ≡ Err CoreError.Memory → self.old.room ≡ 0 }
        ensures errors { IfErr result (λ e. (e ≡ CoreError.NoResource)
            ⊎ (e ≡ CoreError.NoState) ⊎ (e ≡ CoreError.Memory)) }
        ensures err { OnErr result (self.new ≡ self.old) }
    {
        self.core.report(effect)
    }

    /// Takes over what the hardware reports, and adds that to the history, as `Core::tell`: a
    /// change that it made by itself, as `report`; that it ends the pending set at a place before
    /// the others; or the rate that it gives a free clock which has a pending set (own). The
    /// hardware is asked for nothing.
    ///
    /// `Ok(false)` if the platform can't take it over, and then nothing changed: the board lacks
    /// the domain or clock, the state is neither ON nor OFF, no set is pending there, or the clock
    /// is not free. `Memory` if it can and the trace could not grow, the only refusal; then nothing
    /// changed either.
    pub fn tell(&mut self, report: Report) -> Result<bool, CoreError>
        ensures agrees { IsInStep self.new }
        ensures board { self.new.board ≡ self.old.board }
        ensures follows { IfOk result (λ did.
            (did ≡ true) ↔ CanFollow self.old.board self.old.history (told report)) }
        ensures event { IfOk result (λ did. did ≡ true → self.new ≡ record self.old {
          history = self.old.history ++ told report ∷ [];
          room = self.new.room;
        }) }
        ensures same { IfOk result (λ did. did ≡ false → self.new ≡ self.old) }
        ensures made { asks self.new.board self.new.history
            ≡ asks self.old.board self.old.history }
        ensures memory { IfErr result (λ e. (e ≡ CoreError.Memory) × (self.old.room ≡ 0)
            × CanFollow self.old.board self.old.history (told report)) }
        ensures err { OnErr result (self.new ≡ self.old) }
    {
        self.core.tell(report)
    }
}
