//! Changes that the hardware made by itself, of a platform that keeps its history.
ghost use Rattle.std.specs.Prelude.{◌≡◌, ◌≢◌, ◌⊎◌, ◌<◌, ◌≤◌, ◌+◌, ◌++◌, ◌∷◌, [], ◌↔◌, OnOk, OnErr, IfErr, Err};
ghost use Rattle.scmi_core.specs.Legal.{IsLegal};
ghost use Rattle.scmi_core.specs.Value.{HasNoResource, HasNoState, IsReportable};
ghost use Rattle.scmi_core.specs.declared.event.Event.TheVariants.{Reported};

use crate::core_error::CoreError;
use crate::platform_core::Core;
use scmi_plan::Effect;

impl Core {
    /// Takes over a change that the hardware made by itself, and that no command asked for, and
    /// adds it to the history: reads give the new value from now on, and the subscribers of a
    /// domain whose state is another than before are notified, with the platform, 0, as causer.
    /// Pending sets stay pending, and permissions and requests stay (own). `NoResource` if the
    /// board lacks the domain or clock, `NoState` if a domain's state is neither ON nor OFF, and
    /// `Memory` if the trace could not grow; then nothing changed. A clock may have any rate, and a
    /// domain or clock that the board keeps on may be off.
    pub fn report(&mut self, effect: Effect) -> Result<(), CoreError>
        ensures event { OnOk result
            (self.new.history ≡ self.old.history ++ Reported effect ∷ []) }
        ensures board { self.new.board ≡ self.old.board }
        ensures legal { IsLegal self.new.board self.new.history }
        ensures no_resource { (result ≡ Err CoreError.NoResource)
            ↔ HasNoResource self.old.board effect }
        ensures no_state { (result ≡ Err CoreError.NoState) ↔ HasNoState self.old.board effect }
        ensures memory { 0 < self.old.room → result ≢ Err CoreError.Memory }
        ensures errors { IfErr result (λ e. (e ≡ CoreError.NoResource)
            ⊎ (e ≡ CoreError.NoState) ⊎ (e ≡ CoreError.Memory)) }
        ensures err { OnErr result (self.new ≡ self.old) }
    {
        self.platform.check_effect(effect)?;
        self.trace.reserve()?;
        self.take_over(effect);
        Ok(())
    }

    /// As `report`, for what the hardware may report and with room in the trace.
    pub(crate) fn take_over(&mut self, effect: Effect)
        requires reportable { IsReportable self.old.board effect }
        requires room { 0 < self.old.room }
        ensures event { self.new.history ≡ self.old.history ++ Reported effect ∷ [] }
        ensures board { self.new.board ≡ self.old.board }
        ensures legal { IsLegal self.new.board self.new.history }
        ensures room { self.old.room ≤ self.new.room + 1 }
    {
        self.platform.take_over(effect);
        self.trace.push_reported(effect);
    }
}
