//! What hardware tells by itself, of a platform that keeps its history.
ghost use Rattle.std.specs.Prelude.{◌≡◌, ◌↔◌, ◌≤◌, ◌+◌, ◌++◌, ◌∷◌, [], true, false, IfOk, OnOk, OnErr, IfErr};
ghost use Rattle.scmi_core.specs.Legal.{CanFollow, IsLegal, told};
ghost use Rattle.scmi_core.specs.Value.{IsReportable};
ghost use Rattle.scmi_core.specs.declared.event.Event.TheVariants.{Reported};

use crate::core_error::CoreError;
use crate::platform_core::Core;
use scmi_plan::{Effect, Report};

impl Core {
    /// Takes over what the hardware tells without being asked, as `report`, `promote` and `settle`
    /// do, and adds it to the history. `Ok(false)` if that can't be, and then nothing changed.
    /// `Memory` if it can be and the trace could not grow, the only refusal; then nothing changed
    /// either.
    pub fn tell(&mut self, report: Report) -> Result<bool, CoreError>
        ensures follows { IfOk result (λ did.
            (did ≡ true) ↔ CanFollow self.old.board self.old.history (told report)) }
        ensures event { IfOk result (λ did.
            did ≡ true → self.new.history ≡ self.old.history ++ told report ∷ []) }
        ensures same { IfOk result (λ did. did ≡ false → self.new ≡ self.old) }
        ensures board { self.new.board ≡ self.old.board }
        ensures legal { IsLegal self.new.board self.new.history }
        ensures memory { IfErr result (λ e.
            (e ≡ CoreError.Memory) × (self.old.room ≡ 0)
            × CanFollow self.old.board self.old.history (told report)) }
        ensures room { OnOk result (self.old.room ≤ self.new.room + 1) }
        ensures err { OnErr result (self.new ≡ self.old) }
    {
        match report {
            Report::Changed(effect) => self.tell_changed(effect),
            Report::First(place) => self.promote(place as usize),
            Report::Settled { clock, rate } => self.settle(clock, rate),
        }
    }

    /// As `report`, but `Ok(false)` for what the hardware may not report.
    fn tell_changed(&mut self, effect: Effect) -> Result<bool, CoreError>
        ensures follows { IfOk result (λ did.
            (did ≡ true) ↔ IsReportable self.old.board effect) }
        ensures event { IfOk result (λ did.
            did ≡ true → self.new.history ≡ self.old.history ++ Reported effect ∷ []) }
        ensures same { IfOk result (λ did. did ≡ false → self.new ≡ self.old) }
        ensures board { self.new.board ≡ self.old.board }
        ensures legal { IsLegal self.new.board self.new.history }
        ensures memory { IfErr result (λ e.
            (e ≡ CoreError.Memory) × (self.old.room ≡ 0)
            × IsReportable self.old.board effect) }
        ensures room { OnOk result (self.old.room ≤ self.new.room + 1) }
        ensures err { OnErr result (self.new ≡ self.old) }
    {
        if !self.platform.may_report(effect) {
            return Ok(false);
        }
        self.trace.reserve()?;
        self.take_over(effect);
        Ok(true)
    }
}
