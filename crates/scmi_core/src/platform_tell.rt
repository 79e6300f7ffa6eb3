//! What hardware tells by itself, of a platform without its history.
ghost use Rattle.std.specs.Prelude.{◌≡◌, ◌↔◌, List, true, false};
ghost use Rattle.scmi_core.specs.Legal.{CanFollow, told};
ghost use Rattle.scmi_core.specs.Standing.{MovesOn, StandsAfter};
ghost use Rattle.scmi_core.specs.Value.{IsReportable};
ghost use Rattle.scmi_core.specs.declared.event.Event.{Event};
ghost use Rattle.scmi_core.specs.declared.event.Event.TheVariants.{Reported};

use crate::platform::Platform;
use scmi_plan::{Effect, Report};

impl Platform {
    /// Takes over what the hardware tells without being asked, as `report`, `promote` and `settle`
    /// do. `false` if that can't be, and then nothing changed.
    pub fn tell(&mut self, report: Report) -> bool
        ensures follows { (h : List Event) → StandsAfter self.old h
            → (result ≡ true) ↔ CanFollow self.old.board h (told report) }
        ensures event { result ≡ true → MovesOn self.old (told report) self.new }
        ensures same { result ≡ false → self.new ≡ self.old }
        ensures board { self.new.board ≡ self.old.board }
    {
        match report {
            Report::Changed(effect) => self.tell_changed(effect),
            Report::First(place) => self.promote(place as usize),
            Report::Settled { clock, rate } => self.settle(clock, rate),
        }
    }

    /// As `report`, but `false` for what the hardware may not report.
    fn tell_changed(&mut self, effect: Effect) -> bool
        ensures follows { (result ≡ true) ↔ IsReportable self.old.board effect }
        ensures event { result ≡ true → MovesOn self.old (Reported effect) self.new }
        ensures same { result ≡ false → self.new ≡ self.old }
        ensures board { self.new.board ≡ self.old.board }
    {
        if !self.may_report(effect) {
            return false;
        }
        self.take_over(effect);
        true
    }

    /// Whether the hardware may report a change.
    pub(crate) fn may_report(&self, effect: Effect) -> bool
        ensures { (result ≡ true) ↔ IsReportable self.now.board effect }
    {
        self.check_effect(effect).is_ok()
    }
}
