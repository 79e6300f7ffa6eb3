//! A pending set that goes before the others, of a platform without its history.
ghost use Rattle.std.specs.Prelude.{◌≡◌, ◌↔◌, ◌≤◌, ◌<◌, List, length, true, false};
ghost use Rattle.scmi_plan.specs.declared.limits.TheConstants.{PENDING_SETS};
ghost use Rattle.scmi_core.specs.History.{HasPendingAt};
ghost use Rattle.scmi_core.specs.Standing.{MovesOn, StandsAfter};
ghost use Rattle.scmi_core.specs.declared.event.Event.{Event};
ghost use Rattle.scmi_core.specs.declared.event.Event.TheVariants.{Promoted};

use crate::platform::Platform;

impl Platform {
    /// Puts the pending set at a place before the others, which stay in order, so that it is the
    /// next to end: the hardware finished it before them (own). Places are counted from 0, the
    /// first. `false` if no set is pending at that place, and then nothing changed.
    pub fn promote(&mut self, place: usize) -> bool
        ensures pending { (h : List Event) → StandsAfter self.old h
            → (result ≡ true) ↔ HasPendingAt self.old.board h place }
        ensures event { result ≡ true → MovesOn self.old (Promoted place) self.new }
        ensures same { result ≡ false → self.new ≡ self.old }
        ensures board { self.new.board ≡ self.old.board }
    {
        if !self.has_pending_at(place) {
            return false;
        }
        self.put_first(place);
        true
    }

    /// Whether a set is pending at a place.
    pub(crate) fn has_pending_at(&self, place: usize) -> bool
        ensures pending { (result ≡ true) ↔ (place < length self.now.tables.pending) }
        ensures few { result ≡ true → place < PENDING_SETS }
    {
        place < self.tables.pending.len()
    }

    /// As `promote`, for a place at which a set is pending.
    pub(crate) fn put_first(&mut self, place: usize)
        requires pending { place < length self.now.tables.pending }
        ensures event { MovesOn self.old (Promoted place) self.new }
        ensures board { self.new.board ≡ self.old.board }
    {
        self.tables.promote(place);
    }
}
