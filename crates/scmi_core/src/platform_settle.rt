//! The rate that a pending set gives a free clock, of a platform without its history.
ghost use Rattle.std.specs.Prelude.{◌≡◌, ◌↔◌, List, true, false};
ghost use Rattle.scmi_core.specs.History.{CanSettle};
ghost use Rattle.scmi_core.specs.Standing.{MovesOn, StandsAfter};
ghost use Rattle.scmi_core.specs.Tables.{CanSettleIn};
ghost use Rattle.scmi_core.specs.declared.event.Event.{Event};
ghost use Rattle.scmi_core.specs.declared.event.Event.TheVariants.{Settled};

use crate::platform::Platform;
use scmi_plan::Resource;

impl Platform {
    /// Gives the pending set of a free clock this rate in Hz, so that the clock has it once the set
    /// completes, and the delayed response gives it: the hardware makes this rate, and not quite the
    /// one that was asked for (own). `false` if the board lacks the clock, the clock is not free or
    /// has no pending set, and then nothing changed.
    pub fn settle(&mut self, clock: u32, rate: u64) -> bool
        ensures pending { (h : List Event) → StandsAfter self.old h
            → (result ≡ true) ↔ CanSettle self.old.board h clock }
        ensures event { result ≡ true → MovesOn self.old (Settled clock rate) self.new }
        ensures same { result ≡ false → self.new ≡ self.old }
        ensures board { self.new.board ≡ self.old.board }
    {
        if !self.can_settle(clock) {
            return false;
        }
        self.give_rate(clock, rate);
        true
    }

    /// Whether a clock is free and has a pending set.
    pub(crate) fn can_settle(&self, clock: u32) -> bool
        ensures { (result ≡ true) ↔ CanSettleIn self.now.board self.now.tables clock }
    {
        clock < self.plan.clocks()
            && self.plan.is_free(clock)
            && self.tables.pending.is_pending(Resource::Clock(clock))
    }

    /// As `settle`, for a free clock that has a pending set.
    pub(crate) fn give_rate(&mut self, clock: u32, rate: u64)
        requires pending { CanSettleIn self.now.board self.now.tables clock }
        ensures event { MovesOn self.old (Settled clock rate) self.new }
        ensures board { self.new.board ≡ self.old.board }
    {
        self.tables.settle(clock, rate);
    }
}
