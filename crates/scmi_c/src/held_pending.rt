//! Pending sets that end before the others, and the rate that the hardware gives one.
ghost use Rattle.std.specs.Prelude.{◌≡◌, ◌↔◌, ◌⊎◌, Err, IfErr, IsSomeAnd, List, None, OnErr, OnOk, true, false};
ghost use Rattle.scmi_core.specs.History.{CanSettle, HasPendingAt};
ghost use Rattle.scmi_core.specs.declared.event.Event.{Event};
ghost use Rattle.scmi_core.specs.declared.event.Event.TheVariants.{Advance, AdvanceFailed, Promoted, Settled};
ghost use Rattle.scmi_c.specs.Calls.{HasHappened};
ghost use Rattle.scmi_c.specs.Driven.{Drives, HappenInTurn};
ghost use Rattle.scmi_c.specs.Kept.{KeepsAskable};
ghost use Rattle.scmi_c.specs.Standing.{HasHistory, StandsAt, board_of};

use crate::held::{Held, count};
use crate::refusal::Refusal;
use scmi_codec::Fault;

impl Held {
    /// Puts the pending set at a place before the others; `false` if none is pending there, and
    /// then nothing changed.
    pub fn promote(&mut self, place: u32) -> bool
        ensures pending { (h : List Event) → StandsAt self.old h →
            (result ≡ true) ↔ HasPendingAt (board_of self.old) h place }
        ensures event { result ≡ true → HasHappened self.old self.new (Promoted place) }
        ensures driven { result ≡ true → Drives self.old self.new (Promoted place) }
        ensures history { HasHistory self.old }
        ensures askable { KeepsAskable self.old self.new }
        ensures same { result ≡ false → self.new ≡ self.old }
    {
        if !self.platform.promote(place as usize) {
            return false;
        }
        count(&mut self.events);
        true
    }

    /// Completes the pending set at a place before the others; `false` if none is pending there,
    /// and then nothing changed.
    pub fn advance_at(&mut self, place: u32) -> bool
        ensures pending { (h : List Event) → StandsAt self.old h →
            (result ≡ true) ↔ HasPendingAt (board_of self.old) h place }
        ensures ok { result ≡ true → HappenInTurn self.old self.new (Promoted place) Advance }
        ensures askable { KeepsAskable self.old self.new }
        ensures same { result ≡ false → self.new ≡ self.old }
    {
        if !self.promote(place) {
            return false;
        }
        // Never `false`, since a set is pending.
        self.advance()
    }

    /// Takes off the pending set at a place before the others, whose change the hardware refused
    /// with this fault; `false` if none is pending there, and then nothing changed.
    pub fn advance_failed_at(&mut self, place: u32, fault: Fault) -> bool
        ensures pending { (h : List Event) → StandsAt self.old h →
            (result ≡ true) ↔ HasPendingAt (board_of self.old) h place }
        ensures ok { result ≡ true
            → HappenInTurn self.old self.new (Promoted place) (AdvanceFailed fault) }
        ensures askable { KeepsAskable self.old self.new }
        ensures same { result ≡ false → self.new ≡ self.old }
    {
        if !self.promote(place) {
            return false;
        }
        // Never refused, since a set is pending.
        self.advance_failed(Some(fault)).is_ok()
    }

    /// As `advance_failed_at`, of a fault that may be missing. `Nothing` if no set is pending at
    /// the place, else `WrongStatus` if there is no fault; then nothing changed.
    pub fn refuse_at(&mut self, place: u32, fault: Option<Fault>) -> Result<(), Refusal>
        ensures ok { OnOk result (IsSomeAnd fault (λ fault.
            HappenInTurn self.old self.new (Promoted place) (AdvanceFailed fault))) }
        ensures askable { KeepsAskable self.old self.new }
        ensures nothing { (h : List Event) → StandsAt self.old h →
            (result ≡ Err Refusal.Nothing) ↔ ¬ (HasPendingAt (board_of self.old) h place) }
        ensures wrong_status { (h : List Event) → StandsAt self.old h →
            (result ≡ Err Refusal.WrongStatus)
            ↔ (HasPendingAt (board_of self.old) h place × (fault ≡ None)) }
        ensures errors { IfErr result (λ e.
            (e ≡ Refusal.Nothing) ⊎ ((e ≡ Refusal.WrongStatus) × (fault ≡ None))) }
        ensures err { OnErr result (self.new ≡ self.old) }
    {
        let Some(fault) = fault else {
            return if self.has_pending_at(place) {
                Err(Refusal::WrongStatus)
            } else {
                Err(Refusal::Nothing)
            };
        };
        if !self.advance_failed_at(place, fault) {
            return Err(Refusal::Nothing);
        }
        Ok(())
    }

    /// Whether a set is pending at a place.
    fn has_pending_at(&self, place: u32) -> bool
        ensures { (h : List Event) → StandsAt self.now h →
            (result ≡ true) ↔ HasPendingAt (board_of self.now) h place }
    {
        (place as usize) < self.platform.pending_sets().len()
    }

    /// Gives the pending set of a free clock this rate; `false` if the clock is not free or has no
    /// pending set, and then nothing changed.
    pub fn settle(&mut self, clock: u32, rate: u64) -> bool
        ensures pending { (h : List Event) → StandsAt self.old h →
            (result ≡ true) ↔ CanSettle (board_of self.old) h clock }
        ensures event { result ≡ true → HasHappened self.old self.new (Settled clock rate) }
        ensures driven { result ≡ true → Drives self.old self.new (Settled clock rate) }
        ensures askable { KeepsAskable self.old self.new }
        ensures same { result ≡ false → self.new ≡ self.old }
    {
        if !self.platform.settle(clock, rate) {
            return false;
        }
        count(&mut self.events);
        true
    }
}
