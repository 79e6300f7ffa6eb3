//! The rate that the hardware gives a pending set.
ghost use Rattle.std.specs.Prelude.{◌≡◌, ◌≢◌, ◌↔◌, ◌⊎◌, ◌≤◌, None, IsSomeAnd, IfSome, List};
ghost use Rattle.scmi_codec.specs.Rate.{rate_of};
ghost use Rattle.scmi_core.specs.History.{CanSettle};
ghost use Rattle.scmi_core.specs.declared.event.Event.{Event};
ghost use Rattle.scmi_core.specs.declared.event.Event.TheVariants.{Settled};
ghost use Rattle.scmi_c.specs.Calls.{HasHappened};
ghost use Rattle.scmi_c.specs.Driven.{Drives};
ghost use Rattle.scmi_c.specs.Kept.{BeforeAfter, HasSameAside, IsAsked, IsUnasked};
ghost use Rattle.scmi_c.specs.Standing.{StandsAt, board_of};
ghost use Rattle.scmi_c.specs.declared.code.TheConstants.{ASKED, DONE, NOTHING, NO_PLATFORM};

use crate::code::{DONE, NOTHING};
use crate::handle::Handle;
use scmi_codec::rate_of;
use std::alloc::Global;

/// The hardware gives the pending set of a free clock this rate in Hz, of which `low` and `high`
/// are the words, and not the one that was asked for. The set stays pending at its place. Once it
/// completes, the clock has this rate, and its delayed response says it. `DONE`; `NO_PLATFORM`;
/// `ASKED` if a command waits to be committed or to fail; `NOTHING` if the clock is not free or has
/// no pending set. After another number than `DONE` nothing changed.
#[unsafe(no_mangle)]
pub extern "C" fn scmi_settled(
    alloc: Global,
    platform: &mut Handle,
    clock: u32,
    low: u32,
    high: u32,
) -> u32
    ensures done { result ≡ DONE →
        BeforeAfter platform.old.value platform.new.value (λ p k.
        IsUnasked k × HasHappened p.held k.held (Settled clock (rate_of low high))) }
    ensures driven { result ≡ DONE →
        BeforeAfter platform.old.value platform.new.value (λ p k.
        Drives p.held k.held (Settled clock (rate_of low high))) }
    ensures nothing { IfSome platform.old.value (λ p. IsUnasked p →
        (h : List Event) → StandsAt p.held h →
        (result ≡ NOTHING) ↔ ¬ (CanSettle (board_of p.held) h clock)) }
    ensures asked { (result ≡ ASKED) ↔ IsSomeAnd platform.old.value IsAsked }
    ensures errors { (result ≤ NOTHING) ⊎ (result ≡ NO_PLATFORM) ⊎ (result ≡ ASKED) }
    ensures aside { HasSameAside platform.old.value platform.new.value }
    ensures no_platform { (result ≡ NO_PLATFORM) ↔ (platform.old.value ≡ None) }
    ensures kept { result ≢ DONE → platform.new.value ≡ platform.old.value }
{
    let mut desk = match platform.take_unasked(alloc) {
        Ok(desk) => desk,
        Err(number) => return number,
    };
    let taken = desk.held.settle(clock, rate_of(low, high));
    platform.put(desk);
    if taken { DONE } else { NOTHING }
}
