//! How a pending set ends that the hardware finished before the others.
ghost use Rattle.std.specs.Prelude.{◌≡◌, ◌≢◌, ◌↔◌, ◌⊎◌, ◌≤◌, None, IsSomeAnd, IfSome, List};
ghost use Rattle.scmi_core.specs.History.{HasPendingAt};
ghost use Rattle.scmi_core.specs.declared.event.Event.{Event};
ghost use Rattle.scmi_core.specs.declared.event.Event.TheVariants.{Advance, AdvanceFailed, Promoted};
ghost use Rattle.scmi_codec.specs.declared.fault.Fault.TheVariants.{HardwareError};
ghost use Rattle.scmi_c.specs.Fault.{fault_said};
ghost use Rattle.scmi_c.specs.Kept.{HasSameAside, IsAsked, IsUnasked};
ghost use Rattle.scmi_c.specs.Standing.{StandsAt, board_of};
ghost use Rattle.scmi_c.specs.Driven.{HappenInTurn};
ghost use Rattle.scmi_c.specs.declared.code.TheConstants.{ASKED, DONE, NOTHING, NO_PLATFORM, WRONG_STATUS};

use crate::code::{DONE, NOTHING, code};
use crate::fault::fault_said;
use crate::handle::Handle;
use scmi_codec::Fault;
use std::alloc::Global;

/// Completes the pending set at a place before the others, which stay in order; the hardware has
/// made its change. Places are counted from 0, the first, and `scmi_pending` gives the set at each.
/// `DONE`; `NO_PLATFORM`; `ASKED` if a command waits to be committed or to fail; `NOTHING` if none
/// is pending at that place. After another number than `DONE` nothing changed. It counts as two
/// events.
#[unsafe(no_mangle)]
pub extern "C" fn scmi_advance_at(alloc: Global, platform: &mut Handle, place: u32) -> u32
    ensures done { result ≡ DONE →
        IsSomeAnd platform.old.value (λ p.
        IsSomeAnd platform.new.value (λ k.
        IsUnasked k × HappenInTurn p.held k.held (Promoted place) Advance)) }
    ensures nothing { IfSome platform.old.value (λ p. IsUnasked p →
        (h : List Event) → StandsAt p.held h →
        (result ≡ NOTHING) ↔ ¬ (HasPendingAt (board_of p.held) h place)) }
    ensures asked { (result ≡ ASKED) ↔ IsSomeAnd platform.old.value IsAsked }
    ensures errors { (result ≤ NOTHING) ⊎ (result ≡ NO_PLATFORM) ⊎ (result ≡ ASKED) }
    ensures aside { HasSameAside platform.old.value platform.new.value }
    ensures no_platform { (result ≡ NO_PLATFORM) ↔ (platform.old.value ≡ None) }
    ensures kept { result ≢ DONE → platform.new.value ≡ platform.old.value }
{
    let mut desk = match platform.take_unasked(alloc) {
        Ok(desk) => desk,
        Err(number) => return number,
    };
    let completed = desk.held.advance_at(place);
    platform.put(desk);
    if completed { DONE } else { NOTHING }
}

/// As `scmi_advance_at`, of a set whose change the hardware refused: its delayed response, if one
/// was asked for, is HARDWARE_ERROR.
#[unsafe(no_mangle)]
pub extern "C" fn scmi_fail_advance_at(alloc: Global, platform: &mut Handle, place: u32) -> u32
    ensures done { result ≡ DONE →
        IsSomeAnd platform.old.value (λ p.
        IsSomeAnd platform.new.value (λ k.
        IsUnasked k
        × HappenInTurn p.held k.held (Promoted place) (AdvanceFailed HardwareError))) }
    ensures nothing { IfSome platform.old.value (λ p. IsUnasked p →
        (h : List Event) → StandsAt p.held h →
        (result ≡ NOTHING) ↔ ¬ (HasPendingAt (board_of p.held) h place)) }
    ensures asked { (result ≡ ASKED) ↔ IsSomeAnd platform.old.value IsAsked }
    ensures errors { (result ≤ NOTHING) ⊎ (result ≡ NO_PLATFORM) ⊎ (result ≡ ASKED) }
    ensures aside { HasSameAside platform.old.value platform.new.value }
    ensures no_platform { (result ≡ NO_PLATFORM) ↔ (platform.old.value ≡ None) }
    ensures kept { result ≢ DONE → platform.new.value ≡ platform.old.value }
{
    let mut desk = match platform.take_unasked(alloc) {
        Ok(desk) => desk,
        Err(code) => return code,
    };
    let ended = desk.held.advance_failed_at(place, Fault::HardwareError);
    platform.put(desk);
    if ended { DONE } else { NOTHING }
}

/// As `scmi_fail_advance_at`, by a status as `scmi_refuse` takes it, which the event and the
/// delayed response have. `WRONG_STATUS` if the number is another, after all other refusals.
#[unsafe(no_mangle)]
pub extern "C" fn scmi_refuse_advance_at(
    alloc: Global,
    platform: &mut Handle,
    place: u32,
    status: u32,
) -> u32
    ensures done { result ≡ DONE →
        IsSomeAnd platform.old.value (λ p.
        IsSomeAnd platform.new.value (λ k.
        IsSomeAnd (fault_said status) (λ fault.
        IsUnasked k × HappenInTurn p.held k.held (Promoted place) (AdvanceFailed fault)))) }
    ensures nothing { IfSome platform.old.value (λ p. IsUnasked p →
        (h : List Event) → StandsAt p.held h →
        (result ≡ NOTHING) ↔ ¬ (HasPendingAt (board_of p.held) h place)) }
    ensures wrong_status { IfSome platform.old.value (λ p. IsUnasked p →
        (h : List Event) → StandsAt p.held h →
        (result ≡ WRONG_STATUS)
        ↔ (HasPendingAt (board_of p.held) h place × (fault_said status ≡ None))) }
    ensures asked { (result ≡ ASKED) ↔ IsSomeAnd platform.old.value IsAsked }
    ensures errors { (result ≤ NOTHING) ⊎ (result ≡ NO_PLATFORM) ⊎ (result ≡ ASKED) ⊎
        (result ≡ WRONG_STATUS) }
    ensures aside { HasSameAside platform.old.value platform.new.value }
    ensures no_platform { (result ≡ NO_PLATFORM) ↔ (platform.old.value ≡ None) }
    ensures kept { result ≢ DONE → platform.new.value ≡ platform.old.value }
{
    let mut desk = match platform.take_unasked(alloc) {
        Ok(desk) => desk,
        Err(refused) => return refused,
    };
    let given = desk.held.refuse_at(place, fault_said(status));
    platform.put(desk);
    code(given)
}
