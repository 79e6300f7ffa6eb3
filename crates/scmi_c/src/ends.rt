//! What the first pending set is to change of the hardware, and how it ends if the hardware
//! refuses.
ghost use Rattle.std.specs.Prelude.{◌≡◌, ◌≢◌, ◌↔◌, ◌⊎◌, ◌≤◌, Some, None, IsSomeAnd, IfSome, List, option_map};
ghost use Rattle.scmi_core.specs.Effect.{effect_after};
ghost use Rattle.scmi_core.specs.History.{IsIdle};
ghost use Rattle.scmi_core.specs.declared.event.Event.{Event};
ghost use Rattle.scmi_core.specs.declared.event.Event.TheVariants.{Advance, AdvanceFailed};
ghost use Rattle.scmi_codec.specs.declared.fault.Fault.TheVariants.{HardwareError};
ghost use Rattle.scmi_c.specs.Effect.{numbers_of};
ghost use Rattle.scmi_c.specs.Kept.{BeforeAfter, HasSameAside, IsAsked, IsUnasked};
ghost use Rattle.scmi_c.specs.Standing.{StandsAt, board_of};
ghost use Rattle.scmi_c.specs.Calls.{HasHappened};
ghost use Rattle.scmi_c.specs.Driven.{Drives};
ghost use Rattle.scmi_c.specs.declared.code.TheConstants.{ASKED, DONE, NOTHING, NO_PLATFORM};

use crate::code::{DONE, NO_PLATFORM, NOTHING, code};
use crate::effect::{EffectNumbers, put_numbers};
use crate::handle::Handle;
use scmi_codec::Fault;
use std::alloc::Global;

/// Gives what the completion of the first pending set is to change of the hardware. `DONE`;
/// `NO_PLATFORM`; `NOTHING` if none is pending. The platform is as it was.
#[unsafe(no_mangle)]
pub extern "C" fn scmi_ask_advance(
    alloc: Global,
    platform: &mut Handle,
    effect: &mut EffectNumbers,
) -> u32
    ensures done { result ≡ DONE →
        IsSomeAnd platform.old.value (λ p.
        (h : List Event) → StandsAt p.held h →
        option_map numbers_of (effect_after (board_of p.held) h Advance) ≡ Some effect.new) }
    ensures nothing { IfSome platform.old.value (λ p.
        (h : List Event) → StandsAt p.held h →
        (result ≡ NOTHING) ↔ (effect_after (board_of p.held) h Advance ≡ None)) }
    ensures platform { platform.new.value ≡ platform.old.value }
    ensures no_platform { (result ≡ NO_PLATFORM) ↔ (platform.old.value ≡ None) }
    ensures errors { (result ≤ NOTHING) ⊎ (result ≡ NO_PLATFORM) }
    ensures kept { result ≢ DONE → effect.new ≡ effect.old }
{
    let Some(desk) = platform.take(alloc) else {
        return NO_PLATFORM;
    };
    let given = desk.held.platform.effect_of_advance();
    platform.put(desk);
    match given {
        Some(change) => {
            put_numbers(change, effect);
            DONE
        }
        None => NOTHING,
    }
}

/// Takes off the first pending set, whose change the hardware refused; its delayed response, if one
/// was asked for, is HARDWARE_ERROR. `DONE`; `NO_PLATFORM`; `ASKED` if a command waits to be
/// committed or to fail; `NOTHING` if none is pending. After another number than `DONE` nothing
/// changed.
#[unsafe(no_mangle)]
pub extern "C" fn scmi_fail_advance(alloc: Global, platform: &mut Handle) -> u32
    ensures done { result ≡ DONE →
        BeforeAfter platform.old.value platform.new.value (λ p k.
        IsUnasked k × HasHappened p.held k.held (AdvanceFailed HardwareError)) }
    ensures driven { result ≡ DONE →
        BeforeAfter platform.old.value platform.new.value (λ p k.
        Drives p.held k.held (AdvanceFailed HardwareError)) }
    ensures nothing { IfSome platform.old.value (λ p. IsUnasked p →
        (h : List Event) → StandsAt p.held h →
        (result ≡ NOTHING) ↔ IsIdle (board_of p.held) h) }
    ensures asked { (result ≡ ASKED) ↔ IsSomeAnd platform.old.value IsAsked }
    ensures errors { (result ≤ NOTHING) ⊎ (result ≡ NO_PLATFORM) ⊎ (result ≡ ASKED) }
    ensures aside { HasSameAside platform.old.value platform.new.value }
    ensures no_platform { (result ≡ NO_PLATFORM) ↔ (platform.old.value ≡ None) }
    ensures kept { result ≢ DONE → platform.new.value ≡ platform.old.value }
{
    let mut desk = match platform.take_unasked(alloc) {
        Ok(desk) => desk,
        Err(number) => return number,
    };
    let given = desk.held.advance_failed(Some(Fault::HardwareError));
    platform.put(desk);
    code(given)
}
