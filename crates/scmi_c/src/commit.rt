//! What a program answers once it has asked the hardware.
ghost use Rattle.std.specs.Prelude.{◌≡◌, ◌≢◌, ◌↔◌, ◌⊎◌, None, IsSomeAnd};
ghost use Rattle.scmi_codec.specs.declared.area.TheConstants.{AREA_BYTES};
ghost use Rattle.scmi_core.specs.Asked.{Made, Refused};
ghost use Rattle.scmi_core.specs.declared.event.Event.TheVariants.{Command as Called, CommandFailed};
ghost use Rattle.scmi_codec.specs.declared.fault.Fault.TheVariants.{HardwareError};
ghost use Rattle.scmi_c.specs.Calls.{HasAnswered, HasFailed};
ghost use Rattle.scmi_c.specs.Driven.{Drives, Says};
ghost use Rattle.scmi_c.specs.Kept.{HasSameAside, IsUnasked, OfAsked};
ghost use Rattle.scmi_c.specs.declared.code.TheConstants.{DONE, NOTHING, NO_PLATFORM, WRONG_SIZE};

use crate::commit_in::{scmi_commit_in, scmi_fail_in};
use crate::handle::Handle;
use scmi_codec::AREA_BYTES;
use std::alloc::Global;

/// Executes the command that `scmi_ask` gave a change of, which the hardware has made, and writes
/// its answer whole: nothing of the area is read. So the program says of the hardware that it made
/// that change. `DONE`; `NO_PLATFORM`; `NOTHING` if no command was asked about; `WRONG_SIZE` if it
/// was in an area of another size. After another number than `DONE` nothing changed, and nothing is
/// said.
#[unsafe(no_mangle)]
pub extern "C" fn scmi_commit(
    alloc: Global,
    platform: &mut Handle,
    area: &mut [u8; AREA_BYTES],
) -> u32
    ensures done { result ≡ DONE →
        OfAsked platform.old.value platform.new.value (λ p k asked.
        IsUnasked k
        × HasAnswered p.held k.held asked.agent asked.frame area.old area.new) }
    ensures driven { result ≡ DONE →
        OfAsked platform.old.value platform.new.value (λ p k asked.
        Drives p.held k.held (Called asked.agent asked.frame)) }
    ensures said { result ≡ DONE →
        OfAsked platform.old.value platform.new.value (λ p k asked.
        Says Made asked.change p.held k.held) }
    ensures aside { HasSameAside platform.old.value platform.new.value }
    ensures no_platform { (result ≡ NO_PLATFORM) ↔ (platform.old.value ≡ None) }
    ensures nothing { (result ≡ NOTHING) ↔ IsSomeAnd platform.old.value IsUnasked }
    ensures wrong_size { (result ≡ WRONG_SIZE) ↔ IsSomeAnd platform.old.value (λ p.
        IsSomeAnd p.asked (λ asked. asked.bytes ≢ AREA_BYTES)) }
    ensures errors { (result ≡ DONE) ⊎ (result ≡ NO_PLATFORM) ⊎
        (result ≡ NOTHING) ⊎ (result ≡ WRONG_SIZE) }
    ensures kept { result ≢ DONE →
        (platform.new.value ≡ platform.old.value) × (area.new ≡ area.old) }
{
    scmi_commit_in(alloc, platform, area)
}

/// Answers the command that `scmi_ask` gave a change of, which the hardware refused, by
/// HARDWARE_ERROR, and writes its answer whole: nothing of the area is read. So the program says of
/// the hardware that it refused that change. `DONE`; `NO_PLATFORM`; `NOTHING` if no command was
/// asked about; `WRONG_SIZE` if it was in an area of another size. After another number than `DONE`
/// nothing changed, and nothing is said.
#[unsafe(no_mangle)]
pub extern "C" fn scmi_fail(
    alloc: Global,
    platform: &mut Handle,
    area: &mut [u8; AREA_BYTES],
) -> u32
    ensures done { result ≡ DONE →
        OfAsked platform.old.value platform.new.value (λ p k asked.
        IsUnasked k
        × HasFailed p.held k.held asked.agent asked.frame HardwareError area.old area.new) }
    ensures driven { result ≡ DONE →
        OfAsked platform.old.value platform.new.value (λ p k asked.
        Drives p.held k.held (CommandFailed asked.agent asked.frame HardwareError)) }
    ensures said { result ≡ DONE →
        OfAsked platform.old.value platform.new.value (λ p k asked.
        Says (λ change. Refused change HardwareError) asked.change p.held k.held) }
    ensures aside { HasSameAside platform.old.value platform.new.value }
    ensures no_platform { (result ≡ NO_PLATFORM) ↔ (platform.old.value ≡ None) }
    ensures nothing { (result ≡ NOTHING) ↔ IsSomeAnd platform.old.value IsUnasked }
    ensures wrong_size { (result ≡ WRONG_SIZE) ↔ IsSomeAnd platform.old.value (λ p.
        IsSomeAnd p.asked (λ asked. asked.bytes ≢ AREA_BYTES)) }
    ensures errors { (result ≡ DONE) ⊎ (result ≡ NO_PLATFORM) ⊎
        (result ≡ NOTHING) ⊎ (result ≡ WRONG_SIZE) }
    ensures kept { result ≢ DONE →
        (platform.new.value ≡ platform.old.value) × (area.new ≡ area.old) }
{
    scmi_fail_in(alloc, platform, area)
}
