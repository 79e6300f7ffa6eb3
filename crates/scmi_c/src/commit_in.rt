//! The same in areas of the size of their agent's channel.
ghost use Rattle.std.specs.Prelude.{◌≡◌, ◌≢◌, ◌↔◌, ◌⊎◌, None, IsSomeAnd, length};
ghost use Rattle.scmi_core.specs.Asked.{Made, Refused};
ghost use Rattle.scmi_core.specs.declared.event.Event.TheVariants.{Command as Called, CommandFailed};
ghost use Rattle.scmi_codec.specs.declared.fault.Fault.TheVariants.{HardwareError};
ghost use Rattle.scmi_c.specs.Calls.{HasAnswered, HasFailed};
ghost use Rattle.scmi_c.specs.Driven.{Drives, Says};
ghost use Rattle.scmi_c.specs.Kept.{HasSameAside, IsUnasked, OfAsked};
ghost use Rattle.scmi_c.specs.declared.code.TheConstants.{DONE, NOTHING, NO_PLATFORM, WRONG_SIZE};

use crate::code::{NO_PLATFORM, code};
use crate::handle::Handle;
use crate::settle::{commit, fail};
use scmi_codec::Fault;
use std::alloc::Global;

/// As `scmi_commit`, into an area of the size of its agent's channel.
#[unsafe(no_mangle)]
pub extern "C" fn scmi_commit_in(alloc: Global, platform: &mut Handle, area: &mut [u8]) -> u32
    ensures done { result ≡ DONE →
        OfAsked platform.old.value platform.new.value (λ p k asked.
        IsUnasked k
        × HasAnswered p.held k.held asked.agent asked.frame area.old area.new) }
    ensures driven { result ≡ DONE →
        OfAsked platform.old.value platform.new.value (λ p k asked.
        Drives p.held k.held (Called asked.agent asked.frame)) }
    ensures said { result ≡ DONE →
        OfAsked platform.old.value platform.new.value (λ p k asked.
        Says Made asked.change p.held k.held) }
    ensures aside { HasSameAside platform.old.value platform.new.value }
    ensures no_platform { (result ≡ NO_PLATFORM) ↔ (platform.old.value ≡ None) }
    ensures nothing { (result ≡ NOTHING) ↔ IsSomeAnd platform.old.value IsUnasked }
    ensures wrong_size { (result ≡ WRONG_SIZE) ↔ IsSomeAnd platform.old.value (λ p.
        IsSomeAnd p.asked (λ asked. asked.bytes ≢ length area.old)) }
    ensures errors { (result ≡ DONE) ⊎ (result ≡ NO_PLATFORM) ⊎
        (result ≡ NOTHING) ⊎ (result ≡ WRONG_SIZE) }
    ensures kept { result ≢ DONE →
        (platform.new.value ≡ platform.old.value) × (area.new ≡ area.old) }
{
    let Some(mut desk) = platform.take(alloc) else {
        return NO_PLATFORM;
    };
    let given = commit(&mut desk, area);
    platform.put(desk);
    code(given)
}

/// As `scmi_fail`, into an area of the size of its agent's channel.
#[unsafe(no_mangle)]
pub extern "C" fn scmi_fail_in(alloc: Global, platform: &mut Handle, area: &mut [u8]) -> u32
    ensures done { result ≡ DONE →
        OfAsked platform.old.value platform.new.value (λ p k asked.
        IsUnasked k
        × HasFailed p.held k.held asked.agent asked.frame HardwareError area.old area.new) }
    ensures driven { result ≡ DONE →
        OfAsked platform.old.value platform.new.value (λ p k asked.
        Drives p.held k.held (CommandFailed asked.agent asked.frame HardwareError)) }
    ensures said { result ≡ DONE →
        OfAsked platform.old.value platform.new.value (λ p k asked.
        Says (λ change. Refused change HardwareError) asked.change p.held k.held) }
    ensures aside { HasSameAside platform.old.value platform.new.value }
    ensures no_platform { (result ≡ NO_PLATFORM) ↔ (platform.old.value ≡ None) }
    ensures nothing { (result ≡ NOTHING) ↔ IsSomeAnd platform.old.value IsUnasked }
    ensures wrong_size { (result ≡ WRONG_SIZE) ↔ IsSomeAnd platform.old.value (λ p.
        IsSomeAnd p.asked (λ asked. asked.bytes ≢ length area.old)) }
    ensures errors { (result ≡ DONE) ⊎ (result ≡ NO_PLATFORM) ⊎
        (result ≡ NOTHING) ⊎ (result ≡ WRONG_SIZE) }
    ensures kept { result ≢ DONE →
        (platform.new.value ≡ platform.old.value) × (area.new ≡ area.old) }
{
    let Some(mut desk) = platform.take(alloc) else {
        return NO_PLATFORM;
    };
    let given = fail(&mut desk, area, Some(Fault::HardwareError));
    platform.put(desk);
    code(given)
}
