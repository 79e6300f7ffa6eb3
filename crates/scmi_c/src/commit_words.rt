//! What a program answers in words once it has asked the hardware.
ghost use Rattle.std.specs.Prelude.{◌≡◌, ◌≢◌, ◌↔◌, ◌⊎◌, None, IsSomeAnd, length};
ghost use Rattle.scmi_core.specs.Asked.{Made, Refused};
ghost use Rattle.scmi_core.specs.declared.event.Event.TheVariants.{Command as Called, CommandFailed};
ghost use Rattle.scmi_codec.specs.declared.fault.Fault.TheVariants.{HardwareError};
ghost use Rattle.scmi_c.specs.Driven.{Drives, Says};
ghost use Rattle.scmi_c.specs.Kept.{HasSameAside, IsUnasked, OfAsked};
ghost use Rattle.scmi_c.specs.Words.{HasAnsweredWords, HasFailedWords, LacksRoom};
ghost use Rattle.scmi_c.specs.declared.code.TheConstants.{DONE, NOTHING, NO_PLATFORM, WRONG_SIZE};

use crate::code::{NO_PLATFORM, code};
use crate::handle::Handle;
use crate::settle_words::{commit, fail};
use scmi_codec::Fault;
use std::alloc::Global;

/// As `scmi_commit`, and writes the words of the reply over the first of `reply`, and how many they
/// are. `DONE`; `NO_PLATFORM`; `NOTHING` if no command was asked about; `WRONG_SIZE` if `reply` has
/// not room for as many words as the area or the channel of the command. After another number than
/// `DONE` nothing changed.
#[unsafe(no_mangle)]
pub extern "C" fn scmi_commit_words(
    alloc: Global,
    platform: &mut Handle,
    reply: &mut [u32],
    count: &mut u32,
) -> u32
    ensures done { result ≡ DONE →
        OfAsked platform.old.value platform.new.value (λ p k asked.
        IsUnasked k
        × HasAnsweredWords p.held k.held asked.agent asked.frame
        count.new reply.old reply.new) }
    ensures driven { result ≡ DONE →
        OfAsked platform.old.value platform.new.value (λ p k asked.
        Drives p.held k.held (Called asked.agent asked.frame)) }
    ensures said { result ≡ DONE →
        OfAsked platform.old.value platform.new.value (λ p k asked.
        Says Made asked.change p.held k.held) }
    ensures aside { HasSameAside platform.old.value platform.new.value }
    ensures no_platform { (result ≡ NO_PLATFORM) ↔ (platform.old.value ≡ None) }
    ensures nothing { (result ≡ NOTHING) ↔ IsSomeAnd platform.old.value IsUnasked }
    ensures wrong_size { (result ≡ WRONG_SIZE) ↔ IsSomeAnd platform.old.value (λ p.
        IsSomeAnd p.asked (LacksRoom (length reply.old))) }
    ensures errors { (result ≡ DONE) ⊎ (result ≡ NO_PLATFORM) ⊎
        (result ≡ NOTHING) ⊎ (result ≡ WRONG_SIZE) }
    ensures kept { result ≢ DONE → (platform.new.value ≡ platform.old.value)
        × (reply.new ≡ reply.old) × (count.new ≡ count.old) }
{
    let Some(mut desk) = platform.take(alloc) else {
        return NO_PLATFORM;
    };
    let given = commit(&mut desk, reply, count);
    platform.put(desk);
    code(given)
}

/// As `scmi_fail`, and writes the words of the reply, as `scmi_commit_words` does.
#[unsafe(no_mangle)]
pub extern "C" fn scmi_fail_words(
    alloc: Global,
    platform: &mut Handle,
    reply: &mut [u32],
    count: &mut u32,
) -> u32
    ensures done { result ≡ DONE →
        OfAsked platform.old.value platform.new.value (λ p k asked.
        IsUnasked k
        × HasFailedWords p.held k.held asked.agent asked.frame HardwareError
        count.new reply.old reply.new) }
    ensures driven { result ≡ DONE →
        OfAsked platform.old.value platform.new.value (λ p k asked.
        Drives p.held k.held (CommandFailed asked.agent asked.frame HardwareError)) }
    ensures said { result ≡ DONE →
        OfAsked platform.old.value platform.new.value (λ p k asked.
        Says (λ change. Refused change HardwareError) asked.change p.held k.held) }
    ensures aside { HasSameAside platform.old.value platform.new.value }
    ensures no_platform { (result ≡ NO_PLATFORM) ↔ (platform.old.value ≡ None) }
    ensures nothing { (result ≡ NOTHING) ↔ IsSomeAnd platform.old.value IsUnasked }
    ensures wrong_size { (result ≡ WRONG_SIZE) ↔ IsSomeAnd platform.old.value (λ p.
        IsSomeAnd p.asked (LacksRoom (length reply.old))) }
    ensures errors { (result ≡ DONE) ⊎ (result ≡ NO_PLATFORM) ⊎
        (result ≡ NOTHING) ⊎ (result ≡ WRONG_SIZE) }
    ensures kept { result ≢ DONE → (platform.new.value ≡ platform.old.value)
        × (reply.new ≡ reply.old) × (count.new ≡ count.old) }
{
    let Some(mut desk) = platform.take(alloc) else {
        return NO_PLATFORM;
    };
    let given = fail(&mut desk, reply, count, Some(Fault::HardwareError));
    platform.put(desk);
    code(given)
}
