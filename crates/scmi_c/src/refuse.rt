//! What a program answers if the hardware refused, and says why.
ghost use Rattle.std.specs.Prelude.{◌≡◌, ◌≢◌, ◌↔◌, ◌⊎◌, ◌≤◌, None, IsSomeAnd, IfSome, List, length};
ghost use Rattle.scmi_codec.specs.declared.area.TheConstants.{AREA_BYTES};
ghost use Rattle.scmi_core.specs.Asked.{Refused};
ghost use Rattle.scmi_core.specs.History.{IsIdle};
ghost use Rattle.scmi_core.specs.declared.event.Event.{Event};
ghost use Rattle.scmi_core.specs.declared.event.Event.TheVariants.{AdvanceFailed, CommandFailed};
ghost use Rattle.scmi_c.specs.Calls.{HasFailed, HasHappened};
ghost use Rattle.scmi_c.specs.Driven.{Drives, Says};
ghost use Rattle.scmi_c.specs.Fault.{fault_said};
ghost use Rattle.scmi_c.specs.Kept.{BeforeAfter, HasSameAside, IsAsked, IsUnasked};
ghost use Rattle.scmi_c.specs.Standing.{StandsAt, board_of};
ghost use Rattle.scmi_c.specs.Words.{HasFailedWords, HasRoom, LacksRoom};
ghost use Rattle.scmi_c.specs.declared.code.TheConstants.{ASKED, DONE, NOTHING, NO_PLATFORM, WRONG_SIZE, WRONG_STATUS};

use crate::code::{NO_PLATFORM, code};
use crate::fault::fault_said;
use crate::handle::Handle;
use crate::{settle, settle_words};
use scmi_codec::AREA_BYTES;
use std::alloc::Global;

/// As `scmi_fail`, by a status that says why the hardware refused: NOT_SUPPORTED,
/// INVALID_PARAMETERS, DENIED, OUT_OF_RANGE, BUSY, GENERIC_ERROR or HARDWARE_ERROR, as its number in
/// two's complement. The answer and the event have it. `WRONG_STATUS` if it is another number, after
/// all other refusals.
#[unsafe(no_mangle)]
pub extern "C" fn scmi_refuse(
    alloc: Global,
    platform: &mut Handle,
    area: &mut [u8; AREA_BYTES],
    status: u32,
) -> u32
    ensures done { result ≡ DONE →
        BeforeAfter platform.old.value platform.new.value (λ p k.
        IsSomeAnd (fault_said status) (λ fault.
        IsSomeAnd p.asked (λ asked. IsUnasked k
        × HasFailed p.held k.held asked.agent asked.frame fault area.old area.new))) }
    ensures driven { result ≡ DONE →
        BeforeAfter platform.old.value platform.new.value (λ p k.
        IsSomeAnd (fault_said status) (λ fault.
        IsSomeAnd p.asked (λ asked.
        Drives p.held k.held (CommandFailed asked.agent asked.frame fault)))) }
    ensures said { result ≡ DONE →
        BeforeAfter platform.old.value platform.new.value (λ p k.
        IsSomeAnd (fault_said status) (λ fault.
        IsSomeAnd p.asked (λ asked.
        Says (λ change. Refused change fault) asked.change p.held k.held))) }
    ensures aside { HasSameAside platform.old.value platform.new.value }
    ensures no_platform { (result ≡ NO_PLATFORM) ↔ (platform.old.value ≡ None) }
    ensures nothing { (result ≡ NOTHING) ↔ IsSomeAnd platform.old.value IsUnasked }
    ensures wrong_size { (result ≡ WRONG_SIZE) ↔ IsSomeAnd platform.old.value (λ p.
        IsSomeAnd p.asked (λ asked. asked.bytes ≢ AREA_BYTES)) }
    ensures wrong_status { (result ≡ WRONG_STATUS) ↔ IsSomeAnd platform.old.value (λ p.
        IsSomeAnd p.asked (λ asked.
        (asked.bytes ≡ AREA_BYTES) × (fault_said status ≡ None))) }
    ensures errors { (result ≡ DONE) ⊎ (result ≡ NO_PLATFORM) ⊎ (result ≡ NOTHING) ⊎
        (result ≡ WRONG_SIZE) ⊎ (result ≡ WRONG_STATUS) }
    ensures kept { result ≢ DONE →
        (platform.new.value ≡ platform.old.value) × (area.new ≡ area.old) }
{
    scmi_refuse_in(alloc, platform, area, status)
}

/// As `scmi_refuse`, into an area of the size of its agent's channel.
#[unsafe(no_mangle)]
pub extern "C" fn scmi_refuse_in(
    alloc: Global,
    platform: &mut Handle,
    area: &mut [u8],
    status: u32,
) -> u32
    ensures done { result ≡ DONE →
        BeforeAfter platform.old.value platform.new.value (λ p k.
        IsSomeAnd (fault_said status) (λ fault.
        IsSomeAnd p.asked (λ asked. IsUnasked k
        × HasFailed p.held k.held asked.agent asked.frame fault area.old area.new))) }
    ensures driven { result ≡ DONE →
        BeforeAfter platform.old.value platform.new.value (λ p k.
        IsSomeAnd (fault_said status) (λ fault.
        IsSomeAnd p.asked (λ asked.
        Drives p.held k.held (CommandFailed asked.agent asked.frame fault)))) }
    ensures said { result ≡ DONE →
        BeforeAfter platform.old.value platform.new.value (λ p k.
        IsSomeAnd (fault_said status) (λ fault.
        IsSomeAnd p.asked (λ asked.
        Says (λ change. Refused change fault) asked.change p.held k.held))) }
    ensures aside { HasSameAside platform.old.value platform.new.value }
    ensures no_platform { (result ≡ NO_PLATFORM) ↔ (platform.old.value ≡ None) }
    ensures nothing { (result ≡ NOTHING) ↔ IsSomeAnd platform.old.value IsUnasked }
    ensures wrong_size { (result ≡ WRONG_SIZE) ↔ IsSomeAnd platform.old.value (λ p.
        IsSomeAnd p.asked (λ asked. asked.bytes ≢ length area.old)) }
    ensures wrong_status { (result ≡ WRONG_STATUS) ↔ IsSomeAnd platform.old.value (λ p.
        IsSomeAnd p.asked (λ asked.
        (asked.bytes ≡ length area.old) × (fault_said status ≡ None))) }
    ensures errors { (result ≡ DONE) ⊎ (result ≡ NO_PLATFORM) ⊎ (result ≡ NOTHING) ⊎
        (result ≡ WRONG_SIZE) ⊎ (result ≡ WRONG_STATUS) }
    ensures kept { result ≢ DONE →
        (platform.new.value ≡ platform.old.value) × (area.new ≡ area.old) }
{
    let Some(mut desk) = platform.take(alloc) else {
        return NO_PLATFORM;
    };
    let given = settle::fail(&mut desk, area, fault_said(status));
    platform.put(desk);
    code(given)
}

/// As `scmi_refuse`, and writes the words of the reply, as `scmi_commit_words` does.
#[unsafe(no_mangle)]
pub extern "C" fn scmi_refuse_words(
    alloc: Global,
    platform: &mut Handle,
    reply: &mut [u32],
    count: &mut u32,
    status: u32,
) -> u32
    ensures done { result ≡ DONE →
        BeforeAfter platform.old.value platform.new.value (λ p k.
        IsSomeAnd (fault_said status) (λ fault.
        IsSomeAnd p.asked (λ asked. IsUnasked k
        × HasFailedWords p.held k.held asked.agent asked.frame fault
        count.new reply.old reply.new))) }
    ensures driven { result ≡ DONE →
        BeforeAfter platform.old.value platform.new.value (λ p k.
        IsSomeAnd (fault_said status) (λ fault.
        IsSomeAnd p.asked (λ asked.
        Drives p.held k.held (CommandFailed asked.agent asked.frame fault)))) }
    ensures said { result ≡ DONE →
        BeforeAfter platform.old.value platform.new.value (λ p k.
        IsSomeAnd (fault_said status) (λ fault.
        IsSomeAnd p.asked (λ asked.
        Says (λ change. Refused change fault) asked.change p.held k.held))) }
    ensures aside { HasSameAside platform.old.value platform.new.value }
    ensures no_platform { (result ≡ NO_PLATFORM) ↔ (platform.old.value ≡ None) }
    ensures nothing { (result ≡ NOTHING) ↔ IsSomeAnd platform.old.value IsUnasked }
    ensures wrong_size { (result ≡ WRONG_SIZE) ↔ IsSomeAnd platform.old.value (λ p.
        IsSomeAnd p.asked (LacksRoom (length reply.old))) }
    ensures wrong_status { (result ≡ WRONG_STATUS) ↔ IsSomeAnd platform.old.value (λ p.
        IsSomeAnd p.asked (λ asked.
        HasRoom (length reply.old) asked × (fault_said status ≡ None))) }
    ensures errors { (result ≡ DONE) ⊎ (result ≡ NO_PLATFORM) ⊎ (result ≡ NOTHING) ⊎
        (result ≡ WRONG_SIZE) ⊎ (result ≡ WRONG_STATUS) }
    ensures kept { result ≢ DONE → (platform.new.value ≡ platform.old.value)
        × (reply.new ≡ reply.old) × (count.new ≡ count.old) }
{
    let Some(mut desk) = platform.take(alloc) else {
        return NO_PLATFORM;
    };
    let given = settle_words::fail(&mut desk, reply, count, fault_said(status));
    platform.put(desk);
    code(given)
}

/// As `scmi_fail_advance`, by a status as `scmi_refuse` takes it, which the event and the delayed
/// response have. `WRONG_STATUS` if the number is another, after all other refusals.
#[unsafe(no_mangle)]
pub extern "C" fn scmi_refuse_advance(alloc: Global, platform: &mut Handle, status: u32) -> u32
    ensures done { result ≡ DONE →
        BeforeAfter platform.old.value platform.new.value (λ p k.
        IsSomeAnd (fault_said status) (λ fault.
        IsUnasked k × HasHappened p.held k.held (AdvanceFailed fault))) }
    ensures driven { result ≡ DONE →
        BeforeAfter platform.old.value platform.new.value (λ p k.
        IsSomeAnd (fault_said status) (λ fault.
        Drives p.held k.held (AdvanceFailed fault))) }
    ensures nothing { IfSome platform.old.value (λ p. IsUnasked p →
        (h : List Event) → StandsAt p.held h →
        (result ≡ NOTHING) ↔ IsIdle (board_of p.held) h) }
    ensures wrong_status { IfSome platform.old.value (λ p. IsUnasked p →
        (h : List Event) → StandsAt p.held h →
        (result ≡ WRONG_STATUS)
        ↔ ((¬ (IsIdle (board_of p.held) h)) × (fault_said status ≡ None))) }
    ensures asked { (result ≡ ASKED) ↔ IsSomeAnd platform.old.value IsAsked }
    ensures errors { (result ≤ NOTHING) ⊎ (result ≡ NO_PLATFORM) ⊎ (result ≡ ASKED) ⊎
        (result ≡ WRONG_STATUS) }
    ensures aside { HasSameAside platform.old.value platform.new.value }
    ensures no_platform { (result ≡ NO_PLATFORM) ↔ (platform.old.value ≡ None) }
    ensures kept { result ≢ DONE → platform.new.value ≡ platform.old.value }
{
    let mut desk = match platform.take_unasked(alloc) {
        Ok(desk) => desk,
        Err(number) => return number,
    };
    let given = desk.held.advance_failed(fault_said(status));
    platform.put(desk);
    code(given)
}
