//! What a program answers whose hardware gave a clock another rate than it was asked for.
ghost use Rattle.std.specs.Prelude.{◌≡◌, ◌≢◌, ◌↔◌, ◌⊎◌, None, IsSomeAnd, length};
ghost use Rattle.scmi_codec.specs.Rate.{rate_of};
ghost use Rattle.scmi_codec.specs.declared.area.TheConstants.{AREA_BYTES};
ghost use Rattle.scmi_plan.specs.declared.effect.Effect.TheVariants.{Rate};
ghost use Rattle.scmi_core.specs.Asked.{Made};
ghost use Rattle.scmi_core.specs.declared.event.Event.TheVariants.{Command as Called, Reported};
ghost use Rattle.scmi_c.specs.Calls.{HasAnsweredAtRate};
ghost use Rattle.scmi_c.specs.Driven.{HappenInTurn, Says};
ghost use Rattle.scmi_c.specs.Effect.{IsRate};
ghost use Rattle.scmi_c.specs.Kept.{HasSameAside, IsUnasked, OfAsked};
ghost use Rattle.scmi_c.specs.Words.{HasAnsweredWordsAtRate, HasRoom, LacksRoom};
ghost use Rattle.scmi_c.specs.declared.code.TheConstants.{DONE, NOTHING, NO_PLATFORM, NO_RATE, WRONG_SIZE};

use crate::code::{NO_PLATFORM, code};
use crate::handle::Handle;
use crate::settle_rate;
use scmi_codec::{AREA_BYTES, rate_of};
use std::alloc::Global;

/// As `scmi_commit`, of a command that gives a clock a rate, whose hardware gave it the rate in Hz
/// of which `low` and `high` are the words. The command is executed and answered as by
/// `scmi_commit`, and the program says of the hardware that it made the change that was asked for;
/// behind it the hardware reports its rate, and agents read this one from now on. `NO_RATE` if the
/// command gives no clock a rate, after all other refusals; it still waits.
#[unsafe(no_mangle)]
pub extern "C" fn scmi_commit_rate(
    alloc: Global,
    platform: &mut Handle,
    area: &mut [u8; AREA_BYTES],
    low: u32,
    high: u32,
) -> u32
    ensures done { result ≡ DONE →
        OfAsked platform.old.value platform.new.value (λ p k asked.
        IsUnasked k
        × HasAnsweredAtRate p.held k.held asked.agent asked.frame
        asked.change.id (rate_of low high) area.old area.new) }
    ensures driven { result ≡ DONE →
        OfAsked platform.old.value platform.new.value (λ p k asked.
        HappenInTurn p.held k.held (Called asked.agent asked.frame)
        (Reported (Rate asked.change.id (rate_of low high)))) }
    ensures said { result ≡ DONE →
        OfAsked platform.old.value platform.new.value (λ p k asked.
        Says Made asked.change p.held k.held) }
    ensures aside { HasSameAside platform.old.value platform.new.value }
    ensures no_platform { (result ≡ NO_PLATFORM) ↔ (platform.old.value ≡ None) }
    ensures nothing { (result ≡ NOTHING) ↔ IsSomeAnd platform.old.value IsUnasked }
    ensures wrong_size { (result ≡ WRONG_SIZE) ↔ IsSomeAnd platform.old.value (λ p.
        IsSomeAnd p.asked (λ asked. asked.bytes ≢ AREA_BYTES)) }
    ensures no_rate { (result ≡ NO_RATE) ↔ IsSomeAnd platform.old.value (λ p.
        IsSomeAnd p.asked (λ asked.
        (asked.bytes ≡ AREA_BYTES) × (¬ (IsRate asked.change)))) }
    ensures errors { (result ≡ DONE) ⊎ (result ≡ NO_PLATFORM) ⊎ (result ≡ NOTHING) ⊎
        (result ≡ WRONG_SIZE) ⊎ (result ≡ NO_RATE) }
    ensures kept { result ≢ DONE →
        (platform.new.value ≡ platform.old.value) × (area.new ≡ area.old) }
{
    scmi_commit_rate_in(alloc, platform, area, low, high)
}

/// As `scmi_commit_rate`, into an area of the size of its agent's channel.
#[unsafe(no_mangle)]
pub extern "C" fn scmi_commit_rate_in(
    alloc: Global,
    platform: &mut Handle,
    area: &mut [u8],
    low: u32,
    high: u32,
) -> u32
    ensures done { result ≡ DONE →
        OfAsked platform.old.value platform.new.value (λ p k asked.
        IsUnasked k
        × HasAnsweredAtRate p.held k.held asked.agent asked.frame
        asked.change.id (rate_of low high) area.old area.new) }
    ensures driven { result ≡ DONE →
        OfAsked platform.old.value platform.new.value (λ p k asked.
        HappenInTurn p.held k.held (Called asked.agent asked.frame)
        (Reported (Rate asked.change.id (rate_of low high)))) }
    ensures said { result ≡ DONE →
        OfAsked platform.old.value platform.new.value (λ p k asked.
        Says Made asked.change p.held k.held) }
    ensures aside { HasSameAside platform.old.value platform.new.value }
    ensures no_platform { (result ≡ NO_PLATFORM) ↔ (platform.old.value ≡ None) }
    ensures nothing { (result ≡ NOTHING) ↔ IsSomeAnd platform.old.value IsUnasked }
    ensures wrong_size { (result ≡ WRONG_SIZE) ↔ IsSomeAnd platform.old.value (λ p.
        IsSomeAnd p.asked (λ asked. asked.bytes ≢ length area.old)) }
    ensures no_rate { (result ≡ NO_RATE) ↔ IsSomeAnd platform.old.value (λ p.
        IsSomeAnd p.asked (λ asked.
        (asked.bytes ≡ length area.old) × (¬ (IsRate asked.change)))) }
    ensures errors { (result ≡ DONE) ⊎ (result ≡ NO_PLATFORM) ⊎ (result ≡ NOTHING) ⊎
        (result ≡ WRONG_SIZE) ⊎ (result ≡ NO_RATE) }
    ensures kept { result ≢ DONE →
        (platform.new.value ≡ platform.old.value) × (area.new ≡ area.old) }
{
    let Some(mut desk) = platform.take(alloc) else {
        return NO_PLATFORM;
    };
    let given = settle_rate::commit(&mut desk, area, rate_of(low, high));
    platform.put(desk);
    code(given)
}

/// As `scmi_commit_rate`, and writes the words of the reply, as `scmi_commit_words` does.
#[unsafe(no_mangle)]
pub extern "C" fn scmi_commit_rate_words(
    alloc: Global,
    platform: &mut Handle,
    reply: &mut [u32],
    count: &mut u32,
    low: u32,
    high: u32,
) -> u32
    ensures done { result ≡ DONE →
        OfAsked platform.old.value platform.new.value (λ p k asked.
        IsUnasked k
        × HasAnsweredWordsAtRate p.held k.held asked.agent asked.frame
        asked.change.id (rate_of low high) count.new reply.old reply.new) }
    ensures driven { result ≡ DONE →
        OfAsked platform.old.value platform.new.value (λ p k asked.
        HappenInTurn p.held k.held (Called asked.agent asked.frame)
        (Reported (Rate asked.change.id (rate_of low high)))) }
    ensures said { result ≡ DONE →
        OfAsked platform.old.value platform.new.value (λ p k asked.
        Says Made asked.change p.held k.held) }
    ensures aside { HasSameAside platform.old.value platform.new.value }
    ensures no_platform { (result ≡ NO_PLATFORM) ↔ (platform.old.value ≡ None) }
    ensures nothing { (result ≡ NOTHING) ↔ IsSomeAnd platform.old.value IsUnasked }
    ensures wrong_size { (result ≡ WRONG_SIZE) ↔ IsSomeAnd platform.old.value (λ p.
        IsSomeAnd p.asked (LacksRoom (length reply.old))) }
    ensures no_rate { (result ≡ NO_RATE) ↔ IsSomeAnd platform.old.value (λ p.
        IsSomeAnd p.asked (λ asked.
        HasRoom (length reply.old) asked × (¬ (IsRate asked.change)))) }
    ensures errors { (result ≡ DONE) ⊎ (result ≡ NO_PLATFORM) ⊎ (result ≡ NOTHING) ⊎
        (result ≡ WRONG_SIZE) ⊎ (result ≡ NO_RATE) }
    ensures kept { result ≢ DONE → (platform.new.value ≡ platform.old.value)
        × (reply.new ≡ reply.old) × (count.new ≡ count.old) }
{
    let Some(mut desk) = platform.take(alloc) else {
        return NO_PLATFORM;
    };
    let given = settle_rate::commit_words(&mut desk, reply, count, rate_of(low, high));
    platform.put(desk);
    code(given)
}
