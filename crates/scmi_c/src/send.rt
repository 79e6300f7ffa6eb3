//! Messages of the platform to agents.
ghost use Rattle.std.specs.Prelude.{◌⊎◌, ◌≤◌, ◌≡◌, ◌≢◌, ◌↔◌, None, IsSomeAnd, IfSome, List};
ghost use Rattle.scmi_codec.specs.Area.{frame_waiting};
ghost use Rattle.scmi_core.specs.History.{HasNothingFor};
ghost use Rattle.scmi_core.specs.declared.event.Event.{Event};
ghost use Rattle.scmi_core.specs.declared.event.Event.TheVariants.{Sent};
ghost use Rattle.scmi_c.specs.Standing.{LacksAgent, StandsAt, board_of};
ghost use Rattle.scmi_c.specs.Calls.{HasPosted, HasHappened, HasNext, LacksNext};
ghost use Rattle.scmi_c.specs.Driven.{Drives};
ghost use Rattle.scmi_c.specs.Kept.{BeforeAfter, HasSameAside, IsAsked, IsUnasked};
ghost use Rattle.scmi_c.specs.declared.code.TheConstants.{ASKED, DONE, NOTHING, MEMORY, NO_AGENT, NOT_FREE, NO_PLATFORM};

use crate::area::{post_next, see_whole};
use crate::code::{NO_PLATFORM, code};
use crate::desk::Desk;
use crate::handle::Handle;
use scmi_codec::AREA_BYTES;
use std::alloc::Global;

/// Writes the first message of an agent's outbox into an area, as a caller posts it; it stays in
/// the outbox. `DONE`; `NO_PLATFORM`; `NO_AGENT`; `NOTHING` if the outbox is empty; `NOT_FREE` if
/// the area still holds a message. After another number than `DONE` nothing changed.
#[unsafe(no_mangle)]
pub extern "C" fn scmi_next(
    alloc: Global,
    platform: &mut Handle,
    agent: u32,
    area: &mut [u8; AREA_BYTES],
) -> u32
    ensures done { result ≡ DONE →
        IsSomeAnd platform.old.value (λ p. HasPosted p.held agent area.old area.new) }
    ensures platform { platform.new.value ≡ platform.old.value }
    ensures no_platform { (result ≡ NO_PLATFORM) ↔ (platform.old.value ≡ None) }
    ensures nothing { IfSome platform.old.value (λ p.
        (h : List Event) → StandsAt p.held h →
        (result ≡ NOTHING) ↔ LacksNext (board_of p.held) agent h) }
    ensures no_agent { (result ≡ NO_AGENT)
        ↔ IsSomeAnd platform.old.value (λ p. LacksAgent agent p.held) }
    ensures not_free { IfSome platform.old.value (λ p.
        (h : List Event) → StandsAt p.held h →
        (result ≡ NOT_FREE) ↔
        (HasNext (board_of p.held) agent h × (frame_waiting area.old ≢ None))) }
    ensures errors { (result ≤ NO_PLATFORM) × (result ≢ MEMORY) }
    ensures kept { result ≢ DONE → area.new ≡ area.old }
{
    let Some(mut desk) = platform.take(alloc) else {
        return NO_PLATFORM;
    };
    see_whole(area);
    let seat: &mut Desk = &mut desk;
    let given = post_next(&seat.held, &mut seat.exchange, agent, area);
    platform.put(desk);
    code(given)
}

/// Takes the first message off an agent's outbox, as posted. `DONE`; `NO_PLATFORM`; `NO_AGENT`;
/// `ASKED` if a command waits to be committed or to fail; `NOTHING` if the outbox is empty. After
/// another number than `DONE` nothing changed.
#[unsafe(no_mangle)]
pub extern "C" fn scmi_sent(alloc: Global, platform: &mut Handle, agent: u32) -> u32
    ensures done { result ≡ DONE →
        BeforeAfter platform.old.value platform.new.value (λ p k.
        IsUnasked k × HasHappened p.held k.held (Sent agent)) }
    ensures driven { result ≡ DONE →
        BeforeAfter platform.old.value platform.new.value (λ p k.
        Drives p.held k.held (Sent agent)) }
    ensures nothing { IfSome platform.old.value (λ p. IsUnasked p →
        (h : List Event) → StandsAt p.held h →
        (result ≡ NOTHING) ↔ HasNothingFor (board_of p.held) agent h) }
    ensures no_agent { (result ≡ NO_AGENT) ↔
        IsSomeAnd platform.old.value (λ p. IsUnasked p × LacksAgent agent p.held) }
    ensures asked { (result ≡ ASKED) ↔ IsSomeAnd platform.old.value IsAsked }
    ensures errors { (result ≤ NOTHING) ⊎ (result ≡ NO_AGENT) ⊎
        (result ≡ NO_PLATFORM) ⊎ (result ≡ ASKED) }
    ensures aside { HasSameAside platform.old.value platform.new.value }
    ensures no_platform { (result ≡ NO_PLATFORM) ↔ (platform.old.value ≡ None) }
    ensures kept { result ≢ DONE → platform.new.value ≡ platform.old.value }
{
    let mut desk = match platform.take_unasked(alloc) {
        Ok(desk) => desk,
        Err(number) => return number,
    };
    let given = desk.held.sent(agent);
    platform.put(desk);
    code(given)
}
