//! Commands and completions.
ghost use Rattle.std.specs.Prelude.{◌≡◌, ◌≢◌, ◌↔◌, ◌⊎◌, ◌≤◌, None, IsSomeAnd, IfSome, List};
ghost use Rattle.scmi_codec.specs.Area.{frame_waiting};
ghost use Rattle.scmi_core.specs.History.{IsIdle};
ghost use Rattle.scmi_core.specs.declared.event.Event.{Event};
ghost use Rattle.scmi_core.specs.declared.event.Event.TheVariants.{Advance};
ghost use Rattle.scmi_c.specs.Kept.{BeforeAfter, HasSameAside, IsAsked, IsBusy, IsFree, IsUnasked};
ghost use Rattle.scmi_c.specs.Standing.{LacksAgent, StandsAt, board_of};
ghost use Rattle.scmi_c.specs.Calls.{HasAnswered, HasHappened};
ghost use Rattle.scmi_c.specs.Driven.{Drives, IsUnsaid};
ghost use Rattle.scmi_c.specs.declared.code.TheConstants.{ASKED, DONE, NOTHING, NO_AGENT, NO_PLATFORM};

use crate::area::{answer, see_whole};
use crate::code::{DONE, NOTHING, code};
use crate::desk::Desk;
use crate::handle::Handle;
use scmi_codec::AREA_BYTES;
use std::alloc::Global;

/// Executes the frame in an agent's area, and answers it in place. `DONE`; `NO_PLATFORM`; `ASKED`
/// if a command waits to be committed or to fail, or is set aside; `NOTHING` if the channel is
/// free; `NO_AGENT`. After another number than `DONE` nothing changed. The hardware is not asked,
/// and nothing is said of it: a program that drives hardware uses `scmi_ask`.
#[unsafe(no_mangle)]
pub extern "C" fn scmi_answer(
    alloc: Global,
    platform: &mut Handle,
    agent: u32,
    area: &mut [u8; AREA_BYTES],
) -> u32
    ensures done { result ≡ DONE →
        BeforeAfter platform.old.value platform.new.value (λ p k.
        IsSomeAnd (frame_waiting area.old) (λ frame. IsUnasked k
        × HasAnswered p.held k.held agent frame area.old area.new)) }
    ensures unsaid { result ≡ DONE →
        BeforeAfter platform.old.value platform.new.value (λ p k.
        IsSomeAnd (frame_waiting area.old) (λ frame.
        IsUnsaid p.held k.held agent frame)) }
    ensures aside { HasSameAside platform.old.value platform.new.value }
    ensures no_platform { (result ≡ NO_PLATFORM) ↔ (platform.old.value ≡ None) }
    ensures asked { (result ≡ ASKED) ↔ IsSomeAnd platform.old.value IsBusy }
    ensures free { (result ≡ NOTHING) ↔
        IsSomeAnd platform.old.value (λ p. IsFree p × (frame_waiting area.old ≡ None)) }
    ensures no_agent { (result ≡ NO_AGENT) ↔
        IsSomeAnd platform.old.value (λ p. IsFree p ×
        (frame_waiting area.old ≢ None) × LacksAgent agent p.held) }
    ensures errors { (result ≤ NOTHING) ⊎ (result ≡ NO_AGENT) ⊎
        (result ≡ NO_PLATFORM) ⊎ (result ≡ ASKED) }
    ensures kept { result ≢ DONE →
        (platform.new.value ≡ platform.old.value) × (area.new ≡ area.old) }
{
    let mut desk = match platform.take_free(alloc) {
        Ok(desk) => desk,
        Err(number) => return number,
    };
    see_whole(area);
    let seat: &mut Desk = &mut desk;
    let given = answer(&mut seat.held, &mut seat.exchange, agent, area);
    platform.put(desk);
    code(given)
}

/// Completes the first pending set, whose change the hardware has made. `DONE`; `NO_PLATFORM`;
/// `ASKED` if a command waits to be committed or to fail; `NOTHING` if none is pending. After
/// another number than `DONE` nothing changed.
#[unsafe(no_mangle)]
pub extern "C" fn scmi_advance(alloc: Global, platform: &mut Handle) -> u32
    ensures done { result ≡ DONE →
        BeforeAfter platform.old.value platform.new.value (λ p k.
        IsUnasked k × HasHappened p.held k.held Advance) }
    ensures driven { result ≡ DONE →
        BeforeAfter platform.old.value platform.new.value (λ p k.
        Drives p.held k.held Advance) }
    ensures nothing { IfSome platform.old.value (λ p. IsUnasked p →
        (h : List Event) → StandsAt p.held h →
        (result ≡ NOTHING) ↔ IsIdle (board_of p.held) h) }
    ensures asked { (result ≡ ASKED) ↔ IsSomeAnd platform.old.value IsAsked }
    ensures errors { (result ≤ NOTHING) ⊎ (result ≡ NO_PLATFORM) ⊎ (result ≡ ASKED) }
    ensures aside { HasSameAside platform.old.value platform.new.value }
    ensures no_platform { (result ≡ NO_PLATFORM) ↔ (platform.old.value ≡ None) }
    ensures kept { result ≢ DONE → platform.new.value ≡ platform.old.value }
{
    let mut desk = match platform.take_unasked(alloc) {
        Ok(desk) => desk,
        Err(number) => return number,
    };
    let given = desk.held.advance();
    platform.put(desk);
    if given { DONE } else { NOTHING }
}
