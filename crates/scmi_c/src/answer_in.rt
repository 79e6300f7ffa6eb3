//! Calls on areas of the size of their agent's channel.
ghost use Rattle.std.specs.Prelude.{◌≡◌, ◌≢◌, ◌↔◌, ◌⊎◌, ◌≤◌, None, IsSomeAnd, IfSome, List, length};
ghost use Rattle.scmi_codec.specs.ChannelArea.{channel_waiting};
ghost use Rattle.scmi_core.specs.declared.event.Event.{Event};
ghost use Rattle.scmi_c.specs.Calls.{HasAnswered, HasNext, HasPosted, LacksNext};
ghost use Rattle.scmi_c.specs.Kept.{BeforeAfter, HasSameAside, IsBusy, IsFree, IsUnasked};
ghost use Rattle.scmi_c.specs.Channel.{HasAnotherSize, HasSize, IsFreeOf};
ghost use Rattle.scmi_c.specs.Driven.{IsUnsaid};
ghost use Rattle.scmi_c.specs.Standing.{LacksAgent, StandsAt, board_of};
ghost use Rattle.scmi_c.specs.declared.code.TheConstants.{ASKED, DONE, NOTHING, MEMORY, NO_AGENT, NOT_FREE, NO_PLATFORM, WRONG_SIZE};

use crate::area::{answer_sized, post_next};
use crate::code::{DONE, NO_PLATFORM, code};
use crate::desk::Desk;
use crate::handle::Handle;
use std::alloc::Global;

/// As `scmi_answer`, in an area of the size of its agent's channel. `NO_PLATFORM`, `ASKED`, `NO_AGENT`
/// and `WRONG_SIZE`, if the area has another size, come before all else, in this order. A program
/// that drives hardware uses `scmi_ask_in`.
#[unsafe(no_mangle)]
pub extern "C" fn scmi_answer_in(
    alloc: Global,
    platform: &mut Handle,
    agent: u32,
    area: &mut [u8],
) -> u32
    ensures done { result ≡ DONE →
        BeforeAfter platform.old.value platform.new.value (λ p k.
        IsSomeAnd (channel_waiting area.old) (λ frame. IsUnasked k
        × HasAnswered p.held k.held agent frame area.old area.new)) }
    ensures unsaid { result ≡ DONE →
        BeforeAfter platform.old.value platform.new.value (λ p k.
        IsSomeAnd (channel_waiting area.old) (λ frame.
        IsUnsaid p.held k.held agent frame)) }
    ensures aside { HasSameAside platform.old.value platform.new.value }
    ensures no_platform { (result ≡ NO_PLATFORM) ↔ (platform.old.value ≡ None) }
    ensures asked { (result ≡ ASKED) ↔ IsSomeAnd platform.old.value IsBusy }
    ensures no_agent { (result ≡ NO_AGENT) ↔
        IsSomeAnd platform.old.value (λ p. IsFree p × LacksAgent agent p.held) }
    ensures wrong_size { (result ≡ WRONG_SIZE) ↔ IsSomeAnd platform.old.value (λ p.
        IsFree p × HasAnotherSize agent (length area.old) p.held) }
    ensures free { (result ≡ NOTHING) ↔
        IsSomeAnd platform.old.value (λ p. IsFree p × IsFreeOf agent area.old p.held) }
    ensures errors { (result ≤ NOTHING) ⊎ (result ≡ NO_AGENT) ⊎
        (result ≡ NO_PLATFORM) ⊎ (result ≡ ASKED) ⊎ (result ≡ WRONG_SIZE) }
    ensures kept { result ≢ DONE →
        (platform.new.value ≡ platform.old.value) × (area.new ≡ area.old) }
{
    let mut desk = match platform.take_free(alloc) {
        Ok(desk) => desk,
        Err(number) => return number,
    };
    let seat: &mut Desk = &mut desk;
    let given = answer_sized(&mut seat.held, &mut seat.exchange, agent, area);
    platform.put(desk);
    code(given)
}

/// As `scmi_next`, into an area of the size of its agent's channel. `NO_PLATFORM`, `NO_AGENT` and
/// `WRONG_SIZE`, if the area has another size, come before all else, in this order.
#[unsafe(no_mangle)]
pub extern "C" fn scmi_next_in(
    alloc: Global,
    platform: &mut Handle,
    agent: u32,
    area: &mut [u8],
) -> u32
    ensures done { result ≡ DONE →
        IsSomeAnd platform.old.value (λ p. HasPosted p.held agent area.old area.new) }
    ensures platform { platform.new.value ≡ platform.old.value }
    ensures no_platform { (result ≡ NO_PLATFORM) ↔ (platform.old.value ≡ None) }
    ensures no_agent { (result ≡ NO_AGENT)
        ↔ IsSomeAnd platform.old.value (λ p. LacksAgent agent p.held) }
    ensures wrong_size { (result ≡ WRONG_SIZE) ↔
        IsSomeAnd platform.old.value (λ p. HasAnotherSize agent (length area.old) p.held) }
    ensures nothing { IfSome platform.old.value (λ p.
        HasSize agent (length area.old) p.held →
        (h : List Event) → StandsAt p.held h →
        (result ≡ NOTHING) ↔ LacksNext (board_of p.held) agent h) }
    ensures not_free { IfSome platform.old.value (λ p.
        HasSize agent (length area.old) p.held →
        (h : List Event) → StandsAt p.held h →
        (result ≡ NOT_FREE) ↔
        (HasNext (board_of p.held) agent h × (channel_waiting area.old ≢ None))) }
    ensures errors { ((result ≤ NO_PLATFORM) × (result ≢ MEMORY)) ⊎ (result ≡ WRONG_SIZE) }
    ensures kept { result ≢ DONE → area.new ≡ area.old }
{
    let Some(mut desk) = platform.take(alloc) else {
        return NO_PLATFORM;
    };
    if let Err(refusal) = desk.held.check_size(agent, area.len()) {
        platform.put(desk);
        return code(Err(refusal));
    }
    let seat: &mut Desk = &mut desk;
    let given = post_next(&seat.held, &mut seat.exchange, agent, area);
    platform.put(desk);
    code(given)
}
