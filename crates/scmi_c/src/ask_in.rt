//! Commands in areas of the size of their agent's channel are executed, or asked about.
ghost use Rattle.std.specs.Prelude.{◌≡◌, ◌≢◌, ◌↔◌, ◌⊎◌, Some, None, IsSomeAnd, List, length, option_map, true};
ghost use Rattle.scmi_codec.specs.ChannelArea.{channel_waiting};
ghost use Rattle.scmi_core.specs.Effect.{effect_after};
ghost use Rattle.scmi_core.specs.declared.event.Event.{Event};
ghost use Rattle.scmi_core.specs.declared.event.Event.TheVariants.{Command as Called};
ghost use Rattle.scmi_c.specs.Driven.{Drives};
ghost use Rattle.scmi_c.specs.Effect.{numbers_of};
ghost use Rattle.scmi_c.specs.Aside.{IsHeldBack};
ghost use Rattle.scmi_c.specs.Kept.{BeforeAfter, HasAsked, HasSameAside, IsAsked, IsUnasked};
ghost use Rattle.scmi_c.specs.Standing.{LacksAgent, StandsAt, board_of};
ghost use Rattle.scmi_c.specs.Calls.{ChangesNothing, HasAnswered};
ghost use Rattle.scmi_c.specs.Channel.{HasAnotherSize, HasSize, IsFreeOf};
ghost use Rattle.scmi_c.specs.Other.{is_other};
ghost use Rattle.scmi_c.specs.declared.code.TheConstants.{ASKED, DONE, EFFECT, NO_AGENT, NO_PLATFORM, NO_FRAME, OTHER, WRONG_SIZE};

use crate::area::ask_sized;
use crate::code::{DONE, EFFECT, code};
use crate::desk::Desk;
use crate::effect::{EffectNumbers, put_numbers};
use crate::handle::Handle;
use std::alloc::Global;

/// As `scmi_ask`, of a frame in an area of the size of its agent's channel. `NO_PLATFORM`, `ASKED`
/// if a command was asked about already, `NO_AGENT` and `WRONG_SIZE`, if the area has another size,
/// come before all else, in this order.
#[unsafe(no_mangle)]
pub extern "C" fn scmi_ask_in(
    alloc: Global,
    platform: &mut Handle,
    agent: u32,
    area: &mut [u8],
    effect: &mut EffectNumbers,
) -> u32
    ensures done { result ≡ DONE →
        BeforeAfter platform.old.value platform.new.value (λ p k.
        IsSomeAnd (channel_waiting area.old) (λ frame. IsUnasked k
        × HasAnswered p.held k.held agent frame area.old area.new)) }
    ensures driven { result ≡ DONE →
        BeforeAfter platform.old.value platform.new.value (λ p k.
        IsSomeAnd (channel_waiting area.old) (λ frame.
        Drives p.held k.held (Called agent frame))) }
    ensures nothing { result ≡ DONE →
        IsSomeAnd platform.old.value (λ p.
        IsSomeAnd (channel_waiting area.old) (λ frame.
        (h : List Event) → StandsAt p.held h →
        ChangesNothing (board_of p.held) agent frame h)) }
    ensures asks { result ≡ EFFECT →
        BeforeAfter platform.old.value platform.new.value (λ p k.
        IsSomeAnd (channel_waiting area.old) (λ frame.
        HasAsked p.held k agent frame (length area.old))) }
    ensures effect { result ≡ EFFECT →
        IsSomeAnd platform.old.value (λ p.
        IsSomeAnd (channel_waiting area.old) (λ frame.
        (h : List Event) → StandsAt p.held h →
        option_map numbers_of (effect_after (board_of p.held) h (Called agent frame))
        ≡ Some effect.new)) }
    ensures gives { result ≡ EFFECT →
        IsSomeAnd platform.new.value (λ k.
        IsSomeAnd k.asked (λ asked. asked.change ≡ effect.new)) }
    ensures aside { HasSameAside platform.old.value platform.new.value }
    ensures no_platform { (result ≡ NO_PLATFORM) ↔ (platform.old.value ≡ None) }
    ensures asked { (result ≡ ASKED) ↔ IsSomeAnd platform.old.value (λ p. IsAsked p ⊎
        (HasSize agent (length area.old) p.held
        × IsSomeAnd (channel_waiting area.old) (IsHeldBack p agent))) }
    ensures no_agent { (result ≡ NO_AGENT) ↔
        IsSomeAnd platform.old.value (λ p. IsUnasked p × LacksAgent agent p.held) }
    ensures wrong_size { (result ≡ WRONG_SIZE) ↔ IsSomeAnd platform.old.value (λ p.
        IsUnasked p × HasAnotherSize agent (length area.old) p.held) }
    ensures no_frame { (result ≡ NO_FRAME) ↔
        IsSomeAnd platform.old.value (λ p. IsUnasked p × IsFreeOf agent area.old p.held) }
    ensures other { (result ≡ OTHER) ↔ IsSomeAnd platform.old.value (λ p. IsUnasked p
        × HasSize agent (length area.old) p.held
        × IsSomeAnd (channel_waiting area.old) (λ frame.
        (is_other (board_of p.held) frame ≡ true) × (¬ (IsHeldBack p agent frame)))) }
    ensures errors { (result ≡ DONE) ⊎ (result ≡ EFFECT) ⊎
        (result ≡ NO_AGENT) ⊎ (result ≡ NO_PLATFORM) ⊎ (result ≡ NO_FRAME) ⊎
        (result ≡ ASKED) ⊎ (result ≡ WRONG_SIZE) ⊎ (result ≡ OTHER) }
    ensures area { result ≢ DONE → area.new ≡ area.old }
    ensures kept { result ≢ DONE → result ≢ EFFECT → platform.new.value ≡ platform.old.value }
    ensures same { result ≢ EFFECT → effect.new ≡ effect.old }
{
    let mut desk = match platform.take_unasked(alloc) {
        Ok(desk) => desk,
        Err(number) => return number,
    };
    let seat: &mut Desk = &mut desk;
    let given = ask_sized(&mut seat.held, &mut seat.exchange, &seat.aside, agent, area);
    if let Ok(Some(change)) = given {
        seat.waiting.begin(agent, area.len(), change);
        put_numbers(change, effect);
    }
    platform.put(desk);
    match given {
        Ok(Some(_)) => EFFECT,
        Ok(None) => DONE,
        Err(refusal) => code(Err(refusal)),
    }
}
