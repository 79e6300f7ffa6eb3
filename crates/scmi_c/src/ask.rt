//! Commands that change no hardware are executed; the others are asked about.
ghost use Rattle.std.specs.Prelude.{◌≡◌, ◌≢◌, ◌↔◌, ◌⊎◌, Some, None, IsSomeAnd, List, option_map};
ghost use Rattle.scmi_codec.specs.Area.{frame_waiting};
ghost use Rattle.scmi_codec.specs.declared.area.TheConstants.{AREA_BYTES};
ghost use Rattle.scmi_core.specs.Effect.{effect_after};
ghost use Rattle.scmi_core.specs.declared.event.Event.{Event};
ghost use Rattle.scmi_core.specs.declared.event.Event.TheVariants.{Command as Called};
ghost use Rattle.scmi_c.specs.Driven.{Drives};
ghost use Rattle.scmi_c.specs.Effect.{numbers_of};
ghost use Rattle.scmi_c.specs.Aside.{IsHeldBack};
ghost use Rattle.scmi_c.specs.Kept.{BeforeAfter, HasAsked, HasSameAside, IsAsked, IsUnasked};
ghost use Rattle.scmi_c.specs.Other.{IsOther};
ghost use Rattle.scmi_c.specs.Standing.{LacksAgent, StandsAt, board_of};
ghost use Rattle.scmi_c.specs.Calls.{ChangesNothing, HasAnswered};
ghost use Rattle.scmi_c.specs.declared.code.TheConstants.{ASKED, DONE, EFFECT, NO_AGENT, NO_PLATFORM, NO_FRAME, OTHER};

use crate::area::{ask, see_whole};
use crate::code::{DONE, EFFECT, code};
use crate::desk::Desk;
use crate::effect::{EffectNumbers, put_numbers};
use crate::handle::Handle;
use scmi_codec::AREA_BYTES;
use std::alloc::Global;

/// Executes the frame in an agent's area and answers it in place, as `scmi_answer` does, if it
/// changes no hardware: `DONE`. Else gives what it is to change of the hardware, and keeps the
/// frame, until `scmi_commit` or `scmi_fail` answers it: `EFFECT`; the area and the history are as
/// they were. `NO_PLATFORM`; `ASKED` if a command was asked about already; `NO_FRAME` if the
/// channel is free; `NO_AGENT`; `ASKED` if the frame is held back by a command that is set aside
/// (`scmi_set_aside`); `OTHER` for a command of a protocol of the board that is not the library's,
/// which the firmware answers. After another number than these two nothing changed.
#[unsafe(no_mangle)]
pub extern "C" fn scmi_ask(
    alloc: Global,
    platform: &mut Handle,
    agent: u32,
    area: &mut [u8; AREA_BYTES],
    effect: &mut EffectNumbers,
) -> u32
    ensures done { result ≡ DONE →
        BeforeAfter platform.old.value platform.new.value (λ p k.
        IsSomeAnd (frame_waiting area.old) (λ frame. IsUnasked k
        × HasAnswered p.held k.held agent frame area.old area.new)) }
    ensures driven { result ≡ DONE →
        BeforeAfter platform.old.value platform.new.value (λ p k.
        IsSomeAnd (frame_waiting area.old) (λ frame.
        Drives p.held k.held (Called agent frame))) }
    ensures nothing { result ≡ DONE →
        IsSomeAnd platform.old.value (λ p.
        IsSomeAnd (frame_waiting area.old) (λ frame.
        (h : List Event) → StandsAt p.held h →
        ChangesNothing (board_of p.held) agent frame h)) }
    ensures asks { result ≡ EFFECT →
        BeforeAfter platform.old.value platform.new.value (λ p k.
        IsSomeAnd (frame_waiting area.old) (λ frame.
        HasAsked p.held k agent frame AREA_BYTES)) }
    ensures effect { result ≡ EFFECT →
        IsSomeAnd platform.old.value (λ p.
        IsSomeAnd (frame_waiting area.old) (λ frame.
        (h : List Event) → StandsAt p.held h →
        option_map numbers_of (effect_after (board_of p.held) h (Called agent frame))
        ≡ Some effect.new)) }
    ensures gives { result ≡ EFFECT →
        IsSomeAnd platform.new.value (λ k.
        IsSomeAnd k.asked (λ asked. asked.change ≡ effect.new)) }
    ensures aside { HasSameAside platform.old.value platform.new.value }
    ensures no_platform { (result ≡ NO_PLATFORM) ↔ (platform.old.value ≡ None) }
    ensures asked { (result ≡ ASKED) ↔ IsSomeAnd platform.old.value (λ p.
        IsAsked p ⊎ IsSomeAnd (frame_waiting area.old) (IsHeldBack p agent)) }
    ensures no_frame { (result ≡ NO_FRAME) ↔
        IsSomeAnd platform.old.value (λ p. IsUnasked p × (frame_waiting area.old ≡ None)) }
    ensures no_agent { (result ≡ NO_AGENT) ↔
        IsSomeAnd platform.old.value (λ p. IsUnasked p ×
        (frame_waiting area.old ≢ None) × LacksAgent agent p.held) }
    ensures other { (result ≡ OTHER) ↔ IsSomeAnd platform.old.value (λ p. IsUnasked p ×
        IsSomeAnd (frame_waiting area.old) (λ frame.
        IsOther agent frame p.held × (¬ (IsHeldBack p agent frame)))) }
    ensures errors { (result ≡ DONE) ⊎ (result ≡ EFFECT) ⊎
        (result ≡ NO_AGENT) ⊎ (result ≡ NO_PLATFORM) ⊎ (result ≡ NO_FRAME) ⊎ (result ≡ ASKED) ⊎
        (result ≡ OTHER) }
    ensures area { result ≢ DONE → area.new ≡ area.old }
    ensures kept { result ≢ DONE → result ≢ EFFECT → platform.new.value ≡ platform.old.value }
    ensures same { result ≢ EFFECT → effect.new ≡ effect.old }
{
    let mut desk = match platform.take_unasked(alloc) {
        Ok(desk) => desk,
        Err(number) => return number,
    };
    see_whole(area);
    let seat: &mut Desk = &mut desk;
    let given = ask(&mut seat.held, &mut seat.exchange, &seat.aside, agent, area);
    if let Ok(Some(change)) = given {
        seat.waiting.begin(agent, AREA_BYTES, change);
        put_numbers(change, effect);
    }
    platform.put(desk);
    match given {
        Ok(Some(_)) => EFFECT,
        Ok(None) => DONE,
        Err(refusal) => code(Err(refusal)),
    }
}
