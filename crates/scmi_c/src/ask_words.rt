//! Commands as the words of their messages are executed, or asked about.
ghost use Rattle.std.specs.Prelude.{◌≡◌, ◌≢◌, ◌↔◌, ◌⊎◌, Some, None, IsSomeAnd, List, length, option_map, true};
ghost use Rattle.scmi_core.specs.Effect.{effect_after};
ghost use Rattle.scmi_core.specs.declared.event.Event.{Event};
ghost use Rattle.scmi_core.specs.declared.event.Event.TheVariants.{Command as Called};
ghost use Rattle.scmi_c.specs.Calls.{ChangesNothing};
ghost use Rattle.scmi_c.specs.Channel.{bytes_of};
ghost use Rattle.scmi_c.specs.Driven.{Drives};
ghost use Rattle.scmi_c.specs.Effect.{numbers_of};
ghost use Rattle.scmi_c.specs.Aside.{IsHeldBack};
ghost use Rattle.scmi_c.specs.Kept.{BeforeAfter, HasAsked, HasSameAside, IsAsked, IsUnasked};
ghost use Rattle.scmi_c.specs.Other.{is_other};
ghost use Rattle.scmi_c.specs.Standing.{LacksAgent, StandsAt, board_of};
ghost use Rattle.scmi_c.specs.Words.{FitsWords, HasAnsweredWords, LacksWords, frame_in};
ghost use Rattle.scmi_c.specs.declared.code.TheConstants.{ASKED, DONE, EFFECT, NO_AGENT, NO_PLATFORM, OTHER, WRONG_SIZE};

use crate::code::{DONE, EFFECT, code};
use crate::desk::Desk;
use crate::effect::{EffectNumbers, put_numbers};
use crate::handle::Handle;
use crate::words::ask;
use std::alloc::Global;

/// As `scmi_ask`, of the words of a message: executes it and writes the words of the reply, as
/// `scmi_answer_words` does, if it changes no hardware: `DONE`. Else gives what it is to change,
/// and keeps the message, as one that was in an area of its channel's size: `EFFECT`. The errors
/// are those of `scmi_answer_words`, and then `ASKED`, if the message is held back by a command
/// that is set aside, and `OTHER`, as of `scmi_ask`.
#[unsafe(no_mangle)]
pub extern "C" fn scmi_ask_words(
    alloc: Global,
    platform: &mut Handle,
    agent: u32,
    message: &[u32],
    reply: &mut [u32],
    count: &mut u32,
    effect: &mut EffectNumbers,
) -> u32
    ensures done { result ≡ DONE →
        BeforeAfter platform.old.value platform.new.value (λ p k.
        IsUnasked k
        × HasAnsweredWords p.held k.held agent (frame_in message.now)
        count.new reply.old reply.new) }
    ensures driven { result ≡ DONE →
        BeforeAfter platform.old.value platform.new.value (λ p k.
        Drives p.held k.held (Called agent (frame_in message.now))) }
    ensures nothing { result ≡ DONE →
        IsSomeAnd platform.old.value (λ p.
        (h : List Event) → StandsAt p.held h →
        ChangesNothing (board_of p.held) agent (frame_in message.now) h) }
    ensures asks { result ≡ EFFECT →
        BeforeAfter platform.old.value platform.new.value (λ p k.
        HasAsked p.held k agent (frame_in message.now) (bytes_of agent p.held)) }
    ensures effect { result ≡ EFFECT →
        IsSomeAnd platform.old.value (λ p.
        (h : List Event) → StandsAt p.held h →
        option_map numbers_of
        (effect_after (board_of p.held) h (Called agent (frame_in message.now)))
        ≡ Some effect.new) }
    ensures gives { result ≡ EFFECT →
        IsSomeAnd platform.new.value (λ k.
        IsSomeAnd k.asked (λ asked. asked.change ≡ effect.new)) }
    ensures aside { HasSameAside platform.old.value platform.new.value }
    ensures no_platform { (result ≡ NO_PLATFORM) ↔ (platform.old.value ≡ None) }
    ensures asked { (result ≡ ASKED) ↔ IsSomeAnd platform.old.value (λ p. IsAsked p ⊎
        (FitsWords agent (length message.now) (length reply.old) p.held
        × IsHeldBack p agent (frame_in message.now))) }
    ensures no_agent { (result ≡ NO_AGENT) ↔
        IsSomeAnd platform.old.value (λ p. IsUnasked p × LacksAgent agent p.held) }
    ensures wrong_size { (result ≡ WRONG_SIZE) ↔ IsSomeAnd platform.old.value (λ p.
        IsUnasked p × LacksWords agent (length message.now) (length reply.old) p.held) }
    ensures other { (result ≡ OTHER) ↔ IsSomeAnd platform.old.value (λ p. IsUnasked p
        × FitsWords agent (length message.now) (length reply.old) p.held
        × (is_other (board_of p.held) (frame_in message.now) ≡ true)
        × (¬ (IsHeldBack p agent (frame_in message.now)))) }
    ensures errors { (result ≡ DONE) ⊎ (result ≡ EFFECT) ⊎ (result ≡ NO_AGENT) ⊎
        (result ≡ NO_PLATFORM) ⊎ (result ≡ ASKED) ⊎ (result ≡ WRONG_SIZE) ⊎ (result ≡ OTHER) }
    ensures words { result ≢ DONE → (reply.new ≡ reply.old) × (count.new ≡ count.old) }
    ensures kept { result ≢ DONE → result ≢ EFFECT → platform.new.value ≡ platform.old.value }
    ensures same { result ≢ EFFECT → effect.new ≡ effect.old }
{
    let mut desk = match platform.take_unasked(alloc) {
        Ok(desk) => desk,
        Err(number) => return number,
    };
    let seat: &mut Desk = &mut desk;
    let given = ask(
        &mut seat.held,
        &mut seat.exchange,
        &seat.aside,
        agent,
        message,
        reply,
        count,
    );
    if let Ok(Some(change)) = given {
        let bytes = seat.held.bytes(agent);
        seat.waiting.begin(agent, bytes, change);
        put_numbers(change, effect);
    }
    platform.put(desk);
    match given {
        Ok(Some(_)) => EFFECT,
        Ok(None) => DONE,
        Err(refusal) => code(Err(refusal)),
    }
}
