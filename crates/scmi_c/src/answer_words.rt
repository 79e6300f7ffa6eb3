//! Commands as the words of their messages are executed.
ghost use Rattle.std.specs.Prelude.{◌≡◌, ◌≢◌, ◌↔◌, ◌⊎◌, None, IsSomeAnd, length};
ghost use Rattle.scmi_c.specs.Driven.{IsUnsaid};
ghost use Rattle.scmi_c.specs.Kept.{BeforeAfter, HasSameAside, IsBusy, IsFree, IsUnasked};
ghost use Rattle.scmi_c.specs.Standing.{LacksAgent};
ghost use Rattle.scmi_c.specs.Words.{HasAnsweredWords, LacksWords, frame_in};
ghost use Rattle.scmi_c.specs.declared.code.TheConstants.{ASKED, DONE, NO_AGENT, NO_PLATFORM, WRONG_SIZE};

use crate::code::code;
use crate::desk::Desk;
use crate::handle::Handle;
use crate::words::answer;
use std::alloc::Global;

/// Executes a message of an agent, of which these are the header word and the payload words, and
/// writes those of the reply over the first words of `reply`, and how many they are. `DONE`;
/// `NO_PLATFORM`; `ASKED` if a command waits to be committed or to fail, or is set aside;
/// `NO_AGENT`; `WRONG_SIZE` if there is no header word, if the message has more words than the
/// agent's channel, or if `reply` has not room for as many as a reply may have. After another
/// number than `DONE` nothing changed. The hardware is not asked: a program that drives hardware
/// uses `scmi_ask_words`.
#[unsafe(no_mangle)]
pub extern "C" fn scmi_answer_words(
    alloc: Global,
    platform: &mut Handle,
    agent: u32,
    message: &[u32],
    reply: &mut [u32],
    count: &mut u32,
) -> u32
    ensures done { result ≡ DONE →
        BeforeAfter platform.old.value platform.new.value (λ p k.
        IsUnasked k
        × HasAnsweredWords p.held k.held agent (frame_in message.now)
        count.new reply.old reply.new) }
    ensures unsaid { result ≡ DONE →
        BeforeAfter platform.old.value platform.new.value (λ p k.
        IsUnsaid p.held k.held agent (frame_in message.now)) }
    ensures aside { HasSameAside platform.old.value platform.new.value }
    ensures no_platform { (result ≡ NO_PLATFORM) ↔ (platform.old.value ≡ None) }
    ensures asked { (result ≡ ASKED) ↔ IsSomeAnd platform.old.value IsBusy }
    ensures no_agent { (result ≡ NO_AGENT) ↔
        IsSomeAnd platform.old.value (λ p. IsFree p × LacksAgent agent p.held) }
    ensures wrong_size { (result ≡ WRONG_SIZE) ↔ IsSomeAnd platform.old.value (λ p.
        IsFree p × LacksWords agent (length message.now) (length reply.old) p.held) }
    ensures errors { (result ≡ DONE) ⊎ (result ≡ NO_AGENT) ⊎
        (result ≡ NO_PLATFORM) ⊎ (result ≡ ASKED) ⊎ (result ≡ WRONG_SIZE) }
    ensures kept { result ≢ DONE → (platform.new.value ≡ platform.old.value)
        × (reply.new ≡ reply.old) × (count.new ≡ count.old) }
{
    let mut desk = match platform.take_free(alloc) {
        Ok(desk) => desk,
        Err(number) => return number,
    };
    let seat: &mut Desk = &mut desk;
    let given = match seat.held.check_words(agent, message.len(), reply.len()) {
        Ok(()) => {
            answer(
                &mut seat.held,
                &mut seat.exchange,
                agent,
                message,
                reply,
                count,
            );
            Ok(())
        }
        Err(refusal) => Err(refusal),
    };
    platform.put(desk);
    code(given)
}
