//! A command that was asked about is committed, or fails, and its reply is words.
ghost use Rattle.std.specs.Prelude.{◌≡◌, ◌<◌, ◌↔◌, ◌⊎◌, length, IfErr, IsSomeAnd, OnOk, OnErr, None, Err};
ghost use Rattle.scmi_core.specs.Asked.{Made, Refused};
ghost use Rattle.scmi_core.specs.declared.event.Event.TheVariants.{Command as Called, CommandFailed};
ghost use Rattle.scmi_c.specs.Driven.{Drives, Says};
ghost use Rattle.scmi_c.specs.Effect.{IsRate};
ghost use Rattle.scmi_c.specs.Kept.{IsUnasked};
ghost use Rattle.scmi_c.specs.Standing.{board_of};
ghost use Rattle.scmi_c.specs.Words.{HasAnsweredWords, HasFailedWords, HasRoom, LacksRoom};

use crate::desk::Desk;
use crate::effect::effect_of;
use crate::refusal::Refusal;
use crate::words::put_message;
use scmi_codec::{Fault, channel_words};

/// As `settle::commit`, and writes the words of the reply and how many they are. `WrongSize` if
/// there is not room for as many words as the area of the command has.
pub fn commit(desk: &mut Desk, reply: &mut [u32], count: &mut u32) -> Result<(), Refusal>
    ensures ok { OnOk result (IsSomeAnd desk.old.asked (λ asked.
        HasAnsweredWords desk.old.held desk.new.held asked.agent asked.frame
        count.new reply.old reply.new)) }
    ensures driven { OnOk result (IsSomeAnd desk.old.asked (λ asked.
        Drives desk.old.held desk.new.held (Called asked.agent asked.frame))) }
    ensures said { OnOk result (IsSomeAnd desk.old.asked (λ asked.
        Says Made asked.change desk.old.held desk.new.held)) }
    ensures clock { OnOk result (IsSomeAnd desk.old.asked (λ asked. IsRate asked.change →
        asked.change.id < length (board_of desk.new.held).clocks)) }
    ensures unasked { OnOk result (IsUnasked desk.new) }
    ensures aside { desk.new.aside ≡ desk.old.aside }
    ensures nothing { (result ≡ Err Refusal.Nothing) ↔ IsUnasked desk.old }
    ensures wrong_size { (result ≡ Err Refusal.WrongSize) ↔
        IsSomeAnd desk.old.asked (LacksRoom (length reply.old)) }
    ensures errors { IfErr result (λ e. (e ≡ Refusal.Nothing) ⊎ (e ≡ Refusal.WrongSize)) }
    ensures err { OnErr result (desk.new ≡ desk.old) }
    ensures kept { OnErr result (reply.new ≡ reply.old) }
    ensures same { OnErr result (count.new ≡ count.old) }
{
    let waiting = &desk.waiting;
    if !waiting.is_asked {
        return Err(Refusal::Nothing);
    }
    if reply.len() < 1 + channel_words(waiting.bytes) {
        return Err(Refusal::WrongSize);
    }
    let effect = effect_of(&waiting.change);
    desk.held.stand();
    let _ = desk.held.commit(
        waiting.agent,
        &desk.exchange.frame,
        effect,
        &mut desk.exchange.reply,
    );
    *count = put_message(reply, &desk.exchange.reply);
    desk.waiting.is_asked = false;
    Ok(())
}

/// As `settle::fail`, and writes the words of the reply and how many they are. `WrongSize` if there
/// is not room for as many words as the area of the command has.
pub fn fail(
    desk: &mut Desk,
    reply: &mut [u32],
    count: &mut u32,
    fault: Option<Fault>,
) -> Result<(), Refusal>
    ensures ok { OnOk result (IsSomeAnd fault (λ fault. IsSomeAnd desk.old.asked (λ asked.
        HasFailedWords desk.old.held desk.new.held asked.agent asked.frame fault
        count.new reply.old reply.new))) }
    ensures driven { OnOk result (IsSomeAnd fault (λ fault. IsSomeAnd desk.old.asked (λ asked.
        Drives desk.old.held desk.new.held (CommandFailed asked.agent asked.frame fault)))) }
    ensures said { OnOk result (IsSomeAnd fault (λ fault. IsSomeAnd desk.old.asked (λ asked.
        Says (λ change. Refused change fault) asked.change desk.old.held desk.new.held))) }
    ensures unasked { OnOk result (IsUnasked desk.new) }
    ensures aside { desk.new.aside ≡ desk.old.aside }
    ensures nothing { (result ≡ Err Refusal.Nothing) ↔ IsUnasked desk.old }
    ensures wrong_size { (result ≡ Err Refusal.WrongSize) ↔
        IsSomeAnd desk.old.asked (LacksRoom (length reply.old)) }
    ensures wrong_status { (result ≡ Err Refusal.WrongStatus) ↔
        IsSomeAnd desk.old.asked (λ asked.
        HasRoom (length reply.old) asked × (fault ≡ None)) }
    ensures errors { IfErr result (λ e. (e ≡ Refusal.Nothing) ⊎ (e ≡ Refusal.WrongSize) ⊎
        ((e ≡ Refusal.WrongStatus) × (fault ≡ None))) }
    ensures err { OnErr result (desk.new ≡ desk.old) }
    ensures kept { OnErr result (reply.new ≡ reply.old) }
    ensures same { OnErr result (count.new ≡ count.old) }
{
    let waiting = &desk.waiting;
    if !waiting.is_asked {
        return Err(Refusal::Nothing);
    }
    if reply.len() < 1 + channel_words(waiting.bytes) {
        return Err(Refusal::WrongSize);
    }
    let Some(fault) = fault else {
        return Err(Refusal::WrongStatus);
    };
    let effect = effect_of(&waiting.change);
    desk.held.refuse(
        waiting.agent,
        &desk.exchange.frame,
        effect,
        fault,
        &mut desk.exchange.reply,
    );
    *count = put_message(reply, &desk.exchange.reply);
    desk.waiting.is_asked = false;
    Ok(())
}
