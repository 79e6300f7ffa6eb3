//! A command that gives a clock a rate is committed, whose hardware gave it another.
ghost use Rattle.std.specs.Prelude.{◌≡◌, ◌≢◌, ◌↔◌, ◌⊎◌, length, IfErr, IfSome, IsSomeAnd, OnOk, OnErr, None, Err};
ghost use Rattle.scmi_plan.specs.declared.effect.Effect.TheVariants.{Rate};
ghost use Rattle.scmi_core.specs.Asked.{Made};
ghost use Rattle.scmi_core.specs.declared.event.Event.TheVariants.{Command as Called, Reported};
ghost use Rattle.scmi_c.specs.Calls.{HasAnsweredAtRate};
ghost use Rattle.scmi_c.specs.Driven.{HappenInTurn, Says};
ghost use Rattle.scmi_c.specs.Effect.{IsRate};
ghost use Rattle.scmi_c.specs.Kept.{IsUnasked};
ghost use Rattle.scmi_c.specs.Words.{HasAnsweredWordsAtRate, HasRoom, LacksRoom};

use crate::desk::Desk;
use crate::effect::RATE;
use crate::refusal::Refusal;
use crate::{settle, settle_words};
use scmi_codec::channel_words;

/// As `settle::commit`, of a command that gives a clock a rate, whose hardware gave it this one, in
/// Hz: the command is executed and answered, and then the clock has that rate. Last of all `NoRate`
/// if the command gives no clock a rate; then nothing changed.
pub fn commit(desk: &mut Desk, area: &mut [u8], rate: u64) -> Result<(), Refusal>
    ensures ok { OnOk result (IsSomeAnd desk.old.asked (λ asked.
        HasAnsweredAtRate desk.old.held desk.new.held asked.agent asked.frame asked.change.id rate
        area.old area.new)) }
    ensures driven { OnOk result (IsSomeAnd desk.old.asked (λ asked.
        HappenInTurn desk.old.held desk.new.held (Called asked.agent asked.frame)
        (Reported (Rate asked.change.id rate)))) }
    ensures said { OnOk result (IsSomeAnd desk.old.asked (λ asked.
        Says Made asked.change desk.old.held desk.new.held)) }
    ensures unasked { OnOk result (IsUnasked desk.new) }
    ensures aside { desk.new.aside ≡ desk.old.aside }
    ensures nothing { (result ≡ Err Refusal.Nothing) ↔ IsUnasked desk.old }
    ensures wrong_size { (result ≡ Err Refusal.WrongSize) ↔
        IsSomeAnd desk.old.asked (λ asked. asked.bytes ≢ length area.old) }
    ensures no_rate { (result ≡ Err Refusal.NoRate) ↔ IsSomeAnd desk.old.asked (λ asked.
        (asked.bytes ≡ length area.old) × (¬ (IsRate asked.change))) }
    ensures errors { IfErr result (λ e. (e ≡ Refusal.Nothing) ⊎ (e ≡ Refusal.WrongSize) ⊎
        (e ≡ Refusal.NoRate)) }
    ensures err { OnErr result (desk.new ≡ desk.old) }
    ensures kept { OnErr result (area.new ≡ area.old) }
{
    let Some(clock) = clock_of(desk) else {
        check_bytes(desk, area.len())?;
        return Err(Refusal::NoRate);
    };
    settle::commit(desk, area)?;
    desk.held.report_rate(clock, rate);
    Ok(())
}

/// As `commit`, and writes the words of the reply and how many they are.
pub fn commit_words(
    desk: &mut Desk,
    reply: &mut [u32],
    count: &mut u32,
    rate: u64,
) -> Result<(), Refusal>
    ensures ok { OnOk result (IsSomeAnd desk.old.asked (λ asked.
        HasAnsweredWordsAtRate desk.old.held desk.new.held asked.agent asked.frame asked.change.id
        rate count.new reply.old reply.new)) }
    ensures driven { OnOk result (IsSomeAnd desk.old.asked (λ asked.
        HappenInTurn desk.old.held desk.new.held (Called asked.agent asked.frame)
        (Reported (Rate asked.change.id rate)))) }
    ensures said { OnOk result (IsSomeAnd desk.old.asked (λ asked.
        Says Made asked.change desk.old.held desk.new.held)) }
    ensures unasked { OnOk result (IsUnasked desk.new) }
    ensures aside { desk.new.aside ≡ desk.old.aside }
    ensures nothing { (result ≡ Err Refusal.Nothing) ↔ IsUnasked desk.old }
    ensures wrong_size { (result ≡ Err Refusal.WrongSize) ↔
        IsSomeAnd desk.old.asked (LacksRoom (length reply.old)) }
    ensures no_rate { (result ≡ Err Refusal.NoRate) ↔ IsSomeAnd desk.old.asked (λ asked.
        HasRoom (length reply.old) asked × (¬ (IsRate asked.change))) }
    ensures errors { IfErr result (λ e. (e ≡ Refusal.Nothing) ⊎ (e ≡ Refusal.WrongSize) ⊎
        (e ≡ Refusal.NoRate)) }
    ensures err { OnErr result (desk.new ≡ desk.old) }
    ensures kept { OnErr result (reply.new ≡ reply.old) }
    ensures same { OnErr result (count.new ≡ count.old) }
{
    let Some(clock) = clock_of(desk) else {
        check_room(desk, reply.len())?;
        return Err(Refusal::NoRate);
    };
    settle_words::commit(desk, reply, count)?;
    desk.held.report_rate(clock, rate);
    Ok(())
}

/// The clock to which the command that waits gives a rate; `None` if none waits, or it is to change
/// something else.
fn clock_of(desk: &Desk) -> Option<u32>
    ensures clock { IfSome result (λ clock. IsSomeAnd desk.now.asked (λ asked.
        IsRate asked.change × (asked.change.id ≡ clock))) }
    ensures none { result ≡ None → IfSome desk.now.asked (λ asked. ¬ (IsRate asked.change)) }
{
    let waiting = &desk.waiting;
    if waiting.is_asked && waiting.change.kind == RATE {
        Some(waiting.change.id)
    } else {
        None
    }
}

/// `Nothing` if no command waits, and `WrongSize` if its area had not this many bytes.
fn check_bytes(desk: &Desk, bytes: usize) -> Result<(), Refusal>
    ensures nothing { (result ≡ Err Refusal.Nothing) ↔ IsUnasked desk.now }
    ensures wrong_size { (result ≡ Err Refusal.WrongSize) ↔
        IsSomeAnd desk.now.asked (λ asked. asked.bytes ≢ bytes) }
    ensures errors { IfErr result (λ e. (e ≡ Refusal.Nothing) ⊎ (e ≡ Refusal.WrongSize)) }
{
    if !desk.waiting.is_asked {
        return Err(Refusal::Nothing);
    }
    if desk.waiting.bytes != bytes {
        return Err(Refusal::WrongSize);
    }
    Ok(())
}

/// `Nothing` if no command waits, and `WrongSize` if so many words have not room for its reply.
fn check_room(desk: &Desk, room: usize) -> Result<(), Refusal>
    ensures nothing { (result ≡ Err Refusal.Nothing) ↔ IsUnasked desk.now }
    ensures wrong_size { (result ≡ Err Refusal.WrongSize) ↔
        IsSomeAnd desk.now.asked (LacksRoom room) }
    ensures errors { IfErr result (λ e. (e ≡ Refusal.Nothing) ⊎ (e ≡ Refusal.WrongSize)) }
{
    if !desk.waiting.is_asked {
        return Err(Refusal::Nothing);
    }
    if room < 1 + channel_words(desk.waiting.bytes) {
        return Err(Refusal::WrongSize);
    }
    Ok(())
}
