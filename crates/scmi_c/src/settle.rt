//! A command that was asked about is committed, or fails.
ghost use Rattle.std.specs.Prelude.{◌≡◌, ◌≢◌, ◌↔◌, ◌⊎◌, ◌≤◌, ◌<◌, length, IfErr, IfOk, IsSomeAnd, OnOk, OnErr, None, Err, true};
ghost use Rattle.scmi_codec.specs.Area.{area_after_answer};
ghost use Rattle.scmi_codec.specs.ChannelArea.{capacity, is_channel_size};
ghost use Rattle.scmi_codec.specs.declared.frame.Answer.TheVariants as frame_answer;
ghost use Rattle.scmi_core.specs.Asked.{Made, Refused};
ghost use Rattle.scmi_core.specs.declared.answered.Answered.TheVariants as answered_by;
ghost use Rattle.scmi_core.specs.declared.event.Event.TheVariants.{Command as Called, CommandFailed};
ghost use Rattle.scmi_c.specs.Calls.{HasAnswered, HasFailed};
ghost use Rattle.scmi_c.specs.Driven.{Drives, Says};
ghost use Rattle.scmi_c.specs.Effect.{IsRate};
ghost use Rattle.scmi_c.specs.Kept.{IsUnasked};
ghost use Rattle.scmi_c.specs.Standing.{board_of};

use crate::desk::Desk;
use crate::effect::effect_of;
use crate::refusal::Refusal;
use scmi_codec::{Fault, Message, write_channel_error, write_channel_reply};
use scmi_core::Answered;

/// Executes the command that was asked about, whose change the hardware has made, and writes its
/// answer whole: nothing of the area is read, and nothing is decided again. `Nothing` if no command
/// was asked about, `WrongSize` if the area has not the size of the area that held the command;
/// then nothing changed. It is refused for nothing else. If the command gives a clock a rate, the
/// board has the clock.
pub fn commit(desk: &mut Desk, area: &mut [u8]) -> Result<(), Refusal>
    ensures ok { OnOk result (IsSomeAnd desk.old.asked (λ asked.
        HasAnswered desk.old.held desk.new.held asked.agent asked.frame area.old area.new)) }
    ensures driven { OnOk result (IsSomeAnd desk.old.asked (λ asked.
        Drives desk.old.held desk.new.held (Called asked.agent asked.frame))) }
    ensures said { OnOk result (IsSomeAnd desk.old.asked (λ asked.
        Says Made asked.change desk.old.held desk.new.held)) }
    ensures clock { OnOk result (IsSomeAnd desk.old.asked (λ asked. IsRate asked.change →
        asked.change.id < length (board_of desk.new.held).clocks)) }
    ensures unasked { OnOk result (IsUnasked desk.new) }
    ensures aside { desk.new.aside ≡ desk.old.aside }
    ensures nothing { (result ≡ Err Refusal.Nothing) ↔ IsUnasked desk.old }
    ensures wrong_size { (result ≡ Err Refusal.WrongSize) ↔
        IsSomeAnd desk.old.asked (λ asked. asked.bytes ≢ length area.old) }
    ensures errors { IfErr result (λ e. (e ≡ Refusal.Nothing) ⊎ (e ≡ Refusal.WrongSize)) }
    ensures err { OnErr result (desk.new ≡ desk.old) }
    ensures kept { OnErr result (area.new ≡ area.old) }
{
    let waiting = &desk.waiting;
    if !waiting.is_asked {
        return Err(Refusal::Nothing);
    }
    if waiting.bytes != area.len() {
        return Err(Refusal::WrongSize);
    }
    let effect = effect_of(&waiting.change);
    let answered = desk.held.commit(
        waiting.agent,
        &desk.exchange.frame,
        effect,
        &mut desk.exchange.reply,
    );
    write_whole(area, answered, &desk.exchange.reply);
    desk.waiting.is_asked = false;
    Ok(())
}

/// Answers the command that was asked about, whose change the hardware refused with this fault, by
/// its status, and writes its answer whole: nothing of the area is read. `Nothing` if no command
/// was asked about, `WrongSize` if the area has not the size of the area that held the command, and
/// last `WrongStatus` if there is no fault; then nothing changed. It is refused for nothing else.
pub fn fail(desk: &mut Desk, area: &mut [u8], fault: Option<Fault>) -> Result<(), Refusal>
    ensures ok { OnOk result (IsSomeAnd fault (λ fault. IsSomeAnd desk.old.asked (λ asked.
        HasFailed desk.old.held desk.new.held asked.agent asked.frame fault area.old area.new))) }
    ensures driven { OnOk result (IsSomeAnd fault (λ fault. IsSomeAnd desk.old.asked (λ asked.
        Drives desk.old.held desk.new.held (CommandFailed asked.agent asked.frame fault)))) }
    ensures said { OnOk result (IsSomeAnd fault (λ fault. IsSomeAnd desk.old.asked (λ asked.
        Says (λ change. Refused change fault) asked.change desk.old.held desk.new.held))) }
    ensures unasked { OnOk result (IsUnasked desk.new) }
    ensures aside { desk.new.aside ≡ desk.old.aside }
    ensures nothing { (result ≡ Err Refusal.Nothing) ↔ IsUnasked desk.old }
    ensures wrong_size { (result ≡ Err Refusal.WrongSize) ↔
        IsSomeAnd desk.old.asked (λ asked. asked.bytes ≢ length area.old) }
    ensures wrong_status { (result ≡ Err Refusal.WrongStatus) ↔
        IsSomeAnd desk.old.asked (λ asked. (asked.bytes ≡ length area.old) × (fault ≡ None)) }
    ensures errors { IfErr result (λ e. (e ≡ Refusal.Nothing) ⊎ (e ≡ Refusal.WrongSize) ⊎
        ((e ≡ Refusal.WrongStatus) × (fault ≡ None))) }
    ensures err { OnErr result (desk.new ≡ desk.old) }
    ensures kept { OnErr result (area.new ≡ area.old) }
{
    let waiting = &desk.waiting;
    if !waiting.is_asked {
        return Err(Refusal::Nothing);
    }
    if area.len() != waiting.bytes {
        return Err(Refusal::WrongSize);
    }
    let Some(fault) = fault else {
        return Err(Refusal::WrongStatus);
    };
    let effect = effect_of(&waiting.change);
    desk.held.refuse(
        waiting.agent,
        &desk.exchange.frame,
        effect,
        fault,
        &mut desk.exchange.reply,
    );
    write_whole(area, Answered::Reply, &desk.exchange.reply);
    desk.waiting.is_asked = false;
    Ok(())
}

/// Writes the answer to a frame: of a reply its length, header and words, and last the status word.
/// Its parts are not among the locals of its callers, which execute the command.
#[inline(never)]
fn write_whole(area: &mut [u8], answered: Answered, reply: &Message)
    requires size { is_channel_size (length area.old) ≡ true }
    ensures reply { answered ≡ answered_by.Reply →
        length reply.now.payload.items ≤ capacity area.old →
        area.new ≡ area_after_answer (frame_answer.Reply reply.now) area.old }
    ensures error { answered ≡ answered_by.ChannelError →
        area.new ≡ area_after_answer frame_answer.ChannelError area.old }
{
    let _ = match answered {
        Answered::Reply => write_channel_reply(area, reply),
        Answered::ChannelError => write_channel_error(area),
    };
}
