//! Areas that a platform answers and fills: whole ones, and those of the size of their agent's
//! channel.
ghost use Rattle.std.specs.Prelude.{◌≡◌, ◌≢◌, ◌↔◌, ◌≤◌, Some, None, List, length, true, IsSomeAnd, IfOk, IfErr, OnOk, OnErr, Ok, Err, ◌⊎◌};
ghost use Rattle.scmi_codec.specs.Area.{area_after_answer, frame_waiting, header_at, message_of};
ghost use Rattle.scmi_codec.specs.ChannelArea.{capacity, channel_waiting, is_channel_size};
ghost use Rattle.scmi_codec.specs.declared.frame.Answer.TheVariants as frame_answer;
ghost use Rattle.scmi_plan.specs.Agent.{IsAgent};
ghost use Rattle.scmi_plan.specs.Plan.{IsValid};
ghost use Rattle.scmi_core.specs.Effect.{effect_after};
ghost use Rattle.scmi_core.specs.declared.answered.Answered.TheVariants as answered_by;
ghost use Rattle.scmi_core.specs.declared.event.Event.{Event};
ghost use Rattle.scmi_core.specs.declared.event.Event.TheVariants.{Command as Called};
ghost use Rattle.scmi_c.specs.Aside.{IsHeldBackAt, IsMarked, KeepsSpared};
ghost use Rattle.scmi_c.specs.Kept.{AreAskable, aside_by};
ghost use Rattle.scmi_c.specs.Standing.{LacksAgent, StandsAt, board_of};
ghost use Rattle.scmi_c.specs.Calls.{HasAnswered, HasPosted, HasNext, IsAskedAbout, LacksNext};
ghost use Rattle.scmi_c.specs.Channel.{HasAnotherSize, HasSize, IsAreaOf, IsFreeOf};
ghost use Rattle.scmi_c.specs.Driven.{Drives, IsUnsaid};
ghost use Rattle.scmi_c.specs.Other.{IsOther, is_other};

use crate::aside::Aside;
use crate::desk::Exchange;
use crate::held::Held;
use crate::refusal::Refusal;
use scmi_codec::{
    AREA_BYTES, Payload, is_channel_free, read_channel_area_into, write_channel_error,
    write_channel_message, write_channel_response,
};
use scmi_core::{Answered, Effect};

/// Does nothing: it is there for its contract, that a whole area is read as one of a channel with
/// the longest messages.
#[tactic(auto, using(crate::proofs::Areas::whole_waits))]
#[inline(always)]
pub fn see_whole(area: &[u8; AREA_BYTES])
    ensures { channel_waiting area.now ≡ frame_waiting area.now }
{
    let _area = area;
}

/// Executes the frame in an agent's area, and answers it in place. `Nothing` if the channel is
/// free; else `NoAgent` if the board lacks the agent. Then nothing changed.
#[inline(always)]
pub fn answer(
    held: &mut Held,
    exchange: &mut Exchange,
    agent: u32,
    area: &mut [u8],
) -> Result<(), Refusal>
    requires size { is_channel_size (length area.old) ≡ true }
    requires room { IsAreaOf agent (length area.old) held.old }
    ensures ok { OnOk result
        (IsSomeAnd
        (channel_waiting area.old)
        (λ frame. HasAnswered held.old held.new agent frame area.old area.new)) }
    ensures unsaid { OnOk result (IsSomeAnd (channel_waiting area.old) (λ frame.
        IsUnsaid held.old held.new agent frame)) }
    ensures free { (result ≡ Err Refusal.Nothing) ↔ (channel_waiting area.old ≡ None) }
    ensures no_agent { (result ≡ Err Refusal.NoAgent) ↔
        ((channel_waiting area.old ≢ None) × LacksAgent agent held.old) }
    ensures errors { IfErr result (λ e. (e ≡ Refusal.Nothing) ⊎ (e ≡ Refusal.NoAgent)) }
    ensures err { OnErr result (held.new ≡ held.old) }
    ensures kept { OnErr result (area.new ≡ area.old) }
{
    let Ok(true) = read_channel_area_into(area, &mut exchange.frame) else {
        return Err(Refusal::Nothing);
    };
    held.check_agent(agent)?;
    execute(held, exchange, agent, area);
    Ok(())
}

/// As `answer`, of an area of the size of the agent's channel. `NoAgent`, and `WrongSize` if the
/// area has another size, come before all else, in this order.
#[inline(always)]
pub fn answer_sized(
    held: &mut Held,
    exchange: &mut Exchange,
    agent: u32,
    area: &mut [u8],
) -> Result<(), Refusal>
    ensures ok { OnOk result
        (IsSomeAnd
        (channel_waiting area.old)
        (λ frame. HasAnswered held.old held.new agent frame area.old area.new)) }
    ensures unsaid { OnOk result (IsSomeAnd (channel_waiting area.old) (λ frame.
        IsUnsaid held.old held.new agent frame)) }
    ensures free { (result ≡ Err Refusal.Nothing) ↔ IsFreeOf agent area.old held.old }
    ensures no_agent { (result ≡ Err Refusal.NoAgent) ↔ LacksAgent agent held.old }
    ensures wrong_size { (result ≡ Err Refusal.WrongSize)
        ↔ HasAnotherSize agent (length area.old) held.old }
    ensures errors { IfErr result (λ e.
        (e ≡ Refusal.Nothing) ⊎ (e ≡ Refusal.NoAgent) ⊎ (e ≡ Refusal.WrongSize)) }
    ensures err { OnErr result (held.new ≡ held.old) }
    ensures kept { OnErr result (area.new ≡ area.old) }
{
    held.check_size(agent, area.len())?;
    answer(held, exchange, agent, area)
}

/// Executes the frame that was read from an agent's area, and writes the answer over it.
#[inline(always)]
fn execute(held: &mut Held, exchange: &mut Exchange, agent: u32, area: &mut [u8])
    requires agent { IsAgent (length (board_of held.old).agents) agent }
    requires valid { IsValid (board_of held.old) }
    requires size { is_channel_size (length area.old) ≡ true }
    requires room { IsAreaOf agent (length area.old) held.old }
    requires waits { channel_waiting area.old ≡ Some exchange.old.frame }
    ensures answered { HasAnswered held.old held.new agent exchange.old.frame area.old area.new }
    ensures unsaid { IsUnsaid held.old held.new agent exchange.old.frame }
    ensures spared { KeepsSpared exchange.old.frame held.old held.new }
    ensures frame { exchange.new.frame ≡ exchange.old.frame }
{
    let answered = held.command(agent, &exchange.frame, &mut exchange.reply);
    put_answer(area, answered, &exchange.reply.payload);
}

/// Writes the answer to a frame over it: the reply's header is the frame's, which is in the area.
fn put_answer(area: &mut [u8], answered: Answered, payload: &Payload)
    requires size { is_channel_size (length area.old) ≡ true }
    ensures reply { answered ≡ answered_by.Reply → length payload.now.items ≤ capacity area.old →
        area.new ≡ area_after_answer
        (frame_answer.Reply (message_of (header_at area.old) payload.now.items)) area.old }
    ensures error { answered ≡ answered_by.ChannelError →
        area.new ≡ area_after_answer frame_answer.ChannelError area.old }
{
    let _ = match answered {
        Answered::Reply => write_channel_response(area, payload),
        Answered::ChannelError => write_channel_error(area),
    };
}

/// Executes the frame in an agent's area and answers it in place, if it changes no hardware. Else
/// gives what it is to change, and keeps the frame. `NoFrame` if the channel is free; else
/// `NoAgent` if the board lacks the agent, `Asked` for a frame that is held back by what is set
/// aside, and `Other` for a command that the firmware answers. Then nothing changed.
#[tactic(auto, using(crate::proofs::Driving::drives_none))]
#[inline(always)]
pub fn ask(
    held: &mut Held,
    exchange: &mut Exchange,
    aside: &Aside,
    agent: u32,
    area: &mut [u8],
) -> Result<Option<Effect>, Refusal>
    requires marked { IsMarked aside.now }
    requires size { is_channel_size (length area.old) ≡ true }
    requires room { IsAreaOf agent (length area.old) held.old }
    ensures effect { IfOk result (λ effect. IsSomeAnd (channel_waiting area.old) (λ frame.
        (h : List Event) → StandsAt held.old h →
        effect ≡ effect_after (board_of held.old) h (Called agent frame))) }
    ensures answered { result ≡ Ok None → IsSomeAnd (channel_waiting area.old) (λ frame.
        HasAnswered held.old held.new agent frame area.old area.new) }
    ensures driven { result ≡ Ok None → IsSomeAnd (channel_waiting area.old) (λ frame.
        Drives held.old held.new (Called agent frame)) }
    ensures asked { IfOk result (λ effect. effect ≢ None →
        (channel_waiting area.old ≡ Some exchange.new.frame) × (area.new ≡ area.old)
        × IsAskedAbout held.old held.new agent) }
    ensures apart { IfOk result (λ effect. effect ≢ None →
        aside_by aside.now.slots agent ≡ None) }
    ensures aside { AreAskable held.old (aside_by aside.now.slots) →
        AreAskable held.new (aside_by aside.now.slots) }
    ensures held_back { (result ≡ Err Refusal.Asked) ↔ IsSomeAnd (channel_waiting area.old)
        (IsHeldBackAt held.old (aside_by aside.now.slots) agent) }
    ensures no_frame { (result ≡ Err Refusal.NoFrame) ↔ (channel_waiting area.old ≡ None) }
    ensures no_agent { (result ≡ Err Refusal.NoAgent) ↔
        ((channel_waiting area.old ≢ None) × LacksAgent agent held.old) }
    ensures other { (result ≡ Err Refusal.Other) ↔ IsSomeAnd (channel_waiting area.old) (λ frame.
        IsOther agent frame held.old
        × (¬ (IsHeldBackAt held.old (aside_by aside.now.slots) agent frame))) }
    ensures errors { IfErr result (λ e. (e ≡ Refusal.NoFrame) ⊎ (e ≡ Refusal.NoAgent) ⊎
        (e ≡ Refusal.Asked) ⊎ (e ≡ Refusal.Other)) }
    ensures err { OnErr result (held.new ≡ held.old) }
    ensures kept { OnErr result (area.new ≡ area.old) }
{
    let Ok(true) = read_channel_area_into(area, &mut exchange.frame) else {
        return Err(Refusal::NoFrame);
    };
    held.check_aside(aside, agent, &exchange.frame)?;
    held.check_agent(agent)?;
    let effect = held.effect_of(agent, &exchange.frame)?;
    if effect.is_none() {
        execute(held, exchange, agent, area);
    }
    Ok(effect)
}

/// As `ask`, of an area of the size of the agent's channel. `NoAgent`, and `WrongSize` if the area
/// has another size, come before all else, in this order.
#[inline(always)]
pub fn ask_sized(
    held: &mut Held,
    exchange: &mut Exchange,
    aside: &Aside,
    agent: u32,
    area: &mut [u8],
) -> Result<Option<Effect>, Refusal>
    requires { IsMarked aside.now }
    ensures effect { IfOk result (λ effect. IsSomeAnd (channel_waiting area.old) (λ frame.
        (h : List Event) → StandsAt held.old h →
        effect ≡ effect_after (board_of held.old) h (Called agent frame))) }
    ensures size { OnOk result (HasSize agent (length area.old) held.old) }
    ensures answered { result ≡ Ok None → IsSomeAnd (channel_waiting area.old) (λ frame.
        HasAnswered held.old held.new agent frame area.old area.new) }
    ensures driven { result ≡ Ok None → IsSomeAnd (channel_waiting area.old) (λ frame.
        Drives held.old held.new (Called agent frame)) }
    ensures asked { IfOk result (λ effect. effect ≢ None →
        (channel_waiting area.old ≡ Some exchange.new.frame) × (area.new ≡ area.old)
        × IsAskedAbout held.old held.new agent) }
    ensures apart { IfOk result (λ effect. effect ≢ None →
        aside_by aside.now.slots agent ≡ None) }
    ensures aside { AreAskable held.old (aside_by aside.now.slots) →
        AreAskable held.new (aside_by aside.now.slots) }
    ensures held_back { (result ≡ Err Refusal.Asked)
        ↔ (HasSize agent (length area.old) held.old × IsSomeAnd (channel_waiting area.old)
        (IsHeldBackAt held.old (aside_by aside.now.slots) agent)) }
    ensures no_frame { (result ≡ Err Refusal.NoFrame) ↔ IsFreeOf agent area.old held.old }
    ensures no_agent { (result ≡ Err Refusal.NoAgent) ↔ LacksAgent agent held.old }
    ensures wrong_size { (result ≡ Err Refusal.WrongSize)
        ↔ HasAnotherSize agent (length area.old) held.old }
    ensures other { (result ≡ Err Refusal.Other)
        ↔ (HasSize agent (length area.old) held.old
        × IsSomeAnd (channel_waiting area.old) (λ frame.
        (is_other (board_of held.old) frame ≡ true)
        × (¬ (IsHeldBackAt held.old (aside_by aside.now.slots) agent frame)))) }
    ensures errors { IfErr result (λ e. (e ≡ Refusal.NoFrame) ⊎ (e ≡ Refusal.NoAgent) ⊎
        (e ≡ Refusal.WrongSize) ⊎ (e ≡ Refusal.Asked) ⊎ (e ≡ Refusal.Other)) }
    ensures err { OnErr result (held.new ≡ held.old) }
    ensures kept { OnErr result (area.new ≡ area.old) }
{
    held.check_size(agent, area.len())?;
    ask(held, exchange, aside, agent, area)
}

/// Writes the first message of an agent's outbox into an area, as a caller posts it. `NoAgent` if
/// the board lacks the agent, `Nothing` if its outbox is empty, and `NotFree` if the channel still
/// holds a message. Then nothing changed.
#[inline(always)]
pub fn post_next(
    held: &Held,
    exchange: &mut Exchange,
    agent: u32,
    area: &mut [u8],
) -> Result<(), Refusal>
    requires size { is_channel_size (length area.old) ≡ true }
    requires room { IsAreaOf agent (length area.old) held.now }
    ensures ok { OnOk result (HasPosted held.now agent area.old area.new) }
    ensures no_agent { (result ≡ Err Refusal.NoAgent) ↔ LacksAgent agent held.now }
    ensures nothing { (h : List Event) → StandsAt held.now h →
        (result ≡ Err Refusal.Nothing) ↔ LacksNext (board_of held.now) agent h }
    ensures not_free { (h : List Event) → StandsAt held.now h →
        (result ≡ Err Refusal.NotFree) ↔
        (HasNext (board_of held.now) agent h × (channel_waiting area.old ≢ None)) }
    ensures errors { IfErr result (λ e.
        (e ≡ Refusal.Nothing) ⊎ (e ≡ Refusal.NoAgent) ⊎ (e ≡ Refusal.NotFree)) }
    ensures frame { exchange.new.frame ≡ exchange.old.frame }
    ensures kept { OnErr result (area.new ≡ area.old) }
{
    held.check_agent(agent)?;
    let Some(first) = held.platform.first(agent) else {
        return Err(Refusal::Nothing);
    };
    let Ok(true) = is_channel_free(area) else {
        return Err(Refusal::NotFree);
    };
    first.copy_to(&mut exchange.reply);
    // A message of an outbox fits its agent's channel, so it is always written.
    match write_channel_message(area, &exchange.reply) {
        Ok(()) => Ok(()),
        Err(_) => Err(Refusal::NotFree),
    }
}
