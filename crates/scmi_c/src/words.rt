//! Messages as their words, which a platform takes and gives.
ghost use Rattle.std.specs.Prelude.{◌≡◌, ◌≢◌, ◌↔◌, ◌+◌, ◌<◌, ◌≤◌, ◌∷◌, ◌++◌, None, List, length, drop, true, IfOk, IfErr, OnOk, OnErr, Ok, Err, ◌⊎◌};
ghost use Rattle.scmi_codec.specs.declared.payload.TheConstants.{PAYLOAD_WORDS};
ghost use Rattle.scmi_plan.specs.Agent.{IsAgent};
ghost use Rattle.scmi_plan.specs.Plan.{IsValid};
ghost use Rattle.scmi_core.specs.Effect.{effect_after};
ghost use Rattle.scmi_core.specs.declared.event.Event.{Event};
ghost use Rattle.scmi_core.specs.declared.event.Event.TheVariants.{Command as Called};
ghost use Rattle.scmi_c.specs.Calls.{IsAskedAbout};
ghost use Rattle.scmi_c.specs.Channel.{bytes_of};
ghost use Rattle.scmi_c.specs.Driven.{Drives, IsUnsaid};
ghost use Rattle.scmi_c.specs.Other.{is_other};
ghost use Rattle.scmi_c.specs.Aside.{IsHeldBackAt, IsMarked, KeepsSpared};
ghost use Rattle.scmi_c.specs.Kept.{AreAskable, aside_by};
ghost use Rattle.scmi_c.specs.Standing.{LacksAgent, StandsAt, board_of};
ghost use Rattle.scmi_c.specs.Words.{FitsWords, HasAnsweredWords, LacksWords, count_of, frame_in, words_after};

use crate::aside::Aside;
use crate::desk::Exchange;
use crate::held::Held;
use crate::refusal::Refusal;
use scmi_codec::{Frame, Header, Message, PAYLOAD_WORDS, channel_bytes, resize};
use scmi_core::Effect;

impl Held {
    /// Refuses a number that is no agent's, and then words that are no message of the agent's
    /// channel, or a place that has not room for each reply.
    pub fn check_words(&self, agent: u32, words: usize, room: usize) -> Result<(), Refusal>
        ensures ok { OnOk result (FitsWords agent words room self.now) }
        ensures few { OnOk result (words ≤ 1 + PAYLOAD_WORDS) }
        ensures valid { IsValid (board_of self.now) }
        ensures no_agent { (result ≡ Err Refusal.NoAgent) ↔ LacksAgent agent self.now }
        ensures wrong_size { (result ≡ Err Refusal.WrongSize)
            ↔ LacksWords agent words room self.now }
        ensures errors { IfErr result (λ e. (e ≡ Refusal.NoAgent) ⊎ (e ≡ Refusal.WrongSize)) }
    {
        let most = self.channel(agent)?.words as usize;
        // Without a header word this is more than any channel has.
        let payload = words.wrapping_sub(1);
        if payload > most || room <= most {
            return Err(Refusal::WrongSize);
        }
        Ok(())
    }

    /// The bytes of the areas of the channels of an agent of the board.
    pub fn bytes(&self, agent: u32) -> usize
        requires { IsAgent (length (board_of self.now).agents) agent }
        ensures { result ≡ bytes_of agent self.now }
    {
        channel_bytes(self.platform.board().channel(agent).words as usize)
    }
}

/// Executes the words of a message, and writes those of the reply and how many they are.
#[inline(always)]
pub fn answer(
    held: &mut Held,
    exchange: &mut Exchange,
    agent: u32,
    message: &[u32],
    reply: &mut [u32],
    count: &mut u32,
)
    requires fits { FitsWords agent (length message.now) (length reply.old) held.old }
    requires few { length message.now ≤ 1 + PAYLOAD_WORDS }
    requires valid { IsValid (board_of held.old) }
    ensures answered { HasAnsweredWords held.old held.new agent (frame_in message.now)
        count.new reply.old reply.new }
    ensures unsaid { IsUnsaid held.old held.new agent (frame_in message.now) }
{
    read_words(message, &mut exchange.frame);
    execute(held, exchange, agent, message, reply, count);
}

/// Executes the words of a message, as `answer`, if they change no hardware. Else gives what they
/// are to change, and keeps them. It is refused as `Held::check_words` says, by `Asked` for what is
/// held back by what is set aside, and by `Other` for a command that the firmware answers. Then
/// nothing changed.
#[tactic(auto, using(crate::proofs::Driving::drives_none))]
#[inline(always)]
pub fn ask(
    held: &mut Held,
    exchange: &mut Exchange,
    aside: &Aside,
    agent: u32,
    message: &[u32],
    reply: &mut [u32],
    count: &mut u32,
) -> Result<Option<Effect>, Refusal>
    requires { IsMarked aside.now }
    ensures effect { IfOk result (λ effect.
        (h : List Event) → StandsAt held.old h → effect
        ≡ effect_after (board_of held.old) h (Called agent (frame_in message.now))) }
    ensures answered { result ≡ Ok None → HasAnsweredWords held.old held.new agent
        (frame_in message.now) count.new reply.old reply.new }
    ensures driven { result ≡ Ok None
        → Drives held.old held.new (Called agent (frame_in message.now)) }
    ensures asked { IfOk result (λ effect. effect ≢ None →
        (exchange.new.frame ≡ frame_in message.now) × (reply.new ≡ reply.old)
        × (count.new ≡ count.old) × IsAskedAbout held.old held.new agent) }
    ensures apart { IfOk result (λ effect. effect ≢ None →
        aside_by aside.now.slots agent ≡ None) }
    ensures aside { AreAskable held.old (aside_by aside.now.slots) →
        AreAskable held.new (aside_by aside.now.slots) }
    ensures held_back { (result ≡ Err Refusal.Asked)
        ↔ (FitsWords agent (length message.now) (length reply.old) held.old
        × IsHeldBackAt held.old (aside_by aside.now.slots) agent (frame_in message.now)) }
    ensures no_agent { (result ≡ Err Refusal.NoAgent) ↔ LacksAgent agent held.old }
    ensures wrong_size { (result ≡ Err Refusal.WrongSize)
        ↔ LacksWords agent (length message.now) (length reply.old) held.old }
    ensures other { (result ≡ Err Refusal.Other)
        ↔ (FitsWords agent (length message.now) (length reply.old) held.old
        × (is_other (board_of held.old) (frame_in message.now) ≡ true)
        × (¬ (IsHeldBackAt held.old (aside_by aside.now.slots) agent
        (frame_in message.now)))) }
    ensures errors { IfErr result (λ e. (e ≡ Refusal.NoAgent) ⊎ (e ≡ Refusal.WrongSize) ⊎
        (e ≡ Refusal.Asked) ⊎ (e ≡ Refusal.Other)) }
    ensures err { OnErr result (held.new ≡ held.old) }
    ensures kept { OnErr result ((reply.new ≡ reply.old) × (count.new ≡ count.old)) }
{
    held.check_words(agent, message.len(), reply.len())?;
    read_words(message, &mut exchange.frame);
    held.check_aside(aside, agent, &exchange.frame)?;
    let effect = held.effect_of(agent, &exchange.frame)?;
    if effect.is_none() {
        execute(held, exchange, agent, message, reply, count);
    }
    Ok(effect)
}

/// Executes the frame that was read from the words of a message, and writes those of the reply,
/// whose header is the message's.
#[inline(always)]
fn execute(
    held: &mut Held,
    exchange: &mut Exchange,
    agent: u32,
    message: &[u32],
    reply: &mut [u32],
    count: &mut u32,
)
    requires fits { FitsWords agent (length message.now) (length reply.old) held.old }
    requires valid { IsValid (board_of held.old) }
    requires frame { exchange.old.frame ≡ frame_in message.now }
    ensures answered { HasAnsweredWords held.old held.new agent (frame_in message.now)
        count.new reply.old reply.new }
    ensures unsaid { IsUnsaid held.old held.new agent (frame_in message.now) }
    ensures spared { KeepsSpared (frame_in message.now) held.old held.new }
{
    held.stand();
    let _ = held.command(agent, &exchange.frame, &mut exchange.reply);
    *count = put_words(reply, message[0], exchange.reply.payload.as_slice());
}

/// Reads the words of a message into a frame.
#[inline(always)]
fn read_words(message: &[u32], frame: &mut Frame)
    requires some { 1 ≤ length message.now }
    requires few { length message.now ≤ 1 + PAYLOAD_WORDS }
    ensures { frame.new ≡ frame_in message.now }
{
    if let Frame::Good(own) = frame {
        // Most commands have as many words as the one before.
        if own.payload.len() == message.len() - 1 {
            own.header = Header::unpack(message[0]);
            copy_words(own.payload.as_mut_slice(), &message[1..]);
            return;
        }
    }
    read_others(message, frame);
}

/// As `read_words`, whatever is in the frame.
#[inline(never)]
fn read_others(message: &[u32], frame: &mut Frame)
    requires some { 1 ≤ length message.now }
    requires few { length message.now ≤ 1 + PAYLOAD_WORDS }
    ensures { frame.new ≡ frame_in message.now }
{
    if let Frame::Malformed { .. } = frame {
        frame.set_empty();
    }
    match frame {
        Frame::Good(own) => {
            own.header = Header::unpack(message[0]);
            resize(&mut own.payload, message.len() - 1);
            copy_words(own.payload.as_mut_slice(), &message[1..]);
        }
        Frame::Malformed { .. } => unreachable!(),
    }
}

/// Writes a message over the first of these words, and gives how many it has.
pub fn put_message(words: &mut [u32], message: &Message) -> u32
    requires room { length message.now.payload.items < length words.old }
    ensures count { result ≡ count_of message.now }
    ensures written { words.new ≡ words_after message.now words.old }
{
    put_words(words, message.header.pack(), message.payload.as_slice())
}

/// Writes a header word and payload words over the first of these, and gives how many they are.
#[inline(always)]
fn put_words(words: &mut [u32], header: u32, payload: &[u32]) -> u32
    requires few { length payload.now ≤ PAYLOAD_WORDS }
    requires room { length payload.now < length words.old }
    ensures count { result ≡ 1 + length payload.now }
    ensures written { words.new
        ≡ (header ∷ payload.now) ++ drop (1 + length payload.now) words.old }
{
    let count = 1 + payload.len();
    words[0] = header;
    // Most replies are a status and a word.
    if count == 3 {
        words[1] = payload[0];
        words[2] = payload[1];
    } else {
        copy_words(&mut words[1..count], payload);
    }
    count as u32
}

/// Writes words over as many others. Most commands have one payload word or none, and none has
/// more than four; up to four take no loop, and no table of jumps.
#[inline(always)]
fn copy_words(to: &mut [u32], from: &[u32])
    requires { length to.old ≡ length from.now }
    ensures { to.new ≡ from.now }
{
    let count = from.len();
    if count == 0 {
        return;
    }
    if count > 2 {
        if count > 4 {
            copy_many(to, from);
            return;
        }
        to[0] = from[0];
        to[1] = from[1];
        to[2] = from[2];
        if count == 4 {
            to[3] = from[3];
        }
        return;
    }
    to[0] = from[0];
    if count == 2 {
        to[1] = from[1];
    }
}

/// Writes words over as many others.
#[inline(never)]
fn copy_many(to: &mut [u32], from: &[u32])
    requires { length to.old ≡ length from.now }
    ensures { to.new ≡ from.now }
{
    for i in 0..from.len() {
        to[i] = from[i];
    }
}
