//! The place of commands while they are answered.
ghost use Rattle.std.specs.Prelude.{◌≡◌, ◌↔◌, ◌⊎◌, true, false, None, IsSomeAnd, OnOk, OnErr, IfErr, Err};
ghost use Rattle.scmi_c.specs.Aside.{IsSetAside, IsTakenUp};
ghost use Rattle.scmi_c.specs.Effect.{numbers_of};
ghost use Rattle.scmi_c.specs.Kept.{IsAsked, IsBusy, IsFree, IsUnasked, aside_of};

use crate::aside::Aside;
use crate::effect::{EffectNumbers, put_numbers};
use crate::held::Held;
use crate::refusal::Refusal;
use scmi_codec::{Frame, Message};
use scmi_core::Effect;
use std::marker::Model;

/// The frame that a platform was given last, and its last reply. The next ones are written over them,
/// so that no call makes them anew.
#[derive(Drop)]
pub struct Exchange {
    pub frame: Frame,
    pub reply: Message,
}

/// Whether a command was asked about; whose, the bytes of the area that held it, and what it is to
/// change of the hardware. All are words, each written by itself.
#[derive(Drop)]
pub struct Waiting {
    pub is_asked: bool,
    pub agent: u32,
    pub bytes: usize,
    pub change: EffectNumbers,
}

impl Waiting {
    /// A command waits.
    #[inline(always)]
    pub fn begin(&mut self, agent: u32, bytes: usize, effect: Effect)
        ensures asked { self.new.is_asked ≡ true }
        ensures agent { self.new.agent ≡ agent }
        ensures bytes { self.new.bytes ≡ bytes }
        ensures change { self.new.change ≡ numbers_of effect }
    {
        self.is_asked = true;
        self.agent = agent;
        self.bytes = bytes;
        put_numbers(effect, &mut self.change);
    }
}

/// A platform, and beside it the frame and the reply of the last command. If one was asked about
/// that is to change the hardware, it waits here, as it was read and with that change, until it is
/// committed or has failed, and neither can be refused. Commands that are set aside wait beside it,
/// until they are taken up. Contracts see the platform, and these commands with their changes.
// The platform stands behind what is small, whose words are then at offsets that an instruction has
// room for.
#[derive(Drop)]
pub struct Desk {
    pub waiting: Waiting,
    pub exchange: Exchange,
    pub held: Held,
    pub aside: Aside,
}

impl Model for Desk {
    ghost use Rattle.scmi_c.specs.Aside.{IsMarked};
    ghost use Rattle.scmi_c.specs.Kept.{aside_by, Kept, IsKept, asked_by};

    ghost Value = { Kept };

    ghost view = { λ d. record {
      held = d.held;
      asked = asked_by d.exchange.frame d.waiting;
      aside = d.aside.slots;
    } };

    ghost invariant = { λ d.
        IsKept d.held (asked_by d.exchange.frame d.waiting) (aside_by d.aside.slots)
        × IsMarked d.aside };
}

impl Desk {
    /// A platform that was given no frame yet.
    #[inline(always)]
    pub fn new(held: Held) -> Desk
        ensures held { result.held ≡ held }
        ensures free { IsFree result }
    {
        Desk {
            held,
            exchange: Exchange {
                frame: Frame::Good(Message::default()),
                reply: Message::default(),
            },
            waiting: Waiting {
                is_asked: false,
                agent: 0,
                bytes: 0,
                change: EffectNumbers {
                    kind: 0,
                    id: 0,
                    low: 0,
                    high: 0,
                },
            },
            aside: Aside::new(),
        }
    }

    /// Whether a command was asked about.
    pub fn is_asked(&self) -> bool
        ensures asked { result ≡ true → IsAsked self.now }
        ensures unasked { result ≡ false → IsUnasked self.now }
    {
        self.waiting.is_asked
    }

    /// Whether a command was asked about, or is set aside.
    pub fn is_busy(&self) -> bool
        ensures busy { result ≡ true → IsBusy self.now }
        ensures free { result ≡ false → IsFree self.now }
    {
        self.waiting.is_asked || self.aside.is_any
    }

    /// Sets the command that waits aside. `Nothing` if no command was asked about, the only
    /// refusal; then nothing changed.
    pub fn set_aside(&mut self) -> Result<(), Refusal>
        ensures ok { OnOk result (IsSomeAnd self.old.asked (λ command.
            IsSetAside command self.old self.new)) }
        ensures nothing { (result ≡ Err Refusal.Nothing) ↔ IsUnasked self.old }
        ensures errors { IfErr result (λ e. e ≡ Refusal.Nothing) }
        ensures err { OnErr result (self.new ≡ self.old) }
    {
        let waiting = &self.waiting;
        if !waiting.is_asked {
            return Err(Refusal::Nothing);
        }
        self.held.stand();
        self.aside.put(
            waiting.agent,
            &self.exchange.frame,
            waiting.bytes,
            &waiting.change,
        );
        self.waiting.is_asked = false;
        Ok(())
    }

    /// Takes an agent's command up again that was set aside: it waits as one that was asked about.
    /// `Asked` if another waits, else `Nothing` if the agent has none set aside. Then nothing
    /// changed.
    pub fn take_up(&mut self, agent: u32) -> Result<(), Refusal>
        ensures ok { OnOk result (IsSomeAnd (aside_of self.old agent) (λ command.
            IsTakenUp agent command self.old self.new)) }
        ensures asked { (result ≡ Err Refusal.Asked) ↔ IsAsked self.old }
        ensures nothing { (result ≡ Err Refusal.Nothing)
            ↔ (IsUnasked self.old × (aside_of self.old agent ≡ None)) }
        ensures errors { IfErr result (λ e. (e ≡ Refusal.Nothing) ⊎ (e ≡ Refusal.Asked)) }
        ensures err { OnErr result (self.new ≡ self.old) }
    {
        if self.waiting.is_asked {
            return Err(Refusal::Asked);
        }
        let Some(waiting) = self.aside.take(agent, &mut self.exchange.frame) else {
            return Err(Refusal::Nothing);
        };
        self.waiting = waiting;
        Ok(())
    }
}
