//! Commands that are set aside while their hardware settles.
ghost use Rattle.std.specs.Prelude.{◌≡◌, ◌≢◌, ◌≤◌, ◌↔◌, ℕ, length, slice_index, true, false, Some, None, IfSome};
ghost use Rattle.scmi_codec.specs.declared.frame.Frame.TheVariants.{Good};
ghost use Rattle.scmi_plan.specs.Agent.{IsAgent};
ghost use Rattle.scmi_plan.specs.declared.limits.TheConstants.{AGENTS};
ghost use Rattle.scmi_c.specs.Aside.{IsHeldBackBy, IsMarked, IsSmall, disturbs, holds_in, is_any, is_change_of, is_permission, set_of, with_aside, without_aside};
ghost use Rattle.scmi_c.specs.Kept.{aside_by, command_in, asked_by};
ghost use Rattle.scmi_c.specs.declared.aside.TheConstants.{SET_WORDS};

use crate::desk::Waiting;
use crate::effect::{EffectNumbers, STATE};
use arrayvec::ArrayVec;
use scmi_codec::{
    BASE_PROTOCOL, CLOCK_PROTOCOL, Frame, Header, Message, POWER_PROTOCOL, set_payload,
};
use scmi_plan::{AGENTS, Resource};

/// The most payload words of a set.
pub const SET_WORDS: usize = 4;

/// A place for the command of one agent: its message, the bytes of the area that held it, and what
/// it is to change of the hardware.
#[derive(Drop)]
pub struct Slot {
    // First, so that a copy of it leaves a pointer to the place: each other access is at an offset
    // from there that its size divides, as firmware's library for aarch64 wants it.
    pub header: Header,
    pub words: ArrayVec<u32, SET_WORDS>,
    pub bytes: usize,
    pub change: EffectNumbers,
    pub is_used: bool,
}

impl Slot {
    /// A place without a command.
    fn new() -> Slot
        ensures { result.is_used ≡ false }
    {
        Slot {
            is_used: false,
            header: Header::default(),
            words: ArrayVec::new(),
            bytes: 0,
            change: EffectNumbers {
                kind: 0,
                id: 0,
                low: 0,
                high: 0,
            },
        }
    }

    /// Takes up a command.
    fn fill(&mut self, message: &Message, bytes: usize, change: &EffectNumbers)
        requires { length message.now.payload.items ≤ SET_WORDS }
        ensures used { self.new.is_used ≡ true }
        ensures command { (agent : ℕ) → command_in agent self.new ≡ Some (record {
          agent = agent;
          frame = Good message.now;
          bytes = bytes;
          change = change.now;
        }) }
    {
        self.is_used = true;
        self.header = message.header;
        self.words.clear();
        let _ = self.words.try_extend_from_slice(message.payload.as_slice());
        self.bytes = bytes;
        self.change = *change;
    }

    /// Whether the command is there, is one of agent `own`, and holds a message of an agent back.
    fn holds_back(&self, own: u32, agent: u32, message: &Message) -> bool
        ensures { result ≡ holds_in own self.now agent message.now }
    {
        self.is_used && (own == agent || disturbs(message, &self.change))
    }

    /// Writes the message of the command over a frame.
    fn copy_to(&self, frame: &mut Frame)
        ensures { frame.new ≡ Good (record {
          header = self.now.header;
          payload = record { items = self.now.words.items };
        }) }
    {
        if let Frame::Malformed { .. } = frame {
            frame.set_empty();
        }
        if let Frame::Good(own) = frame {
            own.header = self.header;
            set_payload(&mut own.payload, self.words.as_slice());
        }
    }
}

/// The commands that are set aside, that of agent a in the place a - 1, and whether there is any.
#[derive(Drop)]
pub struct Aside {
    pub is_any: bool,
    pub slots: [Slot; AGENTS],
}

impl Aside {
    /// No command is set aside.
    pub fn new() -> Aside
        ensures marked { IsMarked result }
        ensures none { (agent : ℕ) → aside_by result.slots agent ≡ None }
    {
        Aside {
            is_any: false,
            slots: [
                Slot::new(),
                Slot::new(),
                Slot::new(),
                Slot::new(),
                Slot::new(),
                Slot::new(),
                Slot::new(),
                Slot::new(),
            ],
        }
    }

    /// Sets a command of an agent of a board aside.
    pub fn put(&mut self, agent: u32, frame: &Frame, bytes: usize, change: &EffectNumbers)
        requires marked { IsMarked self.old }
        requires agent { IsAgent AGENTS agent }
        requires small { IsSmall frame.now }
        ensures aside { (a : ℕ) → aside_by self.new.slots a ≡ with_aside
            (record { agent = agent; frame = frame.now; bytes = bytes; change = change.now })
            (aside_by self.old.slots) a }
        ensures marked { IsMarked self.new }
    {
        match frame {
            Frame::Good(message) => {
                let slot = &mut self.slots[agent as usize - 1];
                slot.fill(message, bytes, change);
                self.is_any = true;
            }
            Frame::Malformed { .. } => {}
        }
    }

    /// Takes the command of an agent up, which waits from then on, and writes its frame; `None` if
    /// the agent has none set aside, and then nothing changed.
    pub fn take(&mut self, agent: u32, frame: &mut Frame) -> Option<Waiting>
        requires { IsMarked self.old }
        ensures taken { IfSome result (λ waiting.
            asked_by frame.new waiting ≡ aside_by self.old.slots agent) }
        ensures asked { IfSome result (λ waiting. waiting.is_asked ≡ true) }
        ensures aside { result ≢ None → (a : ℕ) → aside_by self.new.slots a
            ≡ without_aside agent (aside_by self.old.slots) a }
        ensures none { (result ≡ None) ↔ (aside_by self.old.slots agent ≡ None) }
        ensures marked { IsMarked self.new }
        ensures kept { result ≡ None → (self.new ≡ self.old) × (frame.new ≡ frame.old) }
    {
        if !self.has(agent) {
            return None;
        }
        let slot = &mut self.slots[agent as usize - 1];
        slot.copy_to(frame);
        slot.is_used = false;
        let waiting = Waiting {
            is_asked: true,
            agent,
            bytes: slot.bytes,
            change: slot.change,
        };
        self.is_any = has_any(&self.slots);
        Some(waiting)
    }

    /// Whether an agent has a command set aside.
    fn has(&self, agent: u32) -> bool
        requires { length self.now.slots ≡ AGENTS }
        ensures agent { result ≡ true → IsAgent AGENTS agent }
        ensures none { (result ≡ false) ↔ (aside_by self.now.slots agent ≡ None) }
    {
        if agent == 0 || agent as usize > AGENTS {
            return false;
        }
        self.slots[agent as usize - 1].is_used
    }

    /// Whether some command that is set aside holds a frame of an agent back.
    pub fn holds_back(&self, agent: u32, frame: &Frame) -> bool
        requires { length self.now.slots ≡ AGENTS }
        ensures { (result ≡ true) ↔ IsHeldBackBy (aside_by self.now.slots) agent frame.now }
    {
        match frame {
            Frame::Good(message) => self.holds_message_back(agent, message),
            Frame::Malformed { .. } => false,
        }
    }

    /// Whether some command that is set aside holds a message of an agent back.
    fn holds_message_back(&self, agent: u32, message: &Message) -> bool
        requires { length self.now.slots ≡ AGENTS }
        ensures { (result ≡ true)
            ↔ IsHeldBackBy (aside_by self.now.slots) agent (Good message.now) }
    {
        for place in 0..AGENTS {
            if self.slots[place].holds_back(place as u32 + 1, agent, message) {
                return true;
            }
        }
        false
    }
}

/// Whether some place holds a command.
fn has_any(slots: &[Slot; AGENTS]) -> bool
    ensures { result ≡ is_any slots.now }
{
    slots.iter().any(|slot| slot.is_used)
}

/// Whether a message might change what becomes of a command with this change.
fn disturbs(message: &Message, change: &EffectNumbers) -> bool
    ensures { result ≡ disturbs message.now change.now }
{
    if is_permission(message.header) {
        return true;
    }
    match set_of(message) {
        Some(resource) => is_change_of(change, resource),
        None => false,
    }
}

/// Whether a message is a base command that changes permissions.
fn is_permission(header: Header) -> bool
    ensures { result ≡ is_permission header }
{
    header.protocol() == BASE_PROTOCOL && matches!(header.id(), 0x9 | 0xa | 0xb)
}

/// The domain or clock that a message sets, by its header and words, if it is a set.
fn set_of(message: &Message) -> Option<Resource>
    ensures { result ≡ set_of message.now }
{
    let words = message.payload.as_slice();
    match (message.header.protocol(), message.header.id()) {
        (POWER_PROTOCOL, 0x4) => Some(Resource::Domain(word_at(words, 1))),
        (CLOCK_PROTOCOL, 0x5) => Some(Resource::Clock(word_at(words, 1))),
        (CLOCK_PROTOCOL, 0x7) => Some(Resource::Clock(word_at(words, 0))),
        _ => None,
    }
}

/// Whether a change is one of this domain or clock.
fn is_change_of(change: &EffectNumbers, resource: Resource) -> bool
    ensures { result ≡ is_change_of change.now resource }
{
    match resource {
        Resource::Domain(domain) => change.kind == STATE && change.id == domain,
        Resource::Clock(clock) => change.kind != STATE && change.id == clock,
    }
}

/// A word, 0 if there is none.
fn word_at(words: &[u32], place: usize) -> u32
    ensures { result ≡ slice_index words.now place }
{
    match words.get(place) {
        Some(word) => *word,
        None => 0,
    }
}
