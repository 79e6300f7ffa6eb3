//! The sets that are pending.
ghost use Rattle.std.specs.Prelude.{◌&&◌, ◌≡◌, ◌≤◌, ◌<◌, ◌==◌, ◌||◌, ◌++◌, ◌∷◌, [], ◌↔◌, ℕ, Some, true, false, length, drop, map, nat_lt, slice_get};
ghost use Rattle.std.specs.Int.{bit_at};
ghost use Rattle.scmi_plan.specs.declared.limits.TheConstants.{PENDING_SETS};
ghost use Rattle.scmi_plan.specs.declared.resource.Resource.TheVariants as resource;
ghost use Rattle.scmi_plan.specs.declared.limits.TheConstants.{CLOCKS, DOMAINS};
ghost use Rattle.scmi_plan.specs.declared.mask.TheConstants.{MASK_BITS};
ghost use Rattle.scmi_core.specs.Pending.{has_room_beside, has_set_of, load_beside, promoted, sets_by, settled, unwanted};
ghost use Rattle.scmi_core.specs.declared.outboxes.TheConstants.{OUTBOX_ROOM};

use crate::outboxes::OUTBOX_ROOM;
use crate::pending_set::{PendingSet, Setting};
use arrayvec::ArrayVec;
use scmi_plan::{Load, MASK_BITS, PENDING_SETS, Resource, with_bit};
use std::marker::Model;

/// The sets that were accepted for later and are not complete, at most `PENDING_SETS`, in the order
/// in which they complete: that of acceptance, but for those that were promoted.
#[derive(Drop, Debug)]
pub struct Pending {
    sets: ArrayVec<PendingSet, PENDING_SETS>,
}

impl Model for Pending {
    ghost use Rattle.std.specs.Prelude.{List, length, ◌≤◌};
    ghost use Rattle.scmi_plan.specs.declared.limits.TheConstants.{PENDING_SETS};
    ghost use Rattle.scmi_core.specs.declared.pending_set.PendingSet.{PendingSet};

    ghost Value = { List PendingSet };

    ghost view = { λ p. p.sets.items };

    ghost invariant = { λ p. length p.sets.items ≤ PENDING_SETS };
}

impl Pending {
    /// No sets.
    pub fn new() -> Pending
        ensures { result ≡ [] }
    {
        Pending {
            sets: ArrayVec::new(),
        }
    }

    /// Whether no set is pending.
    pub fn is_empty(&self) -> bool
        ensures empty { (result ≡ true) ↔ (self.now ≡ []) }
        ensures some { result ≡ false → 0 < length self.now }
    {
        self.sets.is_empty()
    }

    /// How many sets are pending.
    pub fn len(&self) -> usize
        ensures count { result ≡ length self.now }
        ensures few { result ≤ PENDING_SETS }
    {
        self.sets.len()
    }

    /// Adds a set after the others.
    pub fn push(&mut self, set: PendingSet)
        requires { length self.old < PENDING_SETS }
        ensures { self.new ≡ self.old ++ set ∷ [] }
    {
        self.sets.push(set);
    }

    /// Takes the first set off.
    pub fn pop_first(&mut self) -> PendingSet
        requires { 0 < length self.old }
        ensures first { slice_get self.old 0 ≡ Some result }
        ensures rest { self.new ≡ drop 1 self.old }
    {
        let sets = self.sets.as_mut_slice();
        let first = sets[0];
        // `remove` rotates the rest, which takes some 4 KB of code.
        sets.copy_within(1.., 0);
        let _last = self.sets.pop();
        first
    }

    /// Puts the set at a place, counted from 0, before the others, which stay in order.
    pub fn promote(&mut self, place: usize)
        requires { place < length self.old }
        ensures { self.new ≡ promoted place self.old }
    {
        let sets = self.sets.as_mut_slice();
        let set = sets[place];
        // A `rotate_right` would do, and takes more code.
        sets.copy_within(..place, 1);
        sets[0] = set;
    }

    /// Gives each set of a clock this rate.
    pub fn settle(&mut self, clock: u32, rate: u64)
        ensures { self.new ≡ map (settled clock rate) self.old }
    {
        let sets = self.sets.as_mut_slice();
        for set in sets.iter_mut() {
            set.setting = set.setting.with_rate(clock, rate);
        }
    }

    /// Becomes the same as others.
    pub fn copy_from(&mut self, other: &Pending)
        ensures { self.new ≡ other.now }
    {
        self.sets.clear();
        // There is room for all of another.
        let _ = self.sets.try_extend_from_slice(other.sets.as_slice());
    }

    /// Whether others are the same.
    pub fn is_same(&self, other: &Pending) -> bool
        ensures { (result ≡ true) ↔ (self.now ≡ other.now) }
    {
        let (mine, its) = (self.sets.as_slice(), other.sets.as_slice());
        if mine.len() != its.len() {
            return false;
        }
        'sets: for index in 0..mine.len() {
            if !mine[index].is_same(&its[index]) {
                return false;
            }
        }
        true
    }

    /// Takes back an agent's wish for delayed responses to its sets.
    pub fn forget_wishes(&mut self, agent: u32)
        ensures { self.new ≡ map (unwanted agent) self.old }
    {
        let sets = self.sets.as_mut_slice();
        for set in sets.iter_mut() {
            set.wanted &= set.agent != agent;
        }
    }

    /// The first set.
    pub fn first(&self) -> Option<PendingSet>
        ensures { result ≡ slice_get self.now 0 }
    {
        self.sets.as_slice().first().copied()
    }

    /// The sets, in the order in which they complete.
    pub fn as_slice(&self) -> &[PendingSet]
        ensures { result.now ≡ self.now }
    {
        self.sets.as_slice()
    }

    /// Whether a domain or clock has a pending set.
    pub fn is_pending(&self, resource: Resource) -> bool
        ensures { result ≡ has_set_of resource self.now }
    {
        self.sets
            .as_slice()
            .iter()
            .any(|set| set.setting.is_of(resource))
    }

    /// The load that a power command of an agent meets whose outbox has `waiting` messages, and of
    /// whose sets `share` may be pending.
    pub fn domain_load(&self, share: u32, agent: u32, waiting: usize) -> Load
        requires { waiting ≤ OUTBOX_ROOM }
        ensures busy { (d : ℕ) → d < DOMAINS
            → (bit_at result.busy d == 1) ≡ has_set_of (resource.Domain d) self.now }
        ensures room { result.room ≡ has_room_beside share waiting agent self.now }
    {
        if self.is_empty() {
            return idle_load(share, waiting);
        }
        self.busy_domain_load(share, agent, waiting)
    }

    /// The load that a clock command of an agent meets whose outbox has `waiting` messages, and of
    /// whose sets `share` may be pending.
    pub fn clock_load(&self, share: u32, agent: u32, waiting: usize) -> Load
        requires { waiting ≤ OUTBOX_ROOM }
        ensures busy { (c : ℕ) → c < CLOCKS
            → (bit_at result.busy c == 1) ≡ has_set_of (resource.Clock c) self.now }
        ensures room { result.room ≡ has_room_beside share waiting agent self.now }
    {
        if self.is_empty() {
            return idle_load(share, waiting);
        }
        self.busy_clock_load(share, agent, waiting)
    }

    /// As `domain_load`, where some set is pending.
    #[inline(never)]
    fn busy_domain_load(&self, share: u32, agent: u32, waiting: usize) -> Load
        requires { waiting ≤ OUTBOX_ROOM }
        ensures busy { (d : ℕ) → d < DOMAINS
            → (bit_at result.busy d == 1) ≡ has_set_of (resource.Domain d) self.now }
        ensures room { result.room ≡ has_room_beside share waiting agent self.now }
    {
        Load {
            busy: self.busy_domains(),
            room: self.has_room(share, agent, waiting),
        }
    }

    /// As `clock_load`, where some set is pending.
    #[inline(never)]
    fn busy_clock_load(&self, share: u32, agent: u32, waiting: usize) -> Load
        requires { waiting ≤ OUTBOX_ROOM }
        ensures busy { (c : ℕ) → c < CLOCKS
            → (bit_at result.busy c == 1) ≡ has_set_of (resource.Clock c) self.now }
        ensures room { result.room ≡ has_room_beside share waiting agent self.now }
    {
        Load {
            busy: self.busy_clocks(),
            room: self.has_room(share, agent, waiting),
        }
    }

    /// The number of an agent's pending sets and of the messages that wait in its outbox.
    pub fn load(&self, agent: u32, waiting: usize) -> usize
        requires { waiting ≤ OUTBOX_ROOM }
        ensures { result ≡ load_beside waiting agent self.now }
    {
        waiting + self.count_of(agent)
    }

    /// Whether another set of an agent has room.
    fn has_room(&self, share: u32, agent: u32, waiting: usize) -> bool
        requires { waiting ≤ OUTBOX_ROOM }
        ensures { result ≡ has_room_beside share waiting agent self.now }
    {
        let own = self.count_of(agent);
        self.sets.len() < PENDING_SETS && own < share as usize && waiting + own < OUTBOX_ROOM
    }

    /// How many of the sets are an agent's.
    fn count_of(&self, agent: u32) -> usize
        ensures count { result ≡ length (sets_by agent self.now) }
        ensures few { result ≤ PENDING_SETS }
    {
        let sets = self.sets.as_slice();
        let mut count = 0;
        for set in sets {
            if set.agent == agent {
                count += 1;
            }
        }
        count
    }

    /// Which domains have a pending set, a bit for each.
    fn busy_domains(&self) -> u32
        ensures { (d : ℕ) → d < DOMAINS
            → (bit_at result d == 1) ≡ has_set_of (resource.Domain d) self.now }
    {
        let sets = self.sets.as_slice();
        let mut busy = 0;
        for set in sets {
            match set.setting {
                Setting::State(domain, _) => busy = mark(busy, domain),
                Setting::Rate(_, _) => {}
            }
        }
        busy
    }

    /// Which clocks have a pending set, a bit for each.
    fn busy_clocks(&self) -> u32
        ensures { (c : ℕ) → c < CLOCKS
            → (bit_at result c == 1) ≡ has_set_of (resource.Clock c) self.now }
    {
        let sets = self.sets.as_slice();
        let mut busy = 0;
        for set in sets {
            match set.setting {
                Setting::Rate(clock, _) => busy = mark(busy, clock),
                Setting::State(_, _) => {}
            }
        }
        busy
    }
}

/// The load of an agent whose outbox has `waiting` messages, and of whose sets `share` may be
/// pending, if no set is pending.
fn idle_load(share: u32, waiting: usize) -> Load
    ensures busy { result.busy ≡ 0 }
    ensures room { result.room ≡ (nat_lt 0 share && nat_lt waiting OUTBOX_ROOM) }
{
    Load {
        busy: 0,
        room: 0 < share && waiting < OUTBOX_ROOM,
    }
}

/// A mask with one more bit, if it has that bit.
fn mark(busy: u32, number: u32) -> u32
    ensures { (d : ℕ) → d < MASK_BITS
        → (bit_at result d == 1) ≡ ((d == number) || (bit_at busy d == 1)) }
{
    if number < MASK_BITS {
        with_bit(busy, number)
    } else {
        busy
    }
}
