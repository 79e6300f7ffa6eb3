//! Sets that are accepted and not yet complete.
ghost use Rattle.std.specs.Prelude.{◌≡◌, ◌↔◌, true};
ghost use Rattle.scmi_core.specs.Commands.{setting_effect};
ghost use Rattle.scmi_core.specs.Pending.{is_set_by, setting_with};

use scmi_codec::Header;
use scmi_plan::{Effect, Resource};

/// What a set changes: a domain and its state, as the word that a reply has, or a clock and its rate
/// in Hz.
#[derive(Clone, Copy, PartialEq, Eq, Debug)]
pub enum Setting {
    State(u32, u32),
    Rate(u32, u64),
}

impl Setting {
    /// Whether another setting is the same.
    fn is_same(self, other: Setting) -> bool
        ensures { (result ≡ true) ↔ (self ≡ other) }
    {
        match (self, other) {
            (Setting::State(domain, state), Setting::State(its, value)) => {
                domain == its && state == value
            }
            (Setting::Rate(clock, rate), Setting::Rate(its, value)) => {
                clock == its && rate == value
            }
            _ => false,
        }
    }

    /// Whether this is a setting of a domain or clock.
    pub fn is_of(self, resource: Resource) -> bool
        ensures { result ≡ is_set_by resource self }
    {
        match (resource, self) {
            (Resource::Domain(domain), Setting::State(number, _)) => domain == number,
            (Resource::Clock(clock), Setting::Rate(number, _)) => clock == number,
            _ => false,
        }
    }

    /// The setting with another rate, if it is one of this clock.
    pub fn with_rate(self, clock: u32, rate: u64) -> Setting
        ensures { result ≡ setting_with clock rate self }
    {
        match self {
            Setting::State(..) => self,
            Setting::Rate(number, asked) => {
                Setting::Rate(number, if clock == number { rate } else { asked })
            }
        }
    }
}

/// A set that an agent asked for and that was accepted for later.
#[derive(Clone, Copy, PartialEq, Eq, Debug)]
pub struct PendingSet {
    pub agent: u32,
    pub setting: Setting,
    /// The header of the command.
    pub header: Header,
    /// Whether a delayed response is wanted.
    pub wanted: bool,
}

impl PendingSet {
    /// Whether another set is the same.
    pub fn is_same(&self, other: &PendingSet) -> bool
        ensures { (result ≡ true) ↔ (self.now ≡ other.now) }
    {
        self.agent == other.agent
            && self.setting.is_same(other.setting)
            && self.header == other.header
            && self.wanted == other.wanted
    }

    /// What the set changes of the hardware when it completes.
    pub fn effect(&self) -> Effect
        ensures { result ≡ setting_effect self.now.setting }
    {
        match self.setting {
            Setting::State(domain, state) => Effect::State { domain, state },
            Setting::Rate(clock, rate) => Effect::Rate { clock, rate },
        }
    }
}

// The vector of pending sets holds this in its unused places.
impl Default for PendingSet {
    fn default() -> PendingSet {
        PendingSet {
            agent: 0,
            setting: Setting::State(0, 0),
            header: Header::default(),
            wanted: false,
        }
    }
}
