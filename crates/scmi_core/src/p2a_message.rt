//! The messages of the platform to agents.
ghost use Rattle.std.specs.Prelude.{◌≡◌, ◌≢◌, ◌≤◌, ◌<◌, ◌∷◌, [], ℕ, length};
ghost use Rattle.scmi_plan.specs.Agent.{IsAgent};
ghost use Rattle.scmi_plan.specs.declared.limits.TheConstants.{AGENTS};
ghost use Rattle.scmi_core.specs.Outbox.{failed_response_to, failed_words, state_changed, response_to};
ghost use Rattle.scmi_core.specs.Outboxes.{Gets, HasSameOutbox, outbox_in};
ghost use Rattle.scmi_core.specs.declared.outboxes.TheConstants.{OUTBOX_ROOM};

use crate::outboxes::Outboxes;
use crate::pending_set::Setting;
use scmi_codec::{
    DELAYED_RESPONSE, Fault, Header, Message, NOTIFICATION, POWER_PROTOCOL, SUCCESS, payload_of,
    rate_words,
};

impl Outboxes {
    /// Puts the notification that an agent set a domain to a state into an agent's outbox.
    pub fn put_state_changed(&mut self, agent: u32, causer: u32, domain: u32, state: u32)
        requires agent { IsAgent AGENTS agent }
        requires room { length (outbox_in self.old agent) < OUTBOX_ROOM }
        ensures put { Gets self.old self.new agent (state_changed causer domain state ∷ []) }
        ensures others { (a : ℕ) → 1 ≤ a → a ≢ agent → HasSameOutbox self.old self.new a }
    {
        let header = Header::new(NOTIFICATION, POWER_PROTOCOL, 0, 0);
        self.put(agent, header, &[causer, domain, state]);
    }

    /// Puts the response to a set that is complete into an agent's outbox.
    pub fn put_response(&mut self, agent: u32, header: Header, setting: Setting)
        requires agent { IsAgent AGENTS agent }
        requires room { length (outbox_in self.old agent) < OUTBOX_ROOM }
        ensures put { Gets self.old self.new agent (response_to header setting ∷ []) }
        ensures others { (a : ℕ) → 1 ≤ a → a ≢ agent → HasSameOutbox self.old self.new a }
    {
        let header = delayed_header(header);
        match setting {
            Setting::State(domain, state) => self.put(agent, header, &[SUCCESS, domain, state]),
            Setting::Rate(clock, rate) => {
                let [low, high] = rate_words(rate);
                self.put(agent, header, &[SUCCESS, clock, low, high]);
            }
        }
    }

    /// Puts the response to a set whose change the hardware refused into an agent's outbox.
    pub fn put_failed_response(&mut self, agent: u32, header: Header, fault: Fault)
        requires agent { IsAgent AGENTS agent }
        requires room { length (outbox_in self.old agent) < OUTBOX_ROOM }
        ensures put { Gets self.old self.new agent (failed_response_to header fault ∷ []) }
        ensures others { (a : ℕ) → 1 ≤ a → a ≢ agent → HasSameOutbox self.old self.new a }
    {
        self.put(agent, delayed_header(header), &failed_words(fault));
    }
}

/// The response to a set of this header whose change the hardware refused with this fault.
pub fn failed_response(header: Header, fault: Fault) -> Message
    ensures { result ≡ failed_response_to header fault }
{
    Message {
        header: delayed_header(header),
        payload: payload_of(&failed_words(fault)),
    }
}

/// The payload words of the response to a set whose change the hardware refused: the status of the
/// fault alone.
fn failed_words(fault: Fault) -> [u32; 1]
    ensures { result ≡ failed_words fault }
{
    [fault.status().word()]
}

/// The header of the delayed response to a command of this header.
fn delayed_header(header: Header) -> Header
    ensures { result
        ≡ (record {
          reserved = 0;
          token = header.token;
          protocol = header.protocol;
          kind = 2;
          id = header.id;
        }) }
{
    Header::new(
        DELAYED_RESPONSE,
        header.protocol(),
        header.token(),
        header.id(),
    )
}
