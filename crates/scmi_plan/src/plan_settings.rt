//! What a valid board is told after its check (own).
ghost use Rattle.std.specs.Prelude.{◌≡◌, ◌≢◌, ◌↔◌, ◌<◌, ◌≤◌, ◌-◌, ◌^◌, ◌⊎◌, false, length, Ok, Err, IfErr, OnOk, OnErr};
ghost use Rattle.scmi_codec.specs.declared.payload.TheConstants.{PAYLOAD_WORDS};
ghost use Rattle.scmi_plan.specs.Agent.{IsAgent, IsNoAgent};
ghost use Rattle.scmi_plan.specs.declared.agent_channel.TheConstants.{LEAST_CHANNEL_WORDS};
ghost use Rattle.scmi_plan.specs.declared.limits.TheConstants.{PENDING_SETS, PROTOCOLS};
ghost use Rattle.scmi_plan.specs.Board.{IsChannel, serves, with_protocols, channel_of, with_channel, holds, is_absent, is_free, is_kept, IsOnBoard, IsPossible, with_absent, with_denied, with_free, with_kept};
ghost use Rattle.scmi_plan.specs.PlanError.{rises};
ghost use Rattle.scmi_plan.specs.Protocols.{AreProtocols};

use crate::agent_channel::{AgentChannel, LEAST_CHANNEL_WORDS};
use crate::channel_error::ChannelError;
use crate::clock::Clock;
use crate::denied::Denied;
use crate::device::Device;
use crate::domain::Domain;
use crate::fault::is_within;
use crate::limits::{PENDING_SETS, PROTOCOLS};
use crate::mask::with_bit;
use crate::not_on_board::NotOnBoard;
use crate::own_protocols::{OwnProtocols, lists};
use crate::plan::Plan;
use crate::protocols_error::{ProtocolsError, check_protocols};
use crate::resource::Resource;
use crate::scope::Scope;
use scmi_codec::PAYLOAD_WORDS;

impl Plan {
    /// What an agent's channels are. A plan is made with whole ones: 64 words of payload, both ways,
    /// and all 8 pending sets may be the agent's.
    #[inline(always)]
    pub fn channel(&self, agent: u32) -> AgentChannel
        requires agent { IsAgent (length self.now.agents) agent }
        ensures row { result ≡ channel_of self.now agent }
        ensures valid { IsChannel result }
    {
        self.channels[agent as usize - 1]
    }

    /// Sets what an agent's channels are (own). `NoAgent` if the board lacks the agent, then `Words`
    /// if they have fewer than 8 words of payload or more than 64, then `Share` if fewer than 1 of
    /// the pending sets may be the agent's or more than 8; nothing changed then. It takes no memory.
    pub fn set_channel(&mut self, agent: u32, channel: AgentChannel) -> Result<(), ChannelError>
        ensures ok { OnOk result (self.new ≡ with_channel self.old agent channel) }
        ensures no_agent { (result ≡ Err ChannelError.NoAgent)
            ↔ IsNoAgent (length self.old.agents) agent }
        ensures words { (result ≡ Err ChannelError.Words)
            ↔ (IsAgent (length self.old.agents) agent
            × ((channel.words < LEAST_CHANNEL_WORDS) ⊎ (PAYLOAD_WORDS < channel.words))) }
        ensures share { (result ≡ Err ChannelError.Share)
            ↔ (IsAgent (length self.old.agents) agent × (LEAST_CHANNEL_WORDS ≤ channel.words)
            × (channel.words ≤ PAYLOAD_WORDS)
            × ((channel.share < 1) ⊎ (PENDING_SETS < channel.share))) }
        ensures err { OnErr result (self.new ≡ self.old) }
    {
        if agent == 0 || agent > self.agents() {
            return Err(ChannelError::NoAgent);
        }
        if channel.words < LEAST_CHANNEL_WORDS || channel.words > PAYLOAD_WORDS as u32 {
            return Err(ChannelError::Words);
        }
        if channel.share == 0 || channel.share > PENDING_SETS as u32 {
            return Err(ChannelError::Share);
        }
        let place = agent as usize - 1;
        self.channels[place] = channel;
        Ok(())
    }

    /// Keeps a power domain or clock (own): no agent may switch it off. `Resource`, the only error,
    /// if the board lacks it; nothing changed then. It takes no memory.
    pub fn keep(&mut self, resource: Resource) -> Result<(), NotOnBoard>
        ensures ok { OnOk result (self.new ≡ with_kept self.old resource) }
        ensures on_board { (result ≡ Ok tt) ↔ IsOnBoard self.old resource }
        ensures error { IfErr result (λ e. e ≡ NotOnBoard.Resource) }
        ensures err { OnErr result (self.new ≡ self.old) }
    {
        self.check_on_board(resource)?;
        self.kept.add(resource);
        Ok(())
    }

    /// Whether no agent may switch a domain or clock of the board off.
    pub fn is_kept(&self, resource: Resource) -> bool
        requires { IsOnBoard self.now resource }
        ensures { result ≡ is_kept self.now resource }
    {
        self.kept.holds(resource)
    }

    /// Refuses a domain or clock that the board lacks.
    fn check_on_board(&self, resource: Resource) -> Result<(), NotOnBoard>
        ensures on_board { (result ≡ Ok tt) ↔ IsOnBoard self.now resource }
        ensures error { IfErr result (λ e. e ≡ NotOnBoard.Resource) }
        ensures possible { OnOk result (IsPossible resource) }
    {
        let (number, count) = match resource {
            Resource::Domain(domain) => (domain, self.domains()),
            Resource::Clock(clock) => (clock, self.clocks()),
        };
        if number < count {
            Ok(())
        } else {
            Err(NotOnBoard::Resource)
        }
    }

    /// Denies an agent devices from the start, or a protocol on them (own): bit d of `devices` is for
    /// device d. `Agent` if the board lacks the agent, then `Device` if it lacks one of the devices;
    /// nothing changed then. It takes no memory.
    pub fn deny(&mut self, agent: u32, devices: u32, scope: Scope) -> Result<(), NotOnBoard>
        ensures ok { OnOk result (self.new ≡ with_denied self.old agent devices scope) }
        ensures no_agent { (result ≡ Err NotOnBoard.Agent)
            ↔ IsNoAgent (length self.old.agents) agent }
        ensures no_device { (result ≡ Err NotOnBoard.Device)
            ↔ (IsAgent (length self.old.agents) agent
            × (2 ^ length self.old.devices ≤ devices)) }
        ensures error { IfErr result (λ e. e ≢ NotOnBoard.Resource) }
        ensures err { OnErr result (self.new ≡ self.old) }
    {
        if agent == 0 || agent > self.agents() {
            return Err(NotOnBoard::Agent);
        }
        if !is_within(devices, self.devices.len()) {
            return Err(NotOnBoard::Device);
        }
        self.denied.deny(agent, devices, scope);
        Ok(())
    }

    /// What is denied to each agent from the start.
    pub fn denied(&self) -> &Denied
        ensures { result.now ≡ self.now.denied }
    {
        &self.denied
    }

    /// Says that a power domain or clock is not there, though it has a number (own): it is to every
    /// agent as one that the board lacks. `Resource`, the only error, if the board lacks it; nothing
    /// changed then. It takes no memory.
    pub fn set_absent(&mut self, resource: Resource) -> Result<(), NotOnBoard>
        ensures ok { OnOk result (self.new ≡ with_absent self.old resource) }
        ensures on_board { (result ≡ Ok tt) ↔ IsOnBoard self.old resource }
        ensures error { IfErr result (λ e. e ≡ NotOnBoard.Resource) }
        ensures err { OnErr result (self.new ≡ self.old) }
    {
        self.check_on_board(resource)?;
        self.absent.add(resource);
        Ok(())
    }

    /// Whether a domain or clock of the board is not there.
    pub fn is_absent(&self, resource: Resource) -> bool
        requires { IsOnBoard self.now resource }
        ensures { result ≡ is_absent self.now resource }
    {
        self.absent.holds(resource)
    }

    /// Frees a clock (own): it takes each rate as it is asked for, in Hz, and the hardware says what
    /// came of it. `Resource`, the only error, if the board lacks the clock; nothing changed then.
    /// It takes no memory.
    pub fn set_free(&mut self, clock: u32) -> Result<(), NotOnBoard>
        ensures ok { OnOk result (self.new ≡ with_free self.old clock) }
        ensures on_board { (result ≡ Ok tt) ↔ (clock < length self.old.clocks) }
        ensures error { IfErr result (λ e. e ≡ NotOnBoard.Resource) }
        ensures err { OnErr result (self.new ≡ self.old) }
    {
        self.check_on_board(Resource::Clock(clock))?;
        self.free = with_bit(self.free, clock);
        Ok(())
    }

    /// Whether a clock of the board takes each rate as it is asked for.
    pub fn is_free(&self, clock: u32) -> bool
        requires { clock < length self.now.clocks }
        ensures { result ≡ is_free self.now clock }
    {
        (self.free >> clock) & 1 == 1
    }

    /// Sets the ids of the protocols besides the base protocol (own): a board may lack power domains
    /// (0x11) or clocks (0x14), and have protocols of its firmware. `Count` for more than 16, then
    /// `Order` if they do not rise, then `Base` for one below 0x11; nothing changed then. It takes no
    /// memory.
    pub fn set_protocols(&mut self, ids: &[u8]) -> Result<(), ProtocolsError>
        ensures ok { OnOk result (self.new ≡ with_protocols self.old ids.now) }
        ensures accepted { (result ≡ Ok tt) ↔ AreProtocols ids.now }
        ensures count { (result ≡ Err ProtocolsError.Count) ↔ (PROTOCOLS < length ids.now) }
        ensures order { (result ≡ Err ProtocolsError.Order)
            ↔ ((length ids.now ≤ PROTOCOLS) × (rises ids.now ≡ false)) }
        ensures err { OnErr result (self.new ≡ self.old) }
    {
        check_protocols(ids)?;
        self.protocols.clear();
        let _ = self.protocols.try_extend_from_slice(ids);
        self.own = OwnProtocols::of(ids);
        Ok(())
    }

    /// The ids of the protocols besides the base protocol, rising.
    pub fn protocols(&self) -> &[u8]
        ensures row { result.now ≡ self.now.protocols }
        ensures valid { AreProtocols result.now }
    {
        self.protocols.as_slice()
    }

    /// Whether the board has a protocol besides the base protocol.
    #[inline(always)]
    pub fn serves(&self, protocol: u8) -> bool
        ensures { result ≡ serves self.now protocol }
    {
        lists(self.protocols(), protocol)
    }

    /// Whether the board has the power domain protocol. It is asked of each command.
    #[inline(always)]
    pub fn has_power(&self) -> bool
        ensures { result ≡ serves self.now 0x11 }
    {
        self.own.power
    }

    /// Whether the board has the clock protocol. It is asked of each command.
    #[inline(always)]
    pub fn has_clocks(&self) -> bool
        ensures { result ≡ serves self.now 0x14 }
    {
        self.own.clocks
    }
}
