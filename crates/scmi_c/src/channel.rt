//! The channels of agents.
ghost use Rattle.std.specs.Prelude.{◌≡◌, ◌≢◌, ◌↔◌, ◌⊎◌, ◌≤◌, None, IsSomeAnd, IfOk, IfErr, OnOk, Err, List, length, true};
ghost use Rattle.scmi_codec.specs.ChannelArea.{channel_words, is_channel_size};
ghost use Rattle.scmi_plan.specs.Agent.{IsAgent};
ghost use Rattle.scmi_plan.specs.Board.{IsChannel, channel_of};
ghost use Rattle.scmi_plan.specs.Plan.{IsValid};
ghost use Rattle.scmi_c.specs.Channel.{HasAnotherSize, HasSize, numbers_of_channel};
ghost use Rattle.scmi_c.specs.Standing.{LacksAgent, board_of};
ghost use Rattle.scmi_c.specs.declared.code.TheConstants.{DONE, NO_AGENT, NO_PLATFORM};

use crate::code::{DONE, NO_PLATFORM, code};
use crate::handle::Handle;
use crate::held::Held;
use crate::refusal::Refusal;
use scmi_codec::channel_bytes;
use scmi_plan::AgentChannel;
use std::alloc::Global;

/// An agent's channels: the bytes of an area, and 1 if the platform can't send to the agent, else
/// 0.
#[repr(C)]
#[derive(Clone, Copy)]
pub struct ChannelNumbers {
    pub bytes: u32,
    pub one_way: u32,
}

impl Held {
    /// What an agent's channels are. `NoAgent` if the board lacks the agent.
    pub fn channel(&self, agent: u32) -> Result<AgentChannel, Refusal>
        ensures channel { IfOk result (λ channel. channel ≡ channel_of (board_of self.now) agent) }
        ensures agent { OnOk result (IsAgent (length (board_of self.now).agents) agent) }
        ensures words { IfOk result IsChannel }
        ensures valid { IsValid (board_of self.now) }
        ensures no_agent { (result ≡ Err Refusal.NoAgent) ↔ LacksAgent agent self.now }
        ensures errors { IfErr result (λ e. e ≡ Refusal.NoAgent) }
    {
        self.check_agent(agent)?;
        Ok(self.platform.board().channel(agent))
    }

    /// What an agent's channels are, as numbers for C. `NoAgent` if the board lacks the agent.
    fn channel_numbers(&self, agent: u32) -> Result<ChannelNumbers, Refusal>
        ensures ok { IfOk result (λ numbers.
            numbers ≡ numbers_of_channel (channel_of (board_of self.now) agent)) }
        ensures no_agent { (result ≡ Err Refusal.NoAgent) ↔ LacksAgent agent self.now }
        ensures errors { IfErr result (λ e. e ≡ Refusal.NoAgent) }
    {
        let channel = self.channel(agent)?;
        Ok(ChannelNumbers {
            bytes: channel_bytes(channel.words as usize) as u32,
            one_way: u32::from(channel.one_way),
        })
    }

    /// Refuses a number that is no agent's, and a number of bytes that is not the size of an area
    /// of the agent's channel.
    #[tactic(auto, using(crate::proofs::Areas::size_of_words, crate::proofs::Areas::words_of_size))]
    pub fn check_size(&self, agent: u32, bytes: usize) -> Result<(), Refusal>
        ensures ok { OnOk result (HasSize agent bytes self.now) }
        ensures size { OnOk result (is_channel_size bytes ≡ true) }
        ensures words { OnOk result
            (channel_words bytes ≡ (channel_of (board_of self.now) agent).words) }
        ensures valid { IsValid (board_of self.now) }
        ensures no_agent { (result ≡ Err Refusal.NoAgent) ↔ LacksAgent agent self.now }
        ensures wrong_size { (result ≡ Err Refusal.WrongSize)
            ↔ HasAnotherSize agent bytes self.now }
        ensures errors { IfErr result (λ e. (e ≡ Refusal.NoAgent) ⊎ (e ≡ Refusal.WrongSize)) }
    {
        let words = self.channel(agent)?.words;
        if bytes == channel_bytes(words as usize) {
            Ok(())
        } else {
            Err(Refusal::WrongSize)
        }
    }
}

/// Gives what an agent's channels are: the size of its areas, and whether the platform can't send to it.
/// `DONE`; `NO_PLATFORM`; `NO_AGENT`. The platform is as it was.
#[unsafe(no_mangle)]
pub extern "C" fn scmi_channel(
    alloc: Global,
    platform: &mut Handle,
    agent: u32,
    channel: &mut ChannelNumbers,
) -> u32
    ensures done { result ≡ DONE →
        IsSomeAnd platform.old.value (λ p.
        channel.new ≡ numbers_of_channel (channel_of (board_of p.held) agent)) }
    ensures platform { platform.new.value ≡ platform.old.value }
    ensures no_platform { (result ≡ NO_PLATFORM) ↔ (platform.old.value ≡ None) }
    ensures no_agent { (result ≡ NO_AGENT)
        ↔ IsSomeAnd platform.old.value (λ p. LacksAgent agent p.held) }
    ensures errors { (result ≡ DONE) ⊎ (result ≡ NO_AGENT) ⊎ (result ≡ NO_PLATFORM) }
    ensures kept { result ≢ DONE → channel.new ≡ channel.old }
{
    let Some(desk) = platform.take(alloc) else {
        return NO_PLATFORM;
    };
    let given = desk.held.channel_numbers(agent);
    platform.put(desk);
    match given {
        Ok(numbers) => {
            *channel = numbers;
            DONE
        }
        Err(refusal) => code(Err(refusal)),
    }
}
