//! The replies to the commands that only read, which are open to each agent.
ghost use Rattle.std.specs.Prelude.{◌≡◌, ◌<◌, ◌≤◌, ◌^◌, ◌+◌, ◌*◌, ◌∷◌, [], length, false, true};
ghost use Rattle.scmi_base.specs.Permission.{Permissions};
ghost use Rattle.scmi_plan.specs.Agent.{IsAgent};
ghost use Rattle.scmi_plan.specs.Board.{IsChannel, whole_channel};
ghost use Rattle.scmi_plan.specs.Rates.{HasValidRates, rates_of};
ghost use Rattle.scmi_plan.specs.Rates as supported;
ghost use Rattle.scmi_plan.specs.declared.limits.TheConstants.{RATES};
ghost use Rattle.scmi_plan.specs.declared.load.Load.{Load};
ghost use Rattle.scmi_clock.specs.ClockReply.{attributes_reply, most_rates, message_reply, clock_attributes_reply, describe_reply, rate_reply, past_end, rates_words, rates_word};
ghost use Rattle.scmi_clock.specs.ClockTable.{only_reads, rate_at, enabled_at, reply_to};

use crate::checks::{check_clock, check_index};
use crate::clock_state::ClockState;
use arrayvec::ArrayVec;
use scmi_codec::{
    CLOCK_PROTOCOL, CLOCK_VERSION, ClockCommand, Payload, SUCCESS, Status, is_listed, name_words,
    rate_words, resize, set_payload, set_refusal,
};
use scmi_plan::{AgentChannel, Plan, Rates};

/// The flags word of a triplet: bit 12, and three rates.
const TRIPLET: u32 = 0x1003;

/// The reply to a command that only reads, of a caller.
#[tactic(auto, unfolding(crate::specs::ClockReply::clock_reply))]
pub(crate) fn read(
    plan: &Plan,
    state: &ClockState,
    caller: u32,
    command: ClockCommand,
    reply: &mut Payload,
)
    requires caller { IsAgent (length plan.now.agents) caller }
    requires read { only_reads command ≡ true }
    ensures { (permissions : Permissions) → (load : Load) → reply.new.items
        ≡ reply_to plan.now permissions state.now load caller command }
{
    match command {
        ClockCommand::Version => version(reply),
        ClockCommand::Attributes => attributes(plan, plan.channel(caller), reply),
        ClockCommand::MessageAttributes { message } => message_attributes(message, reply),
        ClockCommand::ClockAttributes { clock } => clock_attributes(plan, state, clock, reply),
        ClockCommand::Describe { clock, index } => {
            describe(plan, plan.channel(caller), clock, index, reply);
        }
        ClockCommand::GetRate { clock } => current_rate(plan, state, clock, reply),
        ClockCommand::SetRate { .. } | ClockCommand::Config { .. } => {}
    }
}

/// 0x0: the version.
fn version(reply: &mut Payload)
    ensures { reply.new.items ≡ 0 ∷ 0x00010000 ∷ [] }
{
    set_payload(reply, &[SUCCESS, CLOCK_VERSION]);
}

/// 0x1: the most pending sets of the caller in bits [23:16], none if the platform can't send to it
/// (own), and the number of clocks in [15:0].
fn attributes(plan: &Plan, channel: AgentChannel, reply: &mut Payload)
    requires { IsChannel channel }
    ensures { reply.new.items ≡ attributes_reply plan.now channel }
{
    let announced = if channel.one_way { 0 } else { channel.share };
    set_payload(reply, &[SUCCESS, announced * 0x1_0000 + plan.clocks()]);
}

/// 0x2: no attributes; NOT_FOUND for an id that the protocol lacks.
fn message_attributes(message: u32, reply: &mut Payload)
    ensures { reply.new.items ≡ message_reply message }
{
    if is_listed(CLOCK_PROTOCOL, message) {
        set_payload(reply, &[SUCCESS, 0]);
    } else {
        set_refusal(reply, Status::NotFound);
    }
}

/// 0x3: in bit 0 whether the clock is enabled, and its name.
fn clock_attributes(plan: &Plan, state: &ClockState, clock: u32, reply: &mut Payload)
    ensures { reply.new.items ≡ clock_attributes_reply plan.now (enabled_at state.now clock) clock }
{
    if let Err(status) = check_clock(plan, clock) {
        set_refusal(reply, status);
        return;
    }
    let [a, b, c, d] = name_words(&plan.clock(clock).name);
    set_payload(
        reply,
        &[SUCCESS, u32::from(state.enabled(clock)), a, b, c, d],
    );
}

/// 0x4: the rates of a list from an index on, as many as the channel has room for, or a triplet
/// whatever the index (own).
fn describe(plan: &Plan, channel: AgentChannel, clock: u32, index: u32, reply: &mut Payload)
    requires { IsChannel channel }
    ensures { reply.new.items ≡ describe_reply plan.now channel clock index }
{
    if let Err(status) = check_clock(plan, clock) {
        set_refusal(reply, status);
        return;
    }
    let rates = &plan.clock(clock).rates;
    if let Err(status) = check_index(rates, index) {
        set_refusal(reply, status);
        return;
    }
    set_rates(channel, rates, index, reply);
}

/// 0x6: the rate.
fn current_rate(plan: &Plan, state: &ClockState, clock: u32, reply: &mut Payload)
    ensures { reply.new.items ≡ rate_reply plan.now (rate_at state.now clock) clock }
{
    if let Err(status) = check_clock(plan, clock) {
        set_refusal(reply, status);
        return;
    }
    let [low, high] = rate_words(state.rate(clock));
    set_payload(reply, &[SUCCESS, low, high]);
}

fn set_rates(channel: AgentChannel, rates: &Rates, index: u32, reply: &mut Payload)
    requires channel { IsChannel channel }
    requires valid { HasValidRates (rates_of rates.now) }
    requires index { past_end (rates_of rates.now) index ≡ false }
    ensures { reply.new.items ≡ 0 ∷ rates_words channel (rates_of rates.now) index }
{
    match rates {
        Rates::List(list) => set_rate_list(channel, list.as_slice(), index as usize, reply),
        Rates::Steps { low, high, step } => set_triplet(*low, *high, *step, reply),
    }
}

/// As many rates from an index on as the channel has room for, and how many remain.
fn set_rate_list(channel: AgentChannel, list: &[u64], index: usize, reply: &mut Payload)
    requires channel { IsChannel channel }
    requires few { length list.now ≤ RATES }
    requires index { index < length list.now }
    ensures { reply.new.items ≡ 0 ∷ rates_words channel (supported.list list.now) index }
{
    let left = list.len() - index;
    let count = left.min(most_rates(channel));
    resize(reply, 2 + 2 * count);
    let words = reply.as_mut_slice();
    words[0] = SUCCESS;
    words[1] = rates_word(left - count, count);
    let mut size = 2;
    let returned = &list[index..index + count];
    for rate in returned {
        let [low, high] = rate_words(*rate);
        words[size] = low;
        words[size + 1] = high;
        size += 2;
    }
}

/// The most rates of one reply: two words each, after the status and the flags word.
fn most_rates(channel: AgentChannel) -> usize
    requires { IsChannel channel }
    ensures rates { result ≡ most_rates channel }
    ensures few { 2 + 2 * result ≤ channel.words }
{
    (channel.words as usize - 2) / 2
}

/// The flags word of a list: rates that remain in bits [31:16], rates returned in [11:0].
fn rates_word(remaining: usize, returned: usize) -> u32
    requires remaining { remaining < 2 ^ 16 }
    requires returned { returned < 2 ^ 12 }
    ensures { result ≡ rates_word remaining returned }
{
    (remaining as u32) << 16 | returned as u32
}

fn set_triplet(low: u64, high: u64, step: u64, reply: &mut Payload)
    ensures { reply.new.items ≡ 0 ∷ rates_words whole_channel (supported.steps low high step) 0 }
{
    let [a, b] = rate_words(low);
    let [c, d] = rate_words(high);
    let [e, f] = rate_words(step);
    set_payload(reply, &[SUCCESS, TRIPLET, a, b, c, d, e, f]);
}
