//! The replies to the commands of discovery, which change nothing.
ghost use Rattle.std.specs.Prelude.{◌≡◌, ◌≤◌, ◌<◌, ◌+◌, ◌-◌, ◌*◌, ◌∷◌, [], length};
ghost use Rattle.scmi_base.specs.BaseReply.{message_reply, packed_words, protocols_reply, agent_reply, agent_name};
ghost use Rattle.scmi_codec.specs.Name.{name_words};

use scmi_codec::{
    BASE_PROTOCOL, BASE_VERSION, Name, Payload, SUCCESS, Status, four_words, is_listed, name_words,
    set_payload, set_refusal,
};
use scmi_plan::Plan;

/// The agent id by which a caller asks for itself.
const THE_CALLER: u32 = 0xffff_ffff;

/// The agent id of the platform.
const PLATFORM: u32 = 0;

/// The platform's name, `platform`, as the words of a reply.
const PLATFORM_NAME: [u32; 4] = [0x7461_6c70, 0x6d72_6f66, 0, 0];

/// 0x0: the version.
pub(crate) fn version(reply: &mut Payload)
    ensures { reply.new.items ≡ 0 ∷ 0x00020000 ∷ [] }
{
    set_payload(reply, &[SUCCESS, BASE_VERSION]);
}

/// 0x1: the number of agents in bits [15:8], the platform not counted (own), and the number of
/// protocols in [7:0].
pub(crate) fn attributes(plan: &Plan, reply: &mut Payload)
    ensures { reply.new.items
        ≡ 0 ∷ (length plan.now.agents * 0x100 + length plan.now.protocols) ∷ [] }
{
    set_payload(
        reply,
        &[
            SUCCESS,
            plan.agents() * 0x100 + plan.protocols().len() as u32,
        ],
    );
}

/// 0x2: no attributes; NOT_FOUND for an id that the protocol lacks.
pub(crate) fn message_attributes(message: u32, reply: &mut Payload)
    ensures { reply.new.items ≡ message_reply message }
{
    if is_listed(BASE_PROTOCOL, message) {
        set_payload(reply, &[SUCCESS, 0]);
    } else {
        set_refusal(reply, Status::NotFound);
    }
}

/// 0x3 and 0x4: a name.
pub(crate) fn set_name(name: &Name, reply: &mut Payload)
    ensures { reply.new.items ≡ 0 ∷ name_words name.now }
{
    let [a, b, c, d] = name_words(name);
    set_payload(reply, &[SUCCESS, a, b, c, d]);
}

/// 0x5: the version of the implementation.
pub(crate) fn implementation(plan: &Plan, reply: &mut Payload)
    ensures { reply.new.items ≡ 0 ∷ plan.now.version ∷ [] }
{
    set_payload(reply, &[SUCCESS, plan.version()]);
}

/// 0x6: the number of protocols after the first `skip`, and their ids, four to a word;
/// INVALID_PARAMETERS if there are fewer to skip.
pub(crate) fn protocols(plan: &Plan, skip: u32, reply: &mut Payload)
    ensures { reply.new.items ≡ protocols_reply plan.now.protocols skip }
{
    let Some(listed) = plan.protocols().get(skip as usize..) else {
        set_refusal(reply, Status::InvalidParameters);
        return;
    };
    set_ids(listed, reply);
}

/// The number of ids and the ids, at most sixteen, four to a word.
#[tactic(auto, using(crate::proofs::Ids::behind_two))]
fn set_ids(ids: &[u8], reply: &mut Payload)
    requires { length ids.now ≤ 16 }
    ensures { reply.new.items ≡ 0 ∷ length ids.now ∷ packed_words ids.now }
{
    let [a, b, c, d] = four_words(ids);
    let words = [SUCCESS, ids.len() as u32, a, b, c, d];
    let count = (ids.len() + 3) / 4;
    set_payload(reply, &words[..2 + count]);
}

/// 0x7: the id and name of an agent, of the platform, or of the caller if it asks for itself (own);
/// NOT_FOUND for another id.
pub(crate) fn agent_of(plan: &Plan, caller: u32, asked: u32, reply: &mut Payload)
    ensures { reply.new.items ≡ agent_reply plan.now caller asked }
{
    let agent = if asked == THE_CALLER { caller } else { asked };
    if agent > plan.agents() {
        set_refusal(reply, Status::NotFound);
        return;
    }
    let [a, b, c, d] = agent_name(plan, agent);
    set_payload(reply, &[SUCCESS, agent, a, b, c, d]);
}

/// The name of an agent or of the platform, as the words of a reply.
fn agent_name(plan: &Plan, agent: u32) -> [u32; 4]
    requires { agent ≤ length plan.now.agents }
    ensures { result ≡ name_words (agent_name plan.now agent) }
{
    if agent == PLATFORM {
        PLATFORM_NAME
    } else {
        name_words(plan.agent(agent))
    }
}
