//! The platform's messages to one agent.
ghost use Rattle.std.specs.Prelude.{◌≡◌, ◌<◌, length};
ghost use Rattle.scmi_plan.specs.Agent.{IsAgent};
ghost use Rattle.scmi_core.specs.Legal.{IsLegal};
ghost use Rattle.scmi_ends.specs.Flush.{CollectsAndFlushes};

use crate::buffers::Buffers;
use scmi_core::Core;
use scmi_link::{Channel, Flushed, PostError};

// Collects on P2A into `buffers`, and then posts the first message of the agent's outbox, once. The
// trace has room for it.
#[tactic(auto, using(crate::proofs::Places::nothing_first))]
pub(crate) fn flush_one<C: Channel>(
    core: &mut Core,
    p2a: &C,
    caller: &mut C::Caller,
    agent: u32,
    buffers: &mut Buffers,
) -> Flushed
    requires identity { C.caller_identity caller.old ≡ C.identity p2a.now }
    requires room { 0 < core.old.room }
    requires agent { IsAgent (length core.old.board.agents) agent }
    requires legal { IsLegal core.old.board core.old.history }
    ensures identity { C.caller_identity caller.new ≡ C.caller_identity caller.old }
    ensures board { core.new.board ≡ core.old.board }
    ensures legal { IsLegal core.new.board core.new.history }
    ensures step { CollectsAndFlushes C.FULL core.old.board agent core.old.history
        (C.caller_view caller.old) result core.new.history (C.caller_view caller.new) }
{
    let _ = p2a.collect_into(caller, &mut buffers.release);
    if C::outstanding(caller) {
        return Flushed::Waiting;
    }
    let Some(first) = core.first(agent) else {
        return Flushed::Nothing;
    };
    first.copy_to(&mut buffers.reply);
    match p2a.post(caller, &buffers.reply) {
        Ok(()) => {
            core.mark_sent(agent);
            Flushed::Posted
        }
        Err(PostError::Closed) => Flushed::Closed,
        // `Full`: nothing is outstanding, and a message is well formed.
        Err(_) => Flushed::Waiting,
    }
}
