//! The platform's answer to one agent.
ghost use Rattle.std.specs.Prelude.{◌≡◌, ◌<◌, ◌++◌, ◌∷◌, [], length};
ghost use Rattle.scmi_codec.specs.declared.frame.Answer.TheVariants.{ChannelError};
ghost use Rattle.scmi_link.specs.View.{Owes};
ghost use Rattle.scmi_plan.specs.Agent.{IsAgent};
ghost use Rattle.scmi_core.specs.Legal.{IsLegal};
ghost use Rattle.scmi_ends.specs.Serve.{ServesOne};

use crate::buffers::Buffers;
use scmi_codec::Answer;
use scmi_core::{Answered, Core};
use scmi_link::{Channel, Served};

// Takes a command off A2P, executes it and answers it, by way of `buffers`. The trace has room for
// it.
pub(crate) fn serve_one<C: Channel>(
    core: &mut Core,
    a2p: &C,
    callee: &mut C::Callee,
    agent: u32,
    buffers: &mut Buffers,
) -> Served
    requires identity { C.callee_identity callee.old ≡ C.identity a2p.now }
    requires room { 0 < core.old.room }
    requires agent { IsAgent (length core.old.board.agents) agent }
    requires legal { IsLegal core.old.board core.old.history }
    ensures identity { C.callee_identity callee.new ≡ C.callee_identity callee.old }
    ensures board { core.new.board ≡ core.old.board }
    ensures legal { IsLegal core.new.board core.new.history }
    ensures step { ServesOne core.old.board agent core.old.history
        (C.callee_view callee.old) result core.new.history (C.callee_view callee.new) }
{
    if !a2p.take_into(callee, &mut buffers.frame) {
        return Served::Nothing;
    }
    match core.execute(agent, &buffers.frame, &mut buffers.reply) {
        Answered::Reply => a2p.reply(callee, &buffers.reply),
        Answered::ChannelError => answer_malformed(a2p, callee),
    }
    Served::Done
}

// Answers a frame that was malformed. A function clears its locals at its entry, so the answer is
// not one of those of `serve_one`.
#[inline(never)]
pub(crate) fn answer_malformed<C: Channel>(a2p: &C, callee: &mut C::Callee)
    requires identity { C.callee_identity callee.old ≡ C.identity a2p.now }
    requires owes { Owes (C.callee_view callee.old) }
    ensures identity { C.callee_identity callee.new ≡ C.callee_identity callee.old }
    ensures answered { C.callee_view callee.new ≡
        record (C.callee_view callee.old)
        { answered = (C.callee_view callee.old).answered ++ ChannelError ∷ [] } }
{
    a2p.answer(callee, &Answer::ChannelError);
}
