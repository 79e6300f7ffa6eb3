//! The platform's answer to one agent, beside the hardware.
ghost use Rattle.std.specs.Prelude.{◌≡◌, ◌<◌, false, length};
ghost use Rattle.scmi_plan.specs.Agent.{IsAgent};
ghost use Rattle.scmi_core.specs.Legal.{IsLegal};
ghost use Rattle.scmi_ends.specs.Serve.{ServesOne};
ghost use Rattle.scmi_ends.specs.ServeOn.{ServesOneOn};

use crate::buffers::Buffers;
use crate::serve::answer_malformed;
use scmi_core::{Answered, Core, Hardware};
use scmi_link::{Channel, Served};

// As `serve_one`, beside the hardware: what the command changes of it is made first.
pub(crate) fn serve_one_on<C: Channel, H: Hardware>(
    core: &mut Core,
    hardware: &mut H,
    a2p: &C,
    callee: &mut C::Callee,
    agent: u32,
    buffers: &mut Buffers,
) -> Served
    requires identity { C.callee_identity callee.old ≡ C.identity a2p.now }
    requires room { 0 < core.old.room }
    requires agent { IsAgent (length core.old.board.agents) agent }
    requires legal { IsLegal core.old.board core.old.history }
    ensures identity { C.callee_identity callee.new ≡ C.callee_identity callee.old }
    ensures board { core.new.board ≡ core.old.board }
    ensures legal { IsLegal core.new.board core.new.history }
    ensures step { ServesOneOn core.old.board agent
        core.old.history (H.asked hardware.old) (C.callee_view callee.old) result
        core.new.history (H.asked hardware.new) (C.callee_view callee.new) }
    ensures obeyed { H.REFUSES ≡ false → ServesOne core.old.board agent core.old.history
        (C.callee_view callee.old) result core.new.history (C.callee_view callee.new) }
{
    if !a2p.take_into(callee, &mut buffers.frame) {
        return Served::Nothing;
    }
    match core.execute_on(hardware, agent, &buffers.frame, &mut buffers.reply) {
        Answered::Reply => a2p.reply(callee, &buffers.reply),
        Answered::ChannelError => answer_malformed(a2p, callee),
    }
    Served::Done
}
