//! An agent waits for a reply.
ghost use Rattle.std.specs.Prelude.{◌≡◌};

use crate::agent_end::AgentEnd;
use crate::link::Link;
use crate::pause::Pause;
use crate::waited::Waited;
use scmi_link::{Channel, Collected};
use std::sync::Wait;

impl<C: Channel> AgentEnd<C> {
    ghost use Rattle.scmi_ends.specs.AgentView.{IsOfLink};
    ghost use Rattle.scmi_ends.specs.Poll.{Looks, Waits};

    /// Collects on A2P until there is an answer or `Closed`, at most `turns` times, and returns how
    /// often it did.
    ///
    /// `Nothing` if each of `turns` polls gave `Nothing`; with 0 `turns` nothing changes. Any other
    /// answer comes after at least one poll. After each poll that gave `Nothing` the thread pauses
    /// (own).
    #[tactic(auto, unfolding(crate::specs::Poll::more_calls))]
    pub fn wait_counted<R: Wait>(
        &mut self,
        rt: &R,
        link: &Link<C>,
        turns: u32,
        mut pause: Pause,
    ) -> Waited
        requires { IsOfLink (C.identity link.now.a2p) (C.identity link.now.p2a) self.old }
        ensures same { self.new ≡ record self.old { caller = self.new.caller } }
        ensures waits { Waits turns self.old.caller result.answer self.new.caller }
        ensures looks { Looks turns result.answer result.looks self.old.caller self.new.caller }
    {
        'turns: for turn in 0..turns {
            match self.collect(link) {
                Collected::Nothing => pause.wait(rt),
                answer => {
                    return Waited {
                        answer,
                        looks: turn + 1,
                    };
                }
            }
        }
        Waited {
            answer: Collected::Nothing,
            looks: turns,
        }
    }

    /// As `wait_counted`, without the count, with the pauses of threads that may run at the same
    /// time.
    pub fn wait_reply<R: Wait>(&mut self, rt: &R, link: &Link<C>, turns: u32) -> Collected
        requires { IsOfLink (C.identity link.now.a2p) (C.identity link.now.p2a) self.old }
        ensures same { self.new ≡ record self.old { caller = self.new.caller } }
        ensures waits { Waits turns self.old.caller result self.new.caller }
    {
        self.wait_counted(rt, link, turns, Pause::new()).answer
    }
}
