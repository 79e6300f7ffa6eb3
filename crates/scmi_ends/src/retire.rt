//! How the endpoints of all channels are gathered.
ghost use Rattle.std.specs.Prelude.{◌≡◌, map};
ghost use Rattle.std.specs.List.{AllZip};
ghost use Rattle.scmi_core.specs.Channels.{KeepsChannels};
ghost use Rattle.scmi_core.specs.Bounds.{HasBounds, HasResponses};
ghost use Rattle.scmi_core.specs.History.{deeds};
ghost use Rattle.scmi_core.specs.Legal.{IsLegal};
ghost use Rattle.scmi_ends.specs.AgentView.{IsOfLink};
ghost use Rattle.scmi_ends.specs.Links.{HasLinks, AreEndsOf};
ghost use Rattle.scmi_ends.specs.Headline.{Headlines, AllGathered};
ghost use Rattle.scmi_ends.specs.Agreement.{StayShut};

use crate::agent_end::AgentEnd;
use crate::controller::Controller;
use crate::link::Link;
use scmi_core::{Core, Trace};
use scmi_link::Channel;

impl<C: Channel> Controller<C> {
    /// Gathers all channels, and gives the one history of the platform. It takes no memory.
    ///
    /// Condition: the links and the agents' endpoints are the whole lists of `connect`, in order.
    /// The history is legal. The commands that it has of each agent are those the agent posted, in
    /// order, each once, at most the last left out; each reply that the agent read is the answer at
    /// its command's place; a command that was withdrawn or given up was not executed; if the
    /// platform has closed the agent's A2P channel, what it had executed then is all that was
    /// executed; and the messages that the agent took are those delivered to it, at most the last
    /// left out. With its outbox they are all that was made for it, but for what a restart of it
    /// dropped; no other delayed response is lost. What the hardware was asked for beside the calls
    /// (`serve_on`, `advance_on`) is exactly what belongs to the history, in order, each change
    /// once, since no other call but `serve` and `advance` changes that.
    pub fn retire(self, links: Vec<Link<C>>, agents: Vec<AgentEnd<C>>) -> Trace
        requires links { HasLinks C.identity links.items self }
        requires ends { AreEndsOf C.identity links.items agents.items }
        ensures history { result.events ≡ self.history }
        ensures room { result.room ≡ self.room }
        ensures legal { IsLegal self.board result.events }
        ensures bounds { HasBounds self.board (deeds self.board result.events) }
        ensures responses { HasResponses self.board (deeds self.board result.events) }
        ensures channels { KeepsChannels self.board result.events }
        ensures headline { Headlines self.board result.events 1 agents.items self.callees
            self.callers }
        ensures shut { StayShut result.events self.callees self.closed_at }
    {
        self.gather_ends(links, agents).into_trace()
    }

    // Gathers all channels, which leaves the core.
    fn gather_ends(self, links: Vec<Link<C>>, agents: Vec<AgentEnd<C>>) -> Core
        requires links { HasLinks C.identity links.items self }
        requires ends { AreEndsOf C.identity links.items agents.items }
        ensures board { result.board ≡ self.board }
        ensures history { result.history ≡ self.history }
        ensures room { result.room ≡ self.room }
        ensures headline { Headlines self.board self.history 1 agents.items self.callees
            self.callers }
        ensures shut { StayShut self.history self.callees self.closed_at }
    {
        let Controller {
            core,
            callees,
            callers,
            ..
        } = self;
        gather_all(links, agents, callees, callers);
        core
    }
}

// Gathers each channel with its two endpoints.
fn gather_all<C: Channel>(
    mut links: Vec<Link<C>>,
    mut agents: Vec<AgentEnd<C>>,
    mut callees: Vec<C::Callee>,
    mut callers: Vec<C::Caller>,
)
    requires agents { AllZip (λ link agent.
        IsOfLink (C.identity link.a2p) (C.identity link.p2a) agent) links.items agents.items }
    requires callees { AllZip (λ link callee.
        C.callee_identity callee ≡ C.identity link.a2p) links.items callees.items }
    requires callers { AllZip (λ link caller.
        C.caller_identity caller ≡ C.identity link.p2a) links.items callers.items }
    ensures { AllGathered agents.items (map C.callee_view callees.items)
        (map C.caller_view callers.items) }
{
    'ends: while !links.is_empty() {
        let Link { a2p, p2a } = links.remove(0);
        let (caller, receiver) = agents.remove(0).into_ends();
        let callee = callees.remove(0);
        let sender = callers.remove(0);
        let _rest = a2p.gather(caller, callee);
        let _rest = p2a.gather(sender, receiver);
    }
}
