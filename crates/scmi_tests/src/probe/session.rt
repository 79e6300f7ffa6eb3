//! Both sides of a board on one thread, and what agent 1 does.
ghost use Rattle.std.specs.Prelude.{◌≡◌};
ghost use Rattle.scmi_ends.specs.AgentView.{IsOfLink, HasSameIdentities};

use scmi_codec::{Answer, BASE_PROTOCOL, Payload};
use scmi_core::Core;
use scmi_ends::{AgentEnd, Controller, Link, ServeError, Served, connect};
use scmi_link::{Channel, CloseError, Closing, PostError};
use std::alloc::Global;
use std::marker::Model;

/// The controller of a board, its agents, and the channels between them. A contract sees how many
/// agents there are.
#[derive(Drop)]
pub struct Session<C: Channel> {
    controller: Controller<C>,
    links: Vec<Link<C>>,
    agents: Vec<AgentEnd<C>>,
}

impl<C: Channel> Model for Session<C> {
    ghost use Rattle.std.specs.Prelude.{ℕ, length};
    ghost use Rattle.scmi_ends.specs.Links.{BelongTogether};

    ghost Value = { ℕ };

    ghost view = { λ s. length s.agents.items };

    ghost invariant = { λ s. BelongTogether C.identity s.links.items s.controller s.agents.items };
}

impl<C: Channel> Session<C> {
    ghost use Rattle.std.specs.Prelude.{◌≡◌, ◌≤◌, [], length, IfOk, IfErr};

    /// Both sides, over new channels. The error hands the core back when out of memory.
    pub fn open(alloc: Global, core: Core) -> Result<Session<C>, Core>
        requires { core.history ≡ [] }
        ensures agents { IfOk result (λ session. session ≡ length core.board.agents) }
        ensures err { IfErr result (λ c. c ≡ core) }
    {
        let (controller, links, agents) = connect(alloc, core)?;
        Ok(Session {
            controller,
            links,
            agents,
        })
    }

    /// Agent 1 asks for the version of the base protocol, with these payload words.
    pub fn ask(&mut self, payload: &Payload) -> Result<u16, PostError>
        requires { 1 ≤ self.old }
        ensures { self.new ≡ self.old }
    {
        ask(&mut self.agents[0], &self.links[0], payload)
    }

    /// Serves agent 1.
    pub fn serve(&mut self) -> Result<Served, ServeError>
        ensures { self.new ≡ self.old }
    {
        self.controller.serve(&self.links, 1)
    }

    /// Agent 1 polls for its reply.
    pub fn look(&mut self, answer: &mut Answer)
        requires { 1 ≤ self.old }
        ensures { self.new ≡ self.old }
    {
        let _ = self.agents[0].collect_into(&self.links[0], answer);
    }

    /// Agent 1 asks, is served, and polls for its reply.
    pub fn exchange(&mut self, payload: &Payload, answer: &mut Answer)
        requires { 1 ≤ self.old }
        ensures { self.new ≡ self.old }
    {
        let _ = self.ask(payload);
        let _ = self.serve();
        self.look(answer);
    }

    /// Agent 1 closes its channels.
    pub fn close(&mut self) -> Result<Closing, CloseError>
        requires { 1 ≤ self.old }
        ensures { self.new ≡ self.old }
    {
        close(&mut self.agents[0], &self.links[0])
    }

    /// Gathers all endpoints, and gives the length of the history.
    pub fn retire(self) -> usize {
        let Session {
            controller,
            links,
            agents,
        } = self;
        controller.retire(links, agents).len()
    }
}

fn ask<C: Channel>(
    end: &mut AgentEnd<C>,
    link: &Link<C>,
    payload: &Payload,
) -> Result<u16, PostError>
    requires { IsOfLink (C.identity link.now.a2p) (C.identity link.now.p2a) end.old }
    ensures { HasSameIdentities end.old end.new }
{
    end.call(link, BASE_PROTOCOL, 0, payload)
}

fn close<C: Channel>(end: &mut AgentEnd<C>, link: &Link<C>) -> Result<Closing, CloseError>
    requires { IsOfLink (C.identity link.now.a2p) (C.identity link.now.p2a) end.old }
    ensures { HasSameIdentities end.old end.new }
{
    end.close(link)
}
