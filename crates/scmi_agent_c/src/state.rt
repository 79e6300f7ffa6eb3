//! An agent as a C program holds it.
ghost use Rattle.std.specs.Prelude.{◌≡◌};
ghost use Rattle.scmi_agent_c.specs.State.{agent_of, state_of};

use scmi_agent::Agent;
use scmi_codec::{Header, TOKENS};

/// An agent, which is all zeros before its first command.
#[repr(C)]
#[derive(Drop)]
pub struct State {
    /// The token of the next command, modulo 1024.
    pub next: u32,
    /// 0 if no command is outstanding.
    pub posted: u32,
    /// The header of the command that is outstanding, or 0.
    pub header: u32,
}

impl State {
    /// The agent that a state encodes.
    pub fn agent(&self) -> Agent
        ensures { result ≡ agent_of self.now }
    {
        Agent {
            next: (self.next % u32::from(TOKENS)) as u16,
            posted: if self.posted == 0 {
                None
            } else {
                Some(Header::unpack(self.header))
            },
        }
    }

    /// Becomes the state of an agent.
    pub fn keep(&mut self, agent: &Agent)
        ensures { self.new ≡ state_of agent.now }
    {
        self.next = u32::from(agent.next);
        match &agent.posted {
            None => {
                self.posted = 0;
                self.header = 0;
            }
            Some(header) => {
                self.posted = 1;
                self.header = header.pack();
            }
        }
    }
}
