//! What one agent does in a step, and the line that is written for it, by its own endpoint and
//! link.
ghost use Rattle.scmi_ends.specs.AgentView.{IsOfLink, HasSameIdentities};
ghost use Rattle.scmi_text.specs.declared.step.AgentStep.TheVariants as step;
ghost use Rattle.scmi_ends.specs.Shut.{ShowsClose};
ghost use Rattle.scmi_modes.specs.SessionSteps.{Makes};

use scmi_codec::Message;
use scmi_ends::{AgentEnd, Link};
use scmi_link::Channel;
use scmi_text::{AgentStep, Call, StepLine};

/// The agent makes a call.
pub(crate) fn make<C: Channel>(
    agent: u32,
    step: &AgentStep,
    end: &mut AgentEnd<C>,
    link: &Link<C>,
) -> StepLine
    requires { IsOfLink (C.identity link.now.a2p) (C.identity link.now.p2a) end.old }
    ensures identities { HasSameIdentities end.old end.new }
    ensures makes { Makes C.FULL (ShowsClose C.caller_view C.close_shows) agent step.now
        result end.old end.new }
{
    match step {
        AgentStep::Call(command) => call(agent, command, end, link),
        AgentStep::Raw(message) => post(agent, message, end, link),
        AgentStep::Malformed { length, header } => {
            post_malformed(agent, *length, *header, end, link)
        }
        AgentStep::Collect => collect(agent, end, link),
        AgentStep::P2a => next_p2a(agent, end, link),
        AgentStep::Close => close(agent, end, link),
    }
}

/// The agent posts a command with its next token.
pub(crate) fn call<C: Channel>(
    agent: u32,
    command: &Call,
    end: &mut AgentEnd<C>,
    link: &Link<C>,
) -> StepLine
    requires { IsOfLink (C.identity link.now.a2p) (C.identity link.now.p2a) end.old }
    ensures identities { HasSameIdentities end.old end.new }
    ensures makes { Makes C.FULL (ShowsClose C.caller_view C.close_shows) agent (step.Call command.now)
        result end.old end.new }
{
    match end.call(link, command.protocol, command.message, &command.payload) {
        Ok(token) => StepLine::Token { agent, token },
        Err(refusal) => StepLine::NotPosted { agent, refusal },
    }
}

fn post<C: Channel>(
    agent: u32,
    message: &Message,
    end: &mut AgentEnd<C>,
    link: &Link<C>,
) -> StepLine
    requires { IsOfLink (C.identity link.now.a2p) (C.identity link.now.p2a) end.old }
    ensures identities { HasSameIdentities end.old end.new }
    ensures makes { Makes C.FULL (ShowsClose C.caller_view C.close_shows) agent (step.Raw message.now)
        result end.old end.new }
{
    match end.post(link, message) {
        Ok(()) => StepLine::Posted { agent },
        Err(refusal) => StepLine::NotPosted { agent, refusal },
    }
}

fn post_malformed<C: Channel>(
    agent: u32,
    length: u32,
    header: u32,
    end: &mut AgentEnd<C>,
    link: &Link<C>,
) -> StepLine
    requires { IsOfLink (C.identity link.now.a2p) (C.identity link.now.p2a) end.old }
    ensures identities { HasSameIdentities end.old end.new }
    ensures makes { Makes C.FULL (ShowsClose C.caller_view C.close_shows) agent (step.Malformed length header)
        result end.old end.new }
{
    match end.post_malformed(link, length, header) {
        Ok(()) => StepLine::Posted { agent },
        Err(refusal) => StepLine::NotPosted { agent, refusal },
    }
}

/// The agent collects.
pub(crate) fn collect<C: Channel>(agent: u32, end: &mut AgentEnd<C>, link: &Link<C>) -> StepLine
    requires { IsOfLink (C.identity link.now.a2p) (C.identity link.now.p2a) end.old }
    ensures identities { HasSameIdentities end.old end.new }
    ensures makes { Makes C.FULL (ShowsClose C.caller_view C.close_shows) agent step.Collect
        result end.old end.new }
{
    let collected = end.collect(link);
    StepLine::Collected { agent, collected }
}

fn next_p2a<C: Channel>(agent: u32, end: &mut AgentEnd<C>, link: &Link<C>) -> StepLine
    requires { IsOfLink (C.identity link.now.a2p) (C.identity link.now.p2a) end.old }
    ensures identities { HasSameIdentities end.old end.new }
    ensures makes { Makes C.FULL (ShowsClose C.caller_view C.close_shows) agent step.P2a
        result end.old end.new }
{
    let frame = end.next_p2a(link);
    StepLine::P2a { agent, frame }
}

fn close<C: Channel>(agent: u32, end: &mut AgentEnd<C>, link: &Link<C>) -> StepLine
    requires { IsOfLink (C.identity link.now.a2p) (C.identity link.now.p2a) end.old }
    ensures identities { HasSameIdentities end.old end.new }
    ensures makes { Makes C.FULL (ShowsClose C.caller_view C.close_shows) agent step.Close
        result end.old end.new }
{
    match end.close(link) {
        Ok(closing) => StepLine::Closed {
            agent,
            closing: Ok(closing),
        },
        Err(refusal) => StepLine::Closed {
            agent,
            closing: Err(refusal),
        },
    }
}
