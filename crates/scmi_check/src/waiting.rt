//! Commands whose answers are still to come.
ghost use Rattle.std.specs.Prelude.{◌≡◌, MatchOption, None, Some, position};
ghost use Rattle.scmi_board.specs.LineError.{Gives};
ghost use Rattle.scmi_check.specs.RecordText.{command_taken, has_token, is_by, is_early, is_with, taken_with};

use scmi_board::LineError;
use scmi_codec::{Frame, Message};

/// A command whose answer is still to come, and the number of its line.
#[derive(Drop)]
pub(crate) struct Waiting {
    pub line: u32,
    pub agent: u32,
    pub frame: Frame,
}

/// A response of an agent that answers no command which waits, by its token.
#[derive(Clone, Copy)]
pub(crate) struct Early {
    pub agent: u32,
    pub token: u16,
}

/// Takes the command of an agent from those that wait. `Form` if none waits.
#[tactic(auto, unfolding(crate::specs::RecordText::command_taken))]
pub(crate) fn take_command(waiting: &mut Vec<Waiting>, agent: u32) -> Result<Waiting, LineError>
    ensures { Gives (λ command. (command, waiting.new.items)) result
        (command_taken waiting.old.items agent) }
{
    let Some(place) = place_of(waiting, agent) else {
        return Err(LineError::Form);
    };
    Ok(waiting.remove(place))
}

/// The place of the command of an agent among those that wait, if it has one there.
pub(crate) fn place_of(waiting: &[Waiting], agent: u32) -> Option<usize>
    ensures { result ≡ position (is_by agent) waiting.now }
{
    waiting.iter().position(|waiting| waiting.agent == agent)
}

/// Takes the command of an agent with this token from those that wait. `None` if none waits.
#[tactic(auto, unfolding(crate::specs::RecordText::taken_with))]
pub(crate) fn take_with(waiting: &mut Vec<Waiting>, agent: u32, token: u16) -> Option<Waiting>
    ensures { MatchOption result
        ((taken_with waiting.old.items agent token ≡ None)
        × (waiting.new.items ≡ waiting.old.items))
        (λ one. taken_with waiting.old.items agent token ≡ Some (one, waiting.new.items)) }
{
    match place_with(waiting, agent, token) {
        Some(place) => Some(waiting.remove(place)),
        None => None,
    }
}

/// The place of the command of an agent with this token among those that wait.
fn place_with(waiting: &[Waiting], agent: u32, token: u16) -> Option<usize>
    ensures { result ≡ position (is_with agent token) waiting.now }
{
    waiting
        .iter()
        .position(|waiting| is_with(agent, token, waiting))
}

/// Whether a command is this agent's and has this token.
fn is_with(agent: u32, token: u16, waiting: &Waiting) -> bool
    ensures { result ≡ is_with agent token waiting.now }
{
    waiting.agent == agent && has_token(&waiting.frame, token)
}

/// Whether a frame is a message with this token.
fn has_token(frame: &Frame, token: u16) -> bool
    ensures { result ≡ has_token token frame.now }
{
    match frame {
        Frame::Good(Message { header, .. }) => header.token() == token,
        Frame::Malformed { .. } => false,
    }
}

/// Whether a response that was before its command is this agent's and has this token.
pub(crate) fn is_early(early: Option<Early>, agent: u32, token: u16) -> bool
    ensures { result ≡ is_early early agent token }
{
    match early {
        Some(response) => response.agent == agent && response.token == token,
        None => false,
    }
}
