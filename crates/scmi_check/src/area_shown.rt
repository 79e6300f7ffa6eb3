//! What the areas of an agent's channels show, as `scmi decode` reads them.
ghost use Rattle.std.specs.Prelude.{◌≡◌};
ghost use Rattle.scmi_board.specs.Items.{items_left};
ghost use Rattle.scmi_board.specs.LineError.{Gives};
ghost use Rattle.scmi_check.specs.AreaShown.{a2p_shown, area_described, area_left, described, message_in, p2a_shown, taken};

use crate::shown::Shown;
use arrayvec::ArrayVec;
use scmi_board::{Items, LineError};
use scmi_codec::{AREA_BYTES, Answer, Frame, Message};
use scmi_decode::{Description, describe_channel};

/// What the area of a channel is whose words are all items that are left. `Form` if one is not a
/// word, or no channel has as many.
#[tactic(auto, unfolding(crate::specs::AreaShown::area_described))]
pub(crate) fn read_area(items: &mut Items<'_>) -> Result<Description, LineError>
    ensures { Gives (λ area. area) result (area_described (items_left items.old)) }
{
    let bytes = read_area_bytes(items)?;
    described(bytes.as_slice())
}

fn described(area: &[u8]) -> Result<Description, LineError>
    ensures { Gives (λ area. area) result (described area.now) }
{
    match describe_channel(area) {
        Ok(description) => Ok(description),
        Err(_) => Err(LineError::Form),
    }
}

/// The bytes of an area whose words are all items that are left, the lowest byte first.
fn read_area_bytes(items: &mut Items<'_>) -> Result<ArrayVec<u8, AREA_BYTES>, LineError>
    ensures { Gives (λ area. area.items) result (area_left (items_left items.old)) }
{
    let mut area = ArrayVec::new();
    while !items.is_done() {
        let word = items.next_word()?;
        let Ok(()) = area.try_extend_from_slice(&word.to_le_bytes()) else {
            return Err(LineError::Form);
        };
    }
    Ok(area)
}

/// What the area of an agent's A2P channel shows. `Form` if it is not a command, response or channel
/// error.
pub(crate) fn a2p_shown(agent: u32, area: Description) -> Result<Shown, LineError>
    ensures { Gives (λ shown. shown) result (a2p_shown agent area) }
{
    match area {
        Description::Command { message, .. } => Ok(message_in(agent, false, message)),
        Description::Withdrawn { message, .. } => Ok(message_in(agent, true, message)),
        Description::Reply { message } => Ok(message_in(agent, true, message)),
        Description::Refusal { message, .. } => Ok(message_in(agent, true, message)),
        Description::Delayed { is_free, message } => Ok(message_in(agent, is_free, message)),
        Description::Notification { is_free, message } => Ok(message_in(agent, is_free, message)),
        Description::Foreign { is_free, message } => Ok(message_in(agent, is_free, message)),
        Description::ChannelError { .. } => Ok(Shown::Got {
            agent,
            answer: Answer::ChannelError,
        }),
        Description::Malformed {
            is_free: false,
            length,
            header,
        } => Ok(Shown::Posted {
            agent,
            frame: Frame::Malformed { length, header },
        }),
        Description::Malformed { .. } | Description::Unused => Err(LineError::Form),
    }
}

/// What a message in an A2P channel shows: a command if the channel is busy, else the response.
fn message_in(agent: u32, is_free: bool, message: Message) -> Shown
    ensures { result ≡ message_in agent is_free message }
{
    if is_free {
        Shown::Got {
            agent,
            answer: Answer::Reply(message),
        }
    } else {
        Shown::Posted {
            agent,
            frame: Frame::Good(message),
        }
    }
}

/// What the area of an agent's P2A channel shows. `Form` if it is not a message for the agent.
pub(crate) fn p2a_shown(agent: u32, area: Description) -> Result<Shown, LineError>
    ensures { Gives (λ shown. shown) result (p2a_shown agent area) }
{
    match area {
        Description::Command { message, .. } => Ok(Shown::Took { agent, message }),
        Description::Delayed { is_free, message } => taken(agent, is_free, message),
        Description::Notification { is_free, message } => taken(agent, is_free, message),
        Description::Foreign { is_free, message } => taken(agent, is_free, message),
        _ => Err(LineError::Form),
    }
}

/// A message that an agent takes from its P2A channel. `Form` if it was taken before.
fn taken(agent: u32, is_free: bool, message: Message) -> Result<Shown, LineError>
    ensures { Gives (λ shown. shown) result (taken agent is_free message) }
{
    if is_free {
        Err(LineError::Form)
    } else {
        Ok(Shown::Took { agent, message })
    }
}
