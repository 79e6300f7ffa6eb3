//! The line of an agent's channels, as it is read.
ghost use Rattle.scmi_board.specs.BoardLines.{first_channel, first_options, first_pending, first_share};
ghost use Rattle.scmi_board.specs.Items.{items_left};
ghost use Rattle.scmi_board.specs.LineError.{Gives};

use crate::items::Items;
use crate::line_error::LineError;
use crate::words::{ONE_WAY, PENDING};
use scmi_codec::{channel_words, is_channel_size};
use scmi_plan::{AgentChannel, PENDING_SETS};

/// What a line `channel` contains: an agent's number, and what its channels are.
#[derive(Clone, Copy, Debug, PartialEq, Eq, Drop)]
pub struct ChannelLine {
    pub agent: u32,
    pub channel: AgentChannel,
}

/// What follows `channel`: `AGENT BYTES [one-way] [pending N]`. BYTES is the size of the agent's
/// areas, 28 + 4k with k from 8 to 64.
#[tactic(auto, unfolding(crate::specs::BoardLines::first_channel))]
pub(crate) fn read_channel(items: &mut Items<'_>) -> Result<ChannelLine, LineError>
    ensures { Gives (λ line. (line, items_left items.new)) result
        (first_channel (items_left items.old)) }
{
    let agent = items.next_word()?;
    let bytes = items.next_word()? as usize;
    let (one_way, share) = read_options(items)?;
    if !is_channel_size(bytes) {
        return Err(LineError::Form);
    }
    let words = channel_words(bytes) as u32;
    Ok(ChannelLine {
        agent,
        channel: AgentChannel {
            words,
            one_way,
            share,
        },
    })
}

/// `[one-way] [pending N]`: whether the platform can't send to the agent, and its share.
#[tactic(auto, unfolding(crate::specs::BoardLines::first_options))]
fn read_options(items: &mut Items<'_>) -> Result<(bool, u32), LineError>
    ensures { Gives (λ options. (options, items_left items.new)) result
        (first_options (items_left items.old)) }
{
    if items.finish().is_ok() {
        return Ok((false, PENDING_SETS as u32));
    }
    let word = items.next_item()?;
    if word == ONE_WAY {
        return Ok((true, read_pending(items)?));
    }
    if word == PENDING {
        return Ok((false, read_share(items)?));
    }
    Err(LineError::Form)
}

/// Nothing, or `pending N`.
#[tactic(auto, unfolding(crate::specs::BoardLines::first_pending))]
fn read_pending(items: &mut Items<'_>) -> Result<u32, LineError>
    ensures { Gives (λ share. (share, items_left items.new)) result
        (first_pending (items_left items.old)) }
{
    if items.finish().is_ok() {
        return Ok(PENDING_SETS as u32);
    }
    if items.next_item()? == PENDING {
        return read_share(items);
    }
    Err(LineError::Form)
}

/// How many of the pending sets may be the agent's: 1 to all of them.
#[tactic(auto, unfolding(crate::specs::BoardLines::first_share))]
fn read_share(items: &mut Items<'_>) -> Result<u32, LineError>
    ensures { Gives (λ share. (share, items_left items.new)) result
        (first_share (items_left items.old)) }
{
    let share = items.next_word()?;
    if share == 0 || share as usize > PENDING_SETS {
        return Err(LineError::Form);
    }
    Ok(share)
}
