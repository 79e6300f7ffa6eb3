//! A command of any message is posted.
ghost use Rattle.scmi_agent_c.specs.Post.{Posts};

use crate::code::{DONE, NOT_FREE, OUTSTANDING};
use crate::state::State;
use scmi_agent::PostError;
use scmi_codec::{AREA_BYTES, Command};

/// Writes a command into an area at the agent's next token. `DONE`; `OUTSTANDING` if the reply to
/// the command before it was not read; `NOT_FREE` if a message is in the area. After another number
/// than `DONE` nothing changed.
pub fn post(agent: &mut State, area: &mut [u8; AREA_BYTES], command: &Command) -> u32
    ensures { Posts command.now agent.old agent.new area.old area.new result }
{
    let mut caller = agent.agent();
    match caller.post(area, command) {
        Ok(_) => {
            agent.keep(&caller);
            DONE
        }
        Err(PostError::Outstanding) => OUTSTANDING,
        Err(PostError::NotFree) => NOT_FREE,
    }
}
