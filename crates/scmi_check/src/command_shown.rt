//! The commands among the steps of a script.
ghost use Rattle.scmi_board.specs.LineError.{Gives};
ghost use Rattle.scmi_check.specs.Shown.{command_shown};

use crate::shown::Shown;
use scmi_board::LineError;
use scmi_codec::Frame;
use scmi_text::{AgentStep, Step};

/// The command that a step of a script posts. `Form` for any other step.
pub(crate) fn command_shown(step: Step) -> Result<Shown, LineError>
    ensures { Gives (λ shown. shown) result (command_shown step) }
{
    match step {
        Step::Do { agent, call } => Ok(Shown::Called { agent, call }),
        Step::Agent {
            agent,
            step: AgentStep::Raw(message),
        } => Ok(Shown::Posted {
            agent,
            frame: Frame::Good(message),
        }),
        Step::Agent {
            agent,
            step: AgentStep::Malformed { length, header },
        } => Ok(Shown::Posted {
            agent,
            frame: Frame::Malformed { length, header },
        }),
        _ => Err(LineError::Form),
    }
}
