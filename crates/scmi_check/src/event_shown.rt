//! What the messages of Linux's ftrace show.
ghost use Rattle.std.specs.Prelude.{◌≡◌};
ghost use Rattle.scmi_board.specs.LineError.{Gives};
ghost use Rattle.scmi_check.specs.Shown.{event_shown, message_shown};

use crate::shown::Shown;
use scmi_board::LineError;
use scmi_codec::Message;
use scmi_decode::EventKind;

/// What the message of an event shows. The agent is the one after its instance of SCMI (own);
/// `Form` if the board, which has this many agents, lacks it.
pub(crate) fn event_shown(
    agents: u32,
    instance: u32,
    kind: EventKind,
    message: Message,
) -> Result<Shown, LineError>
    ensures { Gives (λ shown. shown) result (event_shown agents instance kind message) }
{
    if instance >= agents {
        return Err(LineError::Form);
    }
    Ok(message_shown(kind, instance + 1, message))
}

/// What the message of an event shows of its agent: it posts a command, over any of its channels,
/// gets the response to that of its token, and takes any other message.
fn message_shown(kind: EventKind, agent: u32, message: Message) -> Shown
    ensures { result ≡ message_shown kind agent message }
{
    match kind {
        EventKind::Command => Shown::PostedBeside { agent, message },
        EventKind::Response => Shown::Responded { agent, message },
        EventKind::Delayed | EventKind::Notification => Shown::Took { agent, message },
    }
}
