//! The platform's close of one agent's channels.
ghost use Rattle.std.specs.Prelude.{◌≡◌, true, Some};
ghost use Rattle.std.specs.Option.{option_or};
ghost use Rattle.scmi_link.specs.View.{Owes};
ghost use Rattle.scmi_ends.specs.Shut.{CollectsAndShuts, ShowsClose};

use crate::link::Link;
use scmi_codec::Answer;
use scmi_link::{Channel, CloseError, ShutError};

// Closes A2P, if no answer is owed, and notes after how many events it first did; collects on P2A,
// and closes that.
pub(crate) fn shut_one<C: Channel>(
    link: &Link<C>,
    callee: &mut C::Callee,
    caller: &mut C::Caller,
    closed_at: &mut Option<usize>,
    events: usize,
) -> Result<(), ShutError>
    requires a2p { C.callee_identity callee.old ≡ C.identity link.now.a2p }
    requires p2a { C.caller_identity caller.old ≡ C.identity link.now.p2a }
    requires owes { ¬ (Owes (C.callee_view callee.old)) }
    ensures a2p { C.callee_identity callee.new ≡ C.callee_identity callee.old }
    ensures p2a { C.caller_identity caller.new ≡ C.caller_identity caller.old }
    ensures closes { C.callee_view callee.new ≡
        record (C.callee_view callee.old) { closed = true } }
    ensures closed_at { closed_at.new ≡ option_or closed_at.old (Some events) }
    ensures step { CollectsAndShuts (ShowsClose C.caller_view C.close_shows)
        (C.caller_view caller.old) result (C.caller_view caller.new) }
{
    let Ok(()) = link.a2p.close_callee(callee) else {
        return Err(ShutError::InService);
    };
    *closed_at = closed_at.or(Some(events));
    let _ = link.p2a.collect_into(caller, &mut Answer::Released);
    match link.p2a.close_caller(caller) {
        Ok(_) => Ok(()),
        Err(CloseError::InService) => Err(ShutError::InService),
        Err(CloseError::ReplyWaiting) => Err(ShutError::ReplyWaiting),
    }
}
