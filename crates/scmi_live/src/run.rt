//! A session from its input to its end.
ghost use Rattle.std.specs.Prelude.{◌≡◌, ⊤, IfSome, IsErrOf, OnErr, OnOk};
ghost use Rattle.scmi_io.specs.Reads.{StopsWith};
ghost use Rattle.scmi_board.specs.BoardLines.{described};
ghost use Rattle.scmi_board.specs.ValidBoard.{with_its_lines};
ghost use Rattle.scmi_ends.specs.Shut.{ShowsClose};
ghost use Rattle.scmi_live.specs.Live.{IsSession, IsStopped, IsStoppedBefore, IsTooMuch, Refuses};

use crate::listener::Listener;
use crate::live::Live;
use crate::live_error::LiveError;
use scmi_board::BoardWithLines;
use scmi_io::{CountedRead, Input};
use scmi_link::Channel;
use scmi_plan::Plan;
use std::alloc::Global;

/// Answers an input line by line, on a board of which this is the plan, with the channels that its
/// text gives, up to its end or a line that ends the session. The listener is given each step that
/// was taken with its line, before the next line is read, and at the end the length of the history
/// and how many notifications were dropped.
///
/// `Size` at a line longer than `INPUT_BYTES`, or at the line of number `usize::MAX`; `Read` at a line
/// that can't be read; `Memory` when out of memory; and what the listener gives: `Write` only at a
/// step or at the end. After an error the listener was given exactly the steps of the lines before,
/// each with its line, and maybe that of the line at which the error came. If it refuses the end, it
/// was given the steps of all lines, and maybe the end.
pub fn run_live<C: Channel, R: CountedRead + Drop, L: Listener>(
    alloc: Global,
    board: &BoardWithLines,
    plan: Plan,
    input: &mut Input<R>,
    listener: &mut L,
) -> Result<(), LiveError>
    requires { plan ≡ with_its_lines (described board.now) }
    ensures session { OnOk result (IfSome input.old.left (λ bytes.
        IsSession C.FULL (ShowsClose C.caller_view C.close_shows) (described board.now) bytes
        (L.heard listener.old) (L.heard listener.new))) }
    ensures answered { OnErr result (IfSome input.old.left (λ bytes.
        IsStopped C.FULL (ShowsClose C.caller_view C.close_shows) (described board.now) bytes
        (L.heard listener.old) (L.heard listener.new))) }
    ensures size { IsErrOf result LiveError.Size → IfSome input.old.left (λ bytes.
        IsStoppedBefore C.FULL (ShowsClose C.caller_view C.close_shows) IsTooMuch
        (described board.now) bytes (L.heard listener.old) (L.heard listener.new)) }
    ensures read { IsErrOf result LiveError.Read → IfSome input.old.left (λ bytes.
        IsStoppedBefore C.FULL (ShowsClose C.caller_view C.close_shows) (λ _ _. ⊤)
        (described board.now) bytes (L.heard listener.old) (L.heard listener.new)) }
    ensures write { IsErrOf result LiveError.Write → IfSome input.old.left (λ bytes.
        Refuses C.FULL (ShowsClose C.caller_view C.close_shows) (described board.now) bytes
        (L.heard listener.old) (L.heard listener.new)) }
    ensures stops { StopsWith LiveError.Read result input.old.since_failure
        input.new.since_failure }
{
    let mut live = Live::<C>::open(alloc, &board.board, plan)?;
    let mut line = Vec::new(alloc);
    'lines: for number in 1..usize::MAX {
        listener.ready();
        let ended = input.read_line(&mut line)?;
        let goes_on = live.answer(number, line.as_slice(), listener)?;
        if !goes_on {
            return live.end(listener);
        }
        if !ended {
            return live.end(listener);
        }
    }
    Err(LiveError::Size)
}
