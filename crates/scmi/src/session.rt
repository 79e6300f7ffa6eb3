//! A session whose lines are answered one by one.
ghost use Rattle.std.specs.Prelude.{◌≡◌, OnOk};
ghost use Rattle.scmi_board.specs.BoardLines.{described};
ghost use Rattle.scmi.specs.Session.{IsSession};

use crate::opened::Opened;
use scmi_io::{CountedRead, CountedReader, Input};
use scmi_live::{Listener, LiveError, run_live};
use scmi_words::WordChannel;
use std::alloc::Global;
use std::io::Read;

/// Answers the lines of a reader on the board of a session, and gives the exit status: 0, or that
/// of the error, which the listener is given.
pub fn run_session<R: Read, L: Listener>(
    alloc: Global,
    opened: &Opened,
    reader: &mut R,
    listener: &mut L,
) -> u8
    ensures { result ≡ 0 → IsSession (described opened.now.said) (R.remaining reader.old)
        (L.heard listener.old) (L.heard listener.new) }
{
    let mut input = Input::new(CountedReader::new(reader));
    match answer_lines(alloc, opened, &mut input, listener) {
        Ok(()) => 0,
        Err(fault) => {
            listener.failed(fault);
            fault.status()
        }
    }
}

fn answer_lines<R: CountedRead + Drop, L: Listener>(
    alloc: Global,
    opened: &Opened,
    input: &mut Input<R>,
    listener: &mut L,
) -> Result<(), LiveError>
    ensures { OnOk result (IsSession (described opened.now.said) input.old.left
        (L.heard listener.old) (L.heard listener.new)) }
{
    let Ok(plan) = opened.plan(alloc) else {
        return Err(LiveError::Memory);
    };
    run_live::<WordChannel, _, _>(alloc, &opened.said, plan, input, listener)
}
