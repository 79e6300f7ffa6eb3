//! Channels of each kind, and a command over them.
ghost use Rattle.std.specs.Prelude.{◌≡◌, ◌≤◌, [], length, IfSome};

use crate::probe::board::new_plan;
use crate::probe::lines::Lines;
use crate::probe::session::Session;
use scmi_codec::{Answer, Payload};
use scmi_core::Core;
use scmi_ends::{ServeError, Served};
use scmi_link::{Channel, Closing};
use std::alloc::Global;
use std::io::Write;

/// A channel is made. If memory is refused it is made again.
pub fn make_channel<C: Channel, W: Write>(alloc: Global, lines: &mut Lines<'_, W>) {
    for _ in 0..2 {
        // Memory is the one reason why no channel is made.
        if C::make(alloc).is_ok() {
            lines.answer("make", "ok");
            return;
        }
        lines.answer("make", "memory");
    }
}

/// A command is served. If memory is refused it is served again, or its agent withdraws it.
pub fn make_command<C: Channel, W: Write>(
    alloc: Global,
    lines: &mut Lines<'_, W>,
    withdraws: bool,
) {
    let Some(mut session) = open::<C, W>(alloc, lines) else {
        return;
    };
    if let Ok(token) = session.ask(&Payload::new()) {
        lines.number("call", token as usize);
    }
    if is_served(lines, &mut session) || !withdraws && is_served(lines, &mut session) {
        collect(lines, &mut session);
    } else {
        close(lines, &mut session);
    }
    lines.number("trace", session.retire());
}

/// Serves agent 1, and returns whether there was memory for it.
fn is_served<C: Channel, W: Write>(lines: &mut Lines<'_, W>, session: &mut Session<C>) -> bool
    ensures { session.new ≡ session.old }
{
    let served = session.serve();
    lines.answer(
        "serve",
        match served {
            Ok(Served::Done) => "done",
            Ok(Served::Nothing) => "nothing",
            Err(ServeError::Memory) => "memory",
            Err(ServeError::NoAgent) => "no-agent",
        },
    );
    served.is_ok()
}

/// Agent 1 polls for its reply.
fn collect<C: Channel, W: Write>(lines: &mut Lines<'_, W>, session: &mut Session<C>)
    requires { 1 ≤ session.old }
{
    let mut answer = Answer::Released;
    session.look(&mut answer);
    match &answer {
        Answer::Reply(reply) => lines.message("collect", reply),
        _ => lines.answer("collect", "none"),
    }
}

/// Agent 1 closes its channels.
fn close<C: Channel, W: Write>(lines: &mut Lines<'_, W>, session: &mut Session<C>)
    requires { 1 ≤ session.old }
{
    lines.answer(
        "close",
        match session.close() {
            Ok(Closing::Withdrawn) => "withdrawn",
            Ok(Closing::Idle) => "idle",
            Err(_) => "refused",
        },
    );
}

/// Both sides of the board. If memory is refused the core comes back, and is connected again.
pub fn open<C: Channel, W: Write>(alloc: Global, lines: &mut Lines<'_, W>) -> Option<Session<C>>
    ensures { IfSome result (λ session. 1 ≤ session) }
{
    let core = Core::new(alloc, new_plan(alloc, lines)?);
    lines.number("agents", core.agents() as usize);
    match Session::open(alloc, core) {
        Ok(session) => {
            lines.answer("connect", "ok");
            Some(session)
        }
        Err(core) => {
            lines.answer("connect", "memory");
            open_again(alloc, lines, core)
        }
    }
}

fn open_again<C: Channel, W: Write>(
    alloc: Global,
    lines: &mut Lines<'_, W>,
    core: Core,
) -> Option<Session<C>>
    requires history { core.history ≡ [] }
    requires agents { 1 ≤ length core.board.agents }
    ensures { IfSome result (λ session. 1 ≤ session) }
{
    let Ok(session) = Session::open(alloc, core) else {
        return None;
    };
    lines.answer("connect", "ok");
    Some(session)
}
