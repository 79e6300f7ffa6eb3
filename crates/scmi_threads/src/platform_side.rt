//! The platform's side of a run: the controller's rounds.
ghost use Rattle.std.specs.Prelude.{◌≡◌, Err, true};
ghost use Rattle.scmi_ends.specs.Links.{HasLinks};
ghost use Rattle.scmi_threads.specs.Rounds.{IsOpenToAll, GoesOn};

use scmi_core::Hardware;
use scmi_ends::{Controller, Link, Processors, ServeError};
use scmi_link::Channel;
use std::sync::Wait;
use std::sync::atomic::{AtomicUsize, Ordering};
use std::thread::yield_now;

/// Runs rounds until one after all scripts have ended, or one that was refused memory. Returns
/// whether memory was refused. On one processor the agents have their turn after each round.
#[tactic(auto, using(crate::proofs::RoundLemmas::and_on))]
pub(crate) fn run_rounds<C: Channel, H: Hardware, R: Wait>(
    rt: &R,
    processors: Processors,
    links: &[Link<C>],
    ended: &AtomicUsize,
    mut controller: Controller<C>,
    mut hardware: H,
) -> (Controller<C>, bool, H)
    requires links { HasLinks C.identity links.now controller }
    requires open_ends { IsOpenToAll controller }
    ensures goes_on { GoesOn H.REFUSES C.identity links.now controller (H.asked hardware)
        result.0 (H.asked result.2) }
    ensures memory { result.1 ≡ true → result.0.room ≡ 0 }
{
    let mut memory = false;
    'rounds: for _ in rt.forever() {
        let last = ended.load(Ordering::SeqCst) >= links.len();
        let round = run_round(&mut controller, links, &mut hardware);
        memory = matches!(round, Err(ServeError::Memory));
        if round.is_err() || last {
            break;
        }
        if processors == Processors::One {
            yield_now();
        }
    }
    (controller, memory, hardware)
}

// Serves each agent, completes one pending set, and flushes each agent's outbox.
#[tactic(auto, using(crate::proofs::RoundLemmas::and_served, crate::proofs::RoundLemmas::and_advanced))]
fn run_round<C: Channel, H: Hardware>(
    controller: &mut Controller<C>,
    links: &[Link<C>],
    hardware: &mut H,
) -> Result<(), ServeError>
    requires links { HasLinks C.identity links.now controller.old }
    requires open_ends { IsOpenToAll controller.old }
    ensures goes_on { GoesOn H.REFUSES C.identity links.now controller.old (H.asked hardware.old)
        controller.new (H.asked hardware.new) }
    ensures memory { result ≡ Err ServeError.Memory → controller.new.room ≡ 0 }
{
    let agents = controller.core().agents();
    'served: for agent in 1..agents.saturating_add(1) {
        controller.serve_on(links, agent, hardware)?;
    }
    controller.advance_on(hardware)?;
    'flushed: for agent in 1..agents.saturating_add(1) {
        controller.flush(links, agent)?;
    }
    Ok(())
}
