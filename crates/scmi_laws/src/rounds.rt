//! One round of the platform: each agent is served, one pending set ends, each outbox is flushed.
ghost use Rattle.std.specs.Prelude.{◌≡◌, ◌+◌, ◌*◌, ◌≤◌, ℕ, List, length, OnOk, IfErr};
ghost use Rattle.scmi_plan.specs.Agent.{IsAgent};
ghost use Rattle.scmi_core.specs.Asked.{Asked};
ghost use Rattle.scmi_core.specs.Driven.{HasMade, asks};
ghost use Rattle.scmi_ends.specs.Agreement.{IsInStep};
ghost use Rattle.scmi_ends.specs.ControllerView.{callee_of, caller_of};
ghost use Rattle.scmi_ends.specs.Links.{HasLinks};
ghost use Rattle.scmi_laws.specs.Round.{AddsAtMostOneEach, AddsFairly, EndsFirst, HasPostedAll, IsCommand, IsFlushedOnce, IsOrderly, IsPosting, IsServedOnce};

use scmi_core::Hardware;
use scmi_ends::{Controller, Link, ServeError};
use scmi_link::Channel;

/// Serves each agent once, in order of their numbers; then ends the first pending set, if there is
/// one; then flushes each agent's outbox once, in the same order.
///
/// Condition: the links are the whole list of `connect`, in order. After `Ok` no agent is owed an
/// answer: each command that was taken is answered. The first set is gone of those that were
/// pending and those that this round's commands left pending. An agent for which a message still
/// waits has one in its channel that it did not take or whose release was not read, or the channel
/// is closed, or has no place. The same after a round that is cut off: no agent had two commands
/// executed or two messages posted, and no two sets ended.
///
/// `Memory` if the trace could not grow is the only error. What was done until then stays: each
/// command that was taken is answered, and the endpoints agree with the history.
///
/// Nothing is promised of time, nor that a command which another thread has just posted is taken in
/// this round: that is the channel's own affair.
pub fn run_round<C: Channel, H: Hardware>(
    platform: &mut Controller<C>,
    links: &[Link<C>],
    hardware: &mut H,
) -> Result<(), ServeError>
    requires { HasLinks C.identity links.now platform.old }
    ensures links { HasLinks C.identity links.now platform.new }
    ensures agrees { IsInStep platform.new }
    ensures board { platform.new.board ≡ platform.old.board }
    ensures made { (before : List Asked)
        → HasMade before platform.old.board platform.old.history (H.asked hardware.old)
        → HasMade before platform.new.board platform.new.history (H.asked hardware.new) }
    ensures answered { OnOk result ((a : ℕ) → IsAgent (length platform.old.board.agents) a
        → IsServedOnce (callee_of platform.old a) (callee_of platform.new a)) }
    ensures pending { OnOk result
        (EndsFirst platform.old.board platform.old.history platform.new.history) }
    ensures flushed { OnOk result ((a : ℕ) → IsAgent (length platform.old.board.agents) a
        → IsFlushedOnce (caller_of platform.old a) (caller_of platform.new a)) }
    ensures posted { OnOk result ((a : ℕ) → IsAgent (length platform.old.board.agents) a
        → IsOrderly (caller_of platform.old a)
        → HasPostedAll C.FULL platform.old.board a platform.new.history
        (caller_of platform.new a)) }
    ensures orderly { (a : ℕ) → IsAgent (length platform.old.board.agents) a
        → IsOrderly (caller_of platform.old a) → IsOrderly (caller_of platform.new a) }
    ensures fair { AddsFairly (length platform.old.board.agents)
        platform.old.history platform.new.history }
    ensures grows { length platform.new.history
        ≤ length platform.old.history + (2 * length platform.old.board.agents + 1) }
    ensures memory { IfErr result (λ error.
        (error ≡ ServeError.Memory) × (platform.new.room ≡ 0)) }
{
    serve_each(platform, links, hardware)?;
    platform.advance_on(hardware)?;
    flush_each(platform, links)
}

// Serves each agent once.
fn serve_each<C: Channel, H: Hardware>(
    platform: &mut Controller<C>,
    links: &[Link<C>],
    hardware: &mut H,
) -> Result<(), ServeError>
    requires { HasLinks C.identity links.now platform.old }
    ensures links { HasLinks C.identity links.now platform.new }
    ensures agrees { IsInStep platform.new }
    ensures board { platform.new.board ≡ platform.old.board }
    ensures callers { platform.new.callers ≡ platform.old.callers }
    ensures made { (before : List Asked)
        → HasMade before platform.old.board platform.old.history (H.asked hardware.old)
        → HasMade before platform.new.board platform.new.history (H.asked hardware.new) }
    ensures commands { AddsAtMostOneEach IsCommand (length platform.old.board.agents + 1)
        platform.old.history platform.new.history }
    ensures answered { OnOk result ((a : ℕ) → IsAgent (length platform.old.board.agents) a
        → IsServedOnce (callee_of platform.old a) (callee_of platform.new a)) }
    ensures memory { IfErr result (λ error.
        (error ≡ ServeError.Memory) × (platform.new.room ≡ 0)) }
{
    let agents = platform.core().agents();
    'served: for agent in 1..agents + 1 {
        platform.serve_on(links, agent, hardware)?;
    }
    Ok(())
}

// Flushes each agent's outbox once.
fn flush_each<C: Channel>(platform: &mut Controller<C>, links: &[Link<C>]) -> Result<(), ServeError>
    requires { HasLinks C.identity links.now platform.old }
    ensures links { HasLinks C.identity links.now platform.new }
    ensures agrees { IsInStep platform.new }
    ensures board { platform.new.board ≡ platform.old.board }
    ensures callees { platform.new.callees ≡ platform.old.callees }
    ensures made { asks platform.new.board platform.new.history
        ≡ asks platform.old.board platform.old.history }
    ensures postings { AddsAtMostOneEach IsPosting (length platform.old.board.agents + 1)
        platform.old.history platform.new.history }
    ensures flushed { OnOk result ((a : ℕ) → IsAgent (length platform.old.board.agents) a
        → IsFlushedOnce (caller_of platform.old a) (caller_of platform.new a)) }
    ensures posted { OnOk result ((a : ℕ) → IsAgent (length platform.old.board.agents) a
        → IsOrderly (caller_of platform.old a)
        → HasPostedAll C.FULL platform.old.board a platform.new.history
        (caller_of platform.new a)) }
    ensures orderly { (a : ℕ) → IsAgent (length platform.old.board.agents) a
        → IsOrderly (caller_of platform.old a) → IsOrderly (caller_of platform.new a) }
    ensures memory { IfErr result (λ error.
        (error ≡ ServeError.Memory) × (platform.new.room ≡ 0)) }
{
    let agents = platform.core().agents();
    'flushed: for agent in 1..agents + 1 {
        platform.flush(links, agent)?;
    }
    Ok(())
}
