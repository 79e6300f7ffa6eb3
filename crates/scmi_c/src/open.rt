//! Platforms are made and freed.
ghost use Rattle.std.specs.Prelude.{◌≡◌, ◌≢◌, ◌↔◌, ◌⊎◌, [], None, Ok, Err, IsSomeAnd, true};
ghost use Rattle.scmi_plan.specs.Plan.{IsValid};
ghost use Rattle.scmi_c.specs.Board.{IsFault, board_of_text};
ghost use Rattle.scmi_c.specs.Driven.{IsDriven};
ghost use Rattle.scmi_c.specs.Kept.{IsFree};
ghost use Rattle.scmi_c.specs.Standing.{IsCounted, StandsAt, board_of};
ghost use Rattle.scmi_c.specs.declared.code.TheConstants.{DONE, IN_USE, MEMORY};

use crate::board::read_plan;
use crate::code::{DONE, IN_USE, MEMORY};
use crate::desk::Desk;
use crate::handle::Handle;
use crate::held::Held;
use scmi_plan::Plan;
use std::alloc::Global;

/// Makes a platform of a board's text, which takes no memory from then on.
/// `DONE`; `IN_USE` if the handle holds a platform; else the number of the text's fault
/// (`read_plan`). After another number than `DONE` the handle is as it was.
#[unsafe(no_mangle)]
pub extern "C" fn scmi_platform_new(alloc: Global, platform: &mut Handle, board: &[u8]) -> u32
    ensures done { result ≡ DONE →
        IsSomeAnd platform.new.value (λ p. IsFree p
        × (board_of_text board.now ≡ Ok (board_of p.held)) × StandsAt p.held []
        × IsValid (board_of p.held) × (¬ (IsCounted p.held))) }
    ensures driven { result ≡ DONE → IsSomeAnd platform.new.value (λ p. IsDriven p.held []) }
    ensures fault { (result ≡ DONE) ⊎ (result ≡ IN_USE) ⊎ (result ≡ MEMORY)
        ⊎ (board_of_text board.now ≡ Err result) }
    ensures in_use { (result ≡ IN_USE) ↔ (platform.old.value ≢ None) }
    ensures faults { (result ≡ DONE) ⊎ (result ≡ IN_USE) ⊎ IsFault result }
    ensures kept { result ≢ DONE → platform.new.value ≡ platform.old.value }
{
    if let Some(desk) = platform.take(alloc) {
        platform.put(desk);
        return IN_USE;
    }
    match read_plan(alloc, board) {
        Ok(plan) => hold(alloc, platform, plan, false),
        Err(fault) => fault,
    }
}

/// As `scmi_platform_new`, of a platform whose events are counted.
#[unsafe(no_mangle)]
pub extern "C" fn scmi_platform_new_recorded(
    alloc: Global,
    platform: &mut Handle,
    board: &[u8],
) -> u32
    ensures done { result ≡ DONE →
        IsSomeAnd platform.new.value (λ p. IsFree p
        × (board_of_text board.now ≡ Ok (board_of p.held)) × StandsAt p.held []
        × IsValid (board_of p.held) × IsCounted p.held) }
    ensures driven { result ≡ DONE → IsSomeAnd platform.new.value (λ p. IsDriven p.held []) }
    ensures fault { (result ≡ DONE) ⊎ (result ≡ IN_USE) ⊎ (result ≡ MEMORY)
        ⊎ (board_of_text board.now ≡ Err result) }
    ensures in_use { (result ≡ IN_USE) ↔ (platform.old.value ≢ None) }
    ensures faults { (result ≡ DONE) ⊎ (result ≡ IN_USE) ⊎ IsFault result }
    ensures kept { result ≢ DONE → platform.new.value ≡ platform.old.value }
{
    if let Some(desk) = platform.take(alloc) {
        platform.put(desk);
        return IN_USE;
    }
    match read_plan(alloc, board) {
        Ok(plan) => hold(alloc, platform, plan, true),
        Err(fault) => fault,
    }
}

/// Puts a new platform into the heap and its handle. Its parts are no locals of the caller's, which
/// reads the board.
#[inline(never)]
pub fn hold(alloc: Global, platform: &mut Handle, plan: Plan, is_counted: bool) -> u32
    requires { platform.old.value ≡ None }
    ensures done { result ≡ DONE →
        IsSomeAnd platform.new.value (λ p. IsFree p × (board_of p.held ≡ plan)
        × StandsAt p.held [] × (IsCounted p.held ↔ (is_counted ≡ true))) }
    ensures driven { result ≡ DONE → IsSomeAnd platform.new.value (λ p. IsDriven p.held []) }
    ensures errors { (result ≡ DONE) ⊎ (result ≡ MEMORY) }
    ensures kept { result ≢ DONE → platform.new.value ≡ platform.old.value }
{
    match Box::new(alloc, Desk::new(Held::new(plan, is_counted))) {
        Ok(desk) => {
            platform.put(desk);
            DONE
        }
        Err(_) => MEMORY,
    }
}

/// Frees a platform; the handle then holds none. If it held none, nothing is done.
#[unsafe(no_mangle)]
pub extern "C" fn scmi_platform_free(alloc: Global, platform: &mut Handle)
    ensures { platform.new.value ≡ None }
{
    let _desk = platform.take(alloc);
}
