//! The board that all calls are made on, and its plan.

use crate::probe::lines::Lines;
use scmi_board::{TextError, read_board};
use scmi_plan::{Plan, PlanError, RawPlan};
use std::alloc::Global;
use std::io::Write;

/// The board of the mode `once`.
const BOARD: &[u8] = b"board Acme Lab 0x00010000 1
agent ap
agent modem
domain cpu off san
domain gpu on s
domain usb off an
clock core on 100 list 100,200,300
clock bus off 1000 steps 1000 4000 500
clock pix on 1 list 1,2,3,4,5,6,7,8,9,10,11,12,13,14,15,16,17,18,19,20
device 0 0
device 1 -
end
";

/// The plan of the board. If memory is refused it is made again.
pub fn new_plan<W: Write>(alloc: Global, lines: &mut Lines<'_, W>) -> Option<Plan> {
    let raw = match read(alloc) {
        Ok(raw) => raw,
        Err(_) => {
            lines.answer("board", "memory");
            read(alloc).ok()?
        }
    };
    match check(alloc, lines, &raw) {
        Some(plan) => Some(plan),
        None => check(alloc, lines, &raw),
    }
}

fn read(alloc: Global) -> Result<RawPlan, TextError> {
    read_board(alloc, &mut scmi_board::Lines::new(BOARD))
}

fn check<W: Write>(alloc: Global, lines: &mut Lines<'_, W>, raw: &RawPlan) -> Option<Plan> {
    let checked = Plan::check(alloc, raw);
    let answer = match &checked {
        Ok(_) => "ok",
        Err(PlanError::Memory) => "memory",
        Err(_) => "fault",
    };
    lines.answer("check", answer);
    checked.ok()
}
