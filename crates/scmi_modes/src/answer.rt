//! The answer to the frame of an area, in place.
ghost use Rattle.std.specs.Prelude.{◌≡◌, [], IfErr, IfOk, OnOk, OnErr};
ghost use Rattle.scmi_codec.specs.Area.{area_after_answer};
ghost use Rattle.scmi_core.specs.BoardB.{board_b};
ghost use Rattle.scmi_core.specs.History.{answer_to, answer_with};
ghost use Rattle.scmi_modes.specs.Once.{answered_area};

use crate::reference_board::reference_board;
use crate::run_error::RunError;
use scmi_codec::{AREA_BYTES, Answer, Frame, Message, read_area, write_answer, write_reply};
use scmi_core::{Answered, Platform};
use scmi_plan::Plan;
use std::alloc::Global;

/// Answers the frame of an area in place: agent 1's first command on a new platform of the reference
/// board. The area of a free channel stays as it is. The only error is `Memory`, and then the area
/// stays as it is.
pub fn answer_area(alloc: Global, area: &mut [u8; AREA_BYTES]) -> Result<(), RunError>
    ensures ok { OnOk result (area.new ≡ answered_area area.old) }
    ensures err { OnErr result (area.new ≡ area.old) }
    ensures errors { IfErr result (λ e. e ≡ RunError.Memory) }
{
    let Ok(Some(frame)) = read_area(area) else {
        return Ok(());
    };
    let plan = reference_plan(alloc)?;
    let mut reply = Message::default();
    let answered = answer_first(plan, &frame, &mut reply);
    put_answer(area, answered, &reply);
    Ok(())
}

/// The answer of a new platform of this board to agent 1's first command, with the reply written
/// into `reply`.
fn answer_first(plan: Plan, frame: &Frame, reply: &mut Message) -> Answered
    ensures { answer_with result reply.new ≡ answer_to plan 1 frame.now [] }
{
    match Platform::new(plan).command(1, frame, reply) {
        Ok(answered) => answered,
        // Each board has an agent 1.
        Err(_) => Answered::ChannelError,
    }
}

/// Writes an answer over the frame of an area.
fn put_answer(area: &mut [u8; AREA_BYTES], answered: Answered, reply: &Message)
    ensures { area.new ≡ area_after_answer (answer_with answered reply.now) area.old }
{
    let _ = match answered {
        Answered::Reply => write_reply(area, reply),
        Answered::ChannelError => write_answer(area, &Answer::ChannelError),
    };
}

/// The plan of the reference board, which is valid, so that the only error is `Memory`.
fn reference_plan(alloc: Global) -> Result<Plan, RunError>
    ensures plan { IfOk result (λ plan. plan ≡ board_b) }
    ensures errors { IfErr result (λ e. e ≡ RunError.Memory) }
{
    Plan::check(alloc, &reference_board(alloc)?).map_err(|_| RunError::Memory)
}
