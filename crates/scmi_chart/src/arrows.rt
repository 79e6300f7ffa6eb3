//! The messages of a chart, each with its words.
ghost use Rattle.std.specs.Prelude.{◌≡◌, IfOk, None};
ghost use Rattle.scmi_chart.specs.Detail.{answer_detail, message_detail, step_detail};
ghost use Rattle.scmi_chart.specs.Signs.{detail_of};

use crate::asked::asked_label;
use crate::detail::{answer_detail, message_detail, step_detail};
use crate::mark::{Message as Arrow, Outcome};
use crate::posted_label::posted_label;
use crate::reply_label::answer_label;
use scmi_codec::{Answer, Message};
use scmi_link::PostError;
use scmi_plan::RawPlan;
use scmi_text::Step;
use std::alloc::{AllocError, Global};

/// Whose message it is, in which slot it leaves, and in which it is taken.
#[derive(Clone, Copy)]
pub(crate) struct Way {
    pub agent: u8,
    pub slot: u16,
    pub taken: u16,
}

/// The command of a step, which has this token if it is known.
pub(crate) fn asked_arrow(
    alloc: Global,
    board: &RawPlan,
    way: Way,
    step: &Step,
    token: Option<u16>,
) -> Result<Arrow, AllocError>
    ensures agent { IfOk result (λ arrow. arrow.agent ≡ way.agent) }
    ensures says { IfOk result (λ arrow.
        detail_of arrow ≡ step_detail step.now token) }
{
    Ok(Arrow {
        agent: way.agent,
        slot: way.slot,
        taken: way.taken,
        label: asked_label(alloc, board, step)?,
        detail: step_detail(alloc, step, token)?,
    })
}

/// The command of a step that was not posted.
pub(crate) fn refused_arrow(
    alloc: Global,
    board: &RawPlan,
    way: Way,
    step: &Step,
    refusal: PostError,
) -> Result<Arrow, AllocError>
    ensures agent { IfOk result (λ arrow. arrow.agent ≡ way.agent) }
    ensures says { IfOk result (λ arrow.
        detail_of arrow ≡ step_detail step.now None) }
{
    let tag = Vec::from_slice(alloc, refusal_words(refusal).as_bytes())?;
    let mut arrow = asked_arrow(alloc, board, way, step, None)?;
    arrow.label.tag = tag;
    Ok(arrow)
}

/// Why a post was refused, in words.
fn refusal_words(refusal: PostError) -> &'static str {
    match refusal {
        PostError::Outstanding => "not posted: outstanding",
        PostError::Closed => "not posted: closed",
        PostError::Full => "not posted: full",
        PostError::WellFormed => "not posted: well formed",
    }
}

/// An answer with this outcome.
pub(crate) fn answer_arrow(
    alloc: Global,
    board: &RawPlan,
    way: Way,
    answer: &Answer,
    outcome: Outcome,
) -> Result<Arrow, AllocError>
    ensures agent { IfOk result (λ arrow. arrow.agent ≡ way.agent) }
    ensures says { IfOk result (λ arrow.
        detail_of arrow ≡ answer_detail answer.now) }
{
    Ok(Arrow {
        agent: way.agent,
        slot: way.slot,
        taken: way.taken,
        label: answer_label(alloc, board, answer, outcome)?,
        detail: answer_detail(alloc, answer)?,
    })
}

/// A message of the platform's own accord.
pub(crate) fn posted_arrow(
    alloc: Global,
    board: &RawPlan,
    way: Way,
    message: &Message,
) -> Result<Arrow, AllocError>
    ensures agent { IfOk result (λ arrow. arrow.agent ≡ way.agent) }
    ensures says { IfOk result (λ arrow.
        detail_of arrow ≡ message_detail message.now) }
{
    Ok(Arrow {
        agent: way.agent,
        slot: way.slot,
        taken: way.taken,
        label: posted_label(alloc, board, message)?,
        detail: message_detail(alloc, message)?,
    })
}
