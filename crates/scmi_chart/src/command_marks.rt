//! Commands that agents posted, those that were not posted, and answers that agents read.
ghost use Rattle.std.specs.Prelude.{◌≡◌, [], ◌∷◌, None, OnOk, get_or, false};
ghost use Rattle.scmi_chart.specs.Detail.{step_detail};
ghost use Rattle.scmi_chart.specs.Signs.{sent_sign, unsent, answered_sign, collected_signs, outcome_of};
ghost use Rattle.scmi_chart.specs.Service.{sets_later};
ghost use Rattle.scmi_chart.specs.Shown.{adds, with_later};

use crate::arrows::{Way, answer_arrow, asked_arrow, refused_arrow};
use crate::mark::{Mark, Side};
use crate::parties::Event;
use crate::posts::sets_later;
use crate::recorder::Recorder;
use crate::sign::{command_mark, outcome_of};
use scmi_codec::Answer;
use scmi_link::{Collected, PostError};
use scmi_text::Step;
use std::alloc::AllocError;

impl<'a> Recorder<'a> {
    /// A command was posted, which is executed in this step or is not yet.
    pub(crate) fn record_post(
        &mut self,
        agent: u8,
        slot: u16,
        step: &Step,
        token: Option<u16>,
        is_executed: bool,
    ) -> Result<(), AllocError>
        ensures { OnOk result (self.new ≡ with_later agent (sets_later step.now)
            (adds (sent_sign is_executed step.now agent token ∷ []) self.old)) }
    {
        let way = Way {
            agent,
            slot,
            taken: slot,
        };
        let message = asked_arrow(self.alloc, self.board, way, step, token)?;
        self.marks.add(command_mark(message, token, is_executed))?;
        self.laters.post(agent, sets_later(step));
        Ok(())
    }

    /// A command was not posted.
    pub(crate) fn record_refusal(
        &mut self,
        agent: u8,
        slot: u16,
        step: &Step,
        refusal: PostError,
    ) -> Result<(), AllocError>
        ensures { OnOk result (self.new ≡ adds (unsent agent
            (step_detail step.now None) ∷ []) self.old) }
    {
        let way = Way {
            agent,
            slot,
            taken: slot,
        };
        let message = refused_arrow(self.alloc, self.board, way, step, refusal)?;
        self.marks.add(Mark::Refused { message })
    }

    /// The agent collected.
    pub(crate) fn record_collect(
        &mut self,
        agent: u8,
        slot: u16,
        collected: &Collected,
    ) -> Result<(), AllocError>
        ensures { OnOk result (self.new ≡ adds (collected_signs agent
            (get_or self.old.laters agent false) collected.now) self.old) }
    {
        match collected {
            Collected::Nothing => self.remark(agent, slot, Side::Agent, "nothing yet"),
            Collected::Closed => self.remark(agent, slot, Side::Agent, "told: closed"),
            Collected::Got(answer) => self.record_answer(agent, slot, answer),
        }
    }

    /// The agent read the answer to its command.
    pub(crate) fn record_answer(
        &mut self,
        agent: u8,
        slot: u16,
        answer: &Answer,
    ) -> Result<(), AllocError>
        ensures { OnOk result (self.new ≡ adds (answered_sign agent answer.now
            (outcome_of answer.now (get_or self.old.laters agent false)) ∷ []) self.old) }
    {
        let outcome = outcome_of(answer, self.laters.is_later(agent));
        let way = Way {
            agent,
            slot: self.parties.take(agent, Event::Answered).unwrap_or(slot),
            taken: slot,
        };
        let message = answer_arrow(self.alloc, self.board, way, answer, outcome)?;
        self.marks.add(Mark::Reply { message, outcome })
    }
}
