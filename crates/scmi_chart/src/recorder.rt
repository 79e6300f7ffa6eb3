//! What a run leaves in its chart, step by step.
ghost use Rattle.std.specs.Prelude.{◌≡◌, OnOk, IfOk, map};
ghost use Rattle.scmi_plan.specs.RawPlan.{asked_board};
ghost use Rattle.scmi_chart.specs.Signs.{sign_of};
ghost use Rattle.scmi_chart.specs.Shown.{nothing_shown, shown_after, head_of, heads_from};

use crate::chart::{Chart, Step as Row};
use crate::laters::Laters;
use crate::levels::Levels;
use crate::lifelines::lifelines_of;
use crate::marks::Marks;
use crate::parties::Parties;
use crate::sign::{lane, raw_token};
use scmi_board::TextLine;
use scmi_core::Core;
use scmi_plan::RawPlan;
use scmi_text::{Step, StepLine};
use std::alloc::{AllocError, Global};
use std::marker::Model;

/// What a run left in its chart so far. A contract sees what each mark shows of the run.
#[derive(Drop)]
pub struct Recorder<'a> {
    pub(crate) alloc: Global,
    pub(crate) board: &'a RawPlan,
    pub(crate) marks: Marks,
    pub(crate) laters: Laters,
    pub(crate) parties: Parties,
    rows: Vec<Row>,
    pub(crate) levels: Levels,
    slots: u16,
}

impl<'a> Model for Recorder<'a> {
    ghost use Rattle.scmi_plan.specs.RawPlan.{asked_board};
    ghost use Rattle.scmi_chart.specs.Shown.{Shown};

    ghost Value = { Shown };

    ghost view = { λ r. record {
      signs = r.marks;
      laters = r.laters;
      board = asked_board r.board.now;
    } };
}

impl<'a> Recorder<'a> {
    /// The chart of a run that has not begun, of a platform with this board.
    pub fn new(alloc: Global, board: &'a RawPlan, core: &Core) -> Result<Recorder<'a>, AllocError>
        ensures { IfOk result (λ recorder. recorder ≡ nothing_shown (asked_board board.now)) }
    {
        Ok(Recorder {
            alloc,
            board,
            marks: Marks::new(alloc),
            laters: Laters::new(alloc)?,
            parties: Parties::new(alloc, board.agents.len())?,
            rows: Vec::new(alloc),
            levels: Levels::new(alloc, core)?,
            slots: 0,
        })
    }

    /// Records a step, which is in this line of the script, its result, and the state of the
    /// platform after it. After an error there are as many marks as memory allowed.
    pub fn record(
        &mut self,
        script: TextLine<'_>,
        step: &Step,
        came: &StepLine,
        core: &Core,
    ) -> Result<(), AllocError>
        ensures marks { OnOk result (self.new ≡ shown_after step.now came.now self.old) }
    {
        let slot = self.slots;
        self.begin(script, step, came)?;
        self.levels.look(core, slot.saturating_add(1))?;
        self.mark(slot, step, came, core)
    }

    /// Records that the notification of a domain's state for an agent was dropped in the step that was
    /// recorded last.
    pub fn record_dropped(&mut self, agent: u32, domain: u32) -> Result<(), AllocError>
        ensures { OnOk result (self.new ≡ self.old) }
    {
        let levels = &mut self.levels;
        levels.add_dropped(self.alloc, self.board, agent, domain)
    }

    /// Gives a step its slots: two if a command is posted in it and its reply read.
    fn begin(
        &mut self,
        script: TextLine<'_>,
        step: &Step,
        came: &StepLine,
    ) -> Result<(), AllocError>
        ensures { self.new ≡ self.old }
    {
        let slots = match (step, came) {
            (Step::Do { .. } | Step::Fail { .. }, StepLine::Collected { .. }) => 2,
            _ => 1,
        };
        self.rows.push(Row {
            number: self.rows.len().min(0xffff) as u16,
            line: script.number,
            slot: self.slots,
            slots,
            text: Vec::from_slice(self.alloc, script.text)?,
        })?;
        self.slots = self.slots.saturating_add(slots);
        Ok(())
    }

    /// Marks what came of a step, after which the platform is in this state.
    fn mark(
        &mut self,
        slot: u16,
        step: &Step,
        came: &StepLine,
        core: &Core,
    ) -> Result<(), AllocError>
        ensures { OnOk result (self.new ≡ shown_after step.now came.now self.old) }
    {
        match came {
            StepLine::Token { agent, token } => self.record_post(
                lane(*agent),
                slot,
                step,
                Some(*token),
                false,
            ),
            StepLine::Posted { agent } => self.record_post(
                lane(*agent),
                slot,
                step,
                raw_token(step),
                false,
            ),
            StepLine::NotPosted { agent, refusal } => {
                self.record_refusal(lane(*agent), slot, step, *refusal)
            }
            StepLine::Served { agent, served } => self.record_serve(lane(*agent), slot, *served),
            StepLine::Collected { agent, collected } => match step {
                Step::Do { .. } => self.record_exchange(lane(*agent), slot, step, collected),
                Step::Fail { fault, .. } => {
                    self.record_refused(lane(*agent), slot, *fault, step, collected)
                }
                _ => self.record_collect(lane(*agent), slot, collected),
            },
            StepLine::Advanced { more } => self.record_advance(slot, *more),
            StepLine::AdvanceFailed { more } => self.record_failure(slot, *more),
            StepLine::Reported { taken } => self.record_report(slot, step, *taken, core),
            StepLine::Flushed { agent, flushed } => self.record_flush(lane(*agent), slot, *flushed),
            StepLine::P2a { agent, frame } => self.record_take(lane(*agent), slot, frame),
            StepLine::Closed { agent, closing } => self.record_close(lane(*agent), slot, closing),
            StepLine::Shut {
                agent,
                result: closing,
            } => self.record_shut(lane(*agent), slot, closing),
            StepLine::Restarted { agent } => self.record_restart(lane(*agent), slot),
            StepLine::Trace { .. } => Ok(()),
        }
    }

    /// The chart of the run, with this title and this line below it.
    pub fn finish(self, title: Vec<u8>, subtitle: Vec<u8>) -> Result<Chart, AllocError>
        ensures marks { IfOk result (λ chart. map sign_of chart.marks.items ≡ self.entry.signs) }
        ensures lifelines { IfOk result (λ chart.
            map head_of chart.lifelines.items ≡ heads_from 1 self.entry.board.agents) }
    {
        let end = self.slots.saturating_add(1);
        Ok(Chart {
            title,
            subtitle,
            slots: self.slots,
            lifelines: lifelines_of(self.alloc, self.board, &self.parties)?,
            steps: self.rows,
            marks: self.marks.into_vec(),
            columns: self.levels.columns(self.alloc, self.board, end)?,
        })
    }
}
