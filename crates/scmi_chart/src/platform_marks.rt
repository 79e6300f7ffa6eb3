//! Commands that the platform executed, pending sets that it was to end, messages that it sends of
//! its own accord, agents that restart, and words beside lifelines, of what came to nothing.
ghost use Rattle.std.specs.Prelude.{◌≡◌, OnOk, [], ◌∷◌};
ghost use Rattle.scmi_chart.specs.Signs.{served_signs, advanced, failed_signs, flushed_signs, taken_signs, remarked, restarted};
ghost use Rattle.scmi_chart.specs.Service.{if_done};
ghost use Rattle.scmi_chart.specs.Shown.{serves, adds};

use crate::arrows::{Way, posted_arrow};
use crate::board_names::agent_name;
use crate::mark::{Mark, Side};
use crate::parties::Event;
use crate::recorder::Recorder;
use crate::sign::posted_mark;
use scmi_codec::Frame;
use scmi_link::{Flushed, Served};
use std::alloc::AllocError;

impl<'a> Recorder<'a> {
    /// The platform served an agent.
    pub(crate) fn record_serve(
        &mut self,
        agent: u8,
        slot: u16,
        served: Served,
    ) -> Result<(), AllocError>
        ensures { OnOk result (self.new
            ≡ serves (if_done agent served) (served_signs agent served) self.old) }
    {
        match served {
            Served::Nothing => self.remark(agent, slot, Side::Platform, "nothing to serve"),
            Served::Done => {
                self.parties.set(agent, Event::Answered, Some(slot));
                self.marks.serve(agent, slot);
                self.marks.add(Mark::Execution { slot, until: slot })
            }
        }
    }

    /// The platform was to complete a pending set.
    pub(crate) fn record_advance(&mut self, slot: u16, more: bool) -> Result<(), AllocError>
        ensures { OnOk result (self.new ≡ adds (advanced more ∷ []) self.old) }
    {
        let text = if more {
            self.levels
                .news(self.alloc, self.board, slot.saturating_add(1))?
        } else {
            Vec::from_slice(self.alloc, b"nothing pending")?
        };
        self.marks.add(Mark::Advance {
            slot,
            is_effective: more,
            text,
        })
    }

    /// The platform was to end a pending set, whose change the hardware refused.
    pub(crate) fn record_failure(&mut self, slot: u16, more: bool) -> Result<(), AllocError>
        ensures { OnOk result (self.new ≡ adds (failed_signs more) self.old) }
    {
        if !more {
            return self.record_advance(slot, false);
        }
        let text = Vec::from_slice(self.alloc, b"failed: hardware refused")?;
        self.marks.add(Mark::Failed { slot, text })
    }

    /// The platform was to post the first message of an agent's outbox.
    pub(crate) fn record_flush(
        &mut self,
        agent: u8,
        slot: u16,
        flushed: Flushed,
    ) -> Result<(), AllocError>
        ensures { OnOk result (self.new ≡ adds (flushed_signs agent flushed) self.old) }
    {
        match flushed {
            Flushed::Nothing => self.remark(agent, slot, Side::Platform, "outbox empty"),
            Flushed::Waiting => self.remark(agent, slot, Side::Platform, "channel still busy"),
            Flushed::Closed => self.remark(agent, slot, Side::Platform, "channel closed"),
            Flushed::Posted => {
                self.parties.set(agent, Event::Posted, Some(slot));
                self.marks.add(Mark::Posted { slot })
            }
        }
    }

    /// The agent was to take a message.
    pub(crate) fn record_take(
        &mut self,
        agent: u8,
        slot: u16,
        frame: &Option<Frame>,
    ) -> Result<(), AllocError>
        ensures { OnOk result (self.new
            ≡ adds (taken_signs agent frame.now) self.old) }
    {
        match frame {
            None => self.remark(agent, slot, Side::Agent, "no message"),
            Some(Frame::Good(message)) => {
                let way = Way {
                    agent,
                    slot: self.parties.take(agent, Event::Posted).unwrap_or(slot),
                    taken: slot,
                };
                let arrow = posted_arrow(self.alloc, self.board, way, message)?;
                self.marks.add(posted_mark(arrow, &message.header))
            }
            Some(Frame::Malformed { .. }) => {
                self.remark(agent, slot, Side::Agent, "a malformed message")
            }
        }
    }

    /// Words beside a lifeline.
    pub(crate) fn remark(
        &mut self,
        agent: u8,
        slot: u16,
        beside: Side,
        text: &str,
    ) -> Result<(), AllocError>
        ensures { OnOk result (self.new ≡ adds (remarked agent ∷ []) self.old) }
    {
        let text = Vec::from_slice(self.alloc, text.as_bytes())?;
        self.marks.add(Mark::Remark {
            agent,
            slot,
            beside,
            text,
        })
    }

    /// The platform ended what an agent asked for that restarted.
    pub(crate) fn record_restart(&mut self, agent: u8, slot: u16) -> Result<(), AllocError>
        ensures { OnOk result (self.new ≡ adds (restarted agent ∷ []) self.old) }
    {
        let text = agent_name(self.alloc, self.board, u32::from(agent))?;
        self.marks.add(Mark::Restarted { agent, slot, text })
    }
}
