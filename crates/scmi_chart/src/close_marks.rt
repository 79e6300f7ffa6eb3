//! Closes of channels, from either side.
ghost use Rattle.std.specs.Prelude.{◌≡◌, OnOk};
ghost use Rattle.scmi_chart.specs.Signs.{closed_signs, shut_signs};
ghost use Rattle.scmi_chart.specs.Shown.{adds};

use crate::board_names::agent_name;
use crate::mark::{Mark, Side};
use crate::parties::Event;
use crate::recorder::Recorder;
use crate::value::{Value, filled_words};
use scmi_link::{CloseError, Closing, ShutError};
use scmi_plan::RawPlan;
use std::alloc::{AllocError, Global};

impl<'a> Recorder<'a> {
    /// The agent's end was to be closed.
    pub(crate) fn record_close(
        &mut self,
        agent: u8,
        slot: u16,
        closing: &Result<Closing, CloseError>,
    ) -> Result<(), AllocError>
        ensures { OnOk result (self.new ≡ adds (closed_signs agent closing.now) self.old) }
    {
        let text = match closing {
            Err(CloseError::InService) => {
                return self.remark(agent, slot, Side::Agent, "close refused: in service");
            }
            Err(CloseError::ReplyWaiting) => {
                return self.remark(agent, slot, Side::Agent, "close refused: reply waiting");
            }
            Ok(Closing::Idle) => "closes",
            Ok(Closing::Withdrawn) => "closes: command withdrawn",
        };
        self.parties.set(agent, Event::Closed, Some(slot));
        self.marks.add(Mark::Closed {
            agent,
            slot,
            by: Side::Agent,
            text: Vec::from_slice(self.alloc, text.as_bytes())?,
        })
    }

    /// The platform's endpoints of an agent's channels were to be closed.
    pub(crate) fn record_shut(
        &mut self,
        agent: u8,
        slot: u16,
        closing: &Result<(), ShutError>,
    ) -> Result<(), AllocError>
        ensures { OnOk result (self.new ≡ adds (shut_signs agent closing.now) self.old) }
    {
        match closing {
            Err(_) => self.remark(agent, slot, Side::Platform, "close refused"),
            Ok(()) => {
                let text = shut_words(self.alloc, self.board, agent)?;
                self.marks.add(Mark::Closed {
                    agent,
                    slot,
                    by: Side::Platform,
                    text,
                })
            }
        }
    }
}

/// Whose channels the platform closes.
fn shut_words(alloc: Global, board: &RawPlan, agent: u8) -> Result<Vec<u8>, AllocError> {
    let name = agent_name(alloc, board, u32::from(agent))?;
    filled_words(alloc, "closes the channels of %", &[Value::Words(&name)])
}
