//! Commands that were posted, served and collected in one step.
ghost use Rattle.std.specs.Prelude.{◌≡◌, [], ◌∷◌, true, OnOk, Some, is_some};
ghost use Rattle.scmi_chart.specs.Signs.{exchange_signs, executed, fault_signs, sent_sign};
ghost use Rattle.scmi_chart.specs.Service.{if_got, sets_later};
ghost use Rattle.scmi_chart.specs.Shown.{adds, exchanged, serves, with_later};

use crate::mark::Mark;
use crate::parties::Event;
use crate::recorder::Recorder;
use crate::sign::{has_fault, reply_token};
use crate::value::{Value, filled_words};
use scmi_codec::Fault;
use scmi_link::Collected;
use scmi_text::Step;
use std::alloc::{AllocError, Global};

impl<'a> Recorder<'a> {
    /// A command was posted, served and collected, in this order.
    pub(crate) fn record_exchange(
        &mut self,
        agent: u8,
        slot: u16,
        step: &Step,
        collected: &Collected,
    ) -> Result<(), AllocError>
        ensures { OnOk result (self.new ≡ exchanged step.now agent collected.now [] self.old) }
    {
        self.record_service(agent, slot, step, collected)?;
        self.record_collect(agent, slot.saturating_add(1), collected)
    }

    /// A command was posted, served beside hardware that refuses with this fault, and collected, in
    /// this order.
    pub(crate) fn record_refused(
        &mut self,
        agent: u8,
        slot: u16,
        fault: Fault,
        step: &Step,
        collected: &Collected,
    ) -> Result<(), AllocError>
        ensures { OnOk result (self.new ≡ exchanged step.now agent collected.now
            (fault_signs fault agent collected.now) self.old) }
    {
        self.record_service(agent, slot, step, collected)?;
        self.record_fault(agent, slot, fault, collected)?;
        self.record_collect(agent, slot.saturating_add(1), collected)
    }

    /// A command was posted and, if its answer is collected in the same step, executed.
    pub(crate) fn record_service(
        &mut self,
        agent: u8,
        slot: u16,
        step: &Step,
        collected: &Collected,
    ) -> Result<(), AllocError>
        ensures { OnOk result (self.new ≡ with_later agent (sets_later step.now)
            (serves (if_got agent collected.now) (exchange_signs (is_some (if_got agent collected.now)) step.now agent collected.now) self.old)) }
    {
        let token = reply_token(collected);
        match collected {
            Collected::Got(_) => self.record_executed(agent, slot, step, token),
            _ => self.record_post(agent, slot, step, token, false),
        }
    }

    /// A command was posted, and executed in this slot.
    fn record_executed(
        &mut self,
        agent: u8,
        slot: u16,
        step: &Step,
        token: Option<u16>,
    ) -> Result<(), AllocError>
        ensures { OnOk result (self.new ≡ with_later agent (sets_later step.now)
            (serves (Some agent)
            (sent_sign true step.now agent token ∷ executed ∷ []) self.old)) }
    {
        let until = slot.saturating_add(1);
        self.parties.set(agent, Event::Answered, Some(until));
        self.marks.serve(agent, slot);
        self.record_post(agent, slot, step, token, true)?;
        self.marks.add(Mark::Execution { slot, until })
    }

    /// The hardware refuses with this fault, if the reply has its status.
    pub(crate) fn record_fault(
        &mut self,
        agent: u8,
        slot: u16,
        fault: Fault,
        collected: &Collected,
    ) -> Result<(), AllocError>
        ensures { OnOk result (self.new ≡ adds (fault_signs fault agent collected.now) self.old) }
    {
        if !has_fault(fault, collected) {
            return Ok(());
        }
        let text = fault_words(self.alloc, fault)?;
        self.marks.add(Mark::Fault { agent, slot, text })
    }
}

/// How the hardware refuses. Only HARDWARE_ERROR is never the platform's own status.
fn fault_words(alloc: Global, fault: Fault) -> Result<Vec<u8>, AllocError> {
    match fault {
        Fault::HardwareError => Vec::from_slice(alloc, b"hardware refused"),
        _ => {
            let status = fault.status().name();
            filled_words(
                alloc,
                "hardware refuses: %",
                &[Value::Words(status.as_bytes())],
            )
        }
    }
}
