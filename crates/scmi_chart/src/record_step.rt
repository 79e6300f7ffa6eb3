//! A step, and what a chart shows of it.
ghost use Rattle.std.specs.Prelude.{◌≡◌, length, OnOk};
ghost use Rattle.scmi_ends.specs.Shut.{ShowsClose};
ghost use Rattle.scmi_text.specs.Step.{IsStepOf};
ghost use Rattle.scmi_chart.specs.Run.{ShowsStep};

use crate::recorder::Recorder;
use scmi_board::TextLine;
use scmi_core::Core;
use scmi_link::Channel;
use scmi_modes::{Session, Standing};
use scmi_text::Step;
use std::alloc::{AllocError, Global};

/// Makes a step, which is in this line of the script, and records it, with the notifications that
/// it dropped.
pub(crate) fn record_step<C: Channel>(
    alloc: Global,
    line: TextLine<'_>,
    step: &Step,
    session: &mut Session<C>,
    recorder: &mut Recorder<'_>,
) -> Result<(), AllocError>
    requires { IsStepOf (length session.old.agents) step.now }
    ensures agents { length session.new.agents ≡ length session.old.agents }
    ensures shown { OnOk result (ShowsStep C.FULL (ShowsClose C.caller_view C.close_shows)
        step.now session.old session.new recorder.old recorder.new) }
{
    let before = Standing::of(session.core());
    let came = session.step(step)?;
    recorder.record(line, step, &came, session.core())?;
    record_dropped(alloc, &before, session.core(), recorder)
}

/// Records the notifications that a platform has dropped since.
fn record_dropped(
    alloc: Global,
    before: &Standing,
    core: &Core,
    recorder: &mut Recorder<'_>,
) -> Result<(), AllocError>
    ensures { OnOk result (recorder.new ≡ recorder.old) }
{
    let dropped = before.dropped(alloc, core)?;
    'dropped: for notification in &dropped {
        recorder.record_dropped(notification.agent, notification.domain)?;
    }
    Ok(())
}
