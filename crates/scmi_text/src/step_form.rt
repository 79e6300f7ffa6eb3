//! The forms of a step's line, and the words that such lines begin with.
use crate::step::PlatformStep;
use crate::word_row::{HeldRow, rows};

/// The form of a step's line.
#[derive(Clone, Copy)]
pub enum StepForm {
    Advance,
    Report,
    /// The agent's number follows the first word.
    Of(AgentForm),
}

/// The form of the line of a step that is of an agent.
#[derive(Clone, Copy)]
pub enum AgentForm {
    Command(CommandForm),
    Raw,
    Malformed,
    Collect,
    P2a,
    Close,
    Platform(PlatformStep),
    Restart,
}

/// The form of the line of a command.
#[derive(Clone, Copy)]
pub enum CommandForm {
    Do,
    Call,
    Fail,
    Refuse,
}

/// The form of the line of what the hardware reports.
#[derive(Clone, Copy)]
pub enum ReportForm {
    /// The state of a domain has changed.
    State,
    /// The rate of a clock has changed.
    Rate,
    /// A clock was enabled or disabled.
    Enabled,
    /// A pending set ends before the others.
    First,
    /// A free clock gets this rate of its pending set.
    Settled,
}

/// The first words of the lines of steps.
pub const STEP_FORMS: [HeldRow<StepForm>; 15] = rows![
    b"do" StepForm::Of(AgentForm::Command(CommandForm::Do));
    b"call" StepForm::Of(AgentForm::Command(CommandForm::Call));
    b"fail" StepForm::Of(AgentForm::Command(CommandForm::Fail));
    b"refuse" StepForm::Of(AgentForm::Command(CommandForm::Refuse));
    b"raw" StepForm::Of(AgentForm::Raw);
    b"bad" StepForm::Of(AgentForm::Malformed);
    b"collect" StepForm::Of(AgentForm::Collect);
    b"p2a" StepForm::Of(AgentForm::P2a);
    b"close" StepForm::Of(AgentForm::Close);
    b"serve" StepForm::Of(AgentForm::Platform(PlatformStep::Serve));
    b"flush" StepForm::Of(AgentForm::Platform(PlatformStep::Flush));
    b"shut" StepForm::Of(AgentForm::Platform(PlatformStep::Shut));
    b"restart" StepForm::Of(AgentForm::Restart);
    b"advance" StepForm::Advance;
    b"report" StepForm::Report;
];

/// The word after `advance`, if the hardware refuses and no status is named.
pub(crate) const FAILED: &[u8] = b"failed";

/// The word after `advance` and before the status with which the hardware refuses.
pub(crate) const REFUSED: &[u8] = b"refused";

/// The words after `report`: what the hardware reports.
pub const REPORT_FORMS: [HeldRow<ReportForm>; 5] = rows![
    b"state" ReportForm::State;
    b"rate" ReportForm::Rate;
    b"enabled" ReportForm::Enabled;
    b"first" ReportForm::First;
    b"settled" ReportForm::Settled;
];
