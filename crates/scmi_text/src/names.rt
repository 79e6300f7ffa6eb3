//! The results of calls, each as one item of a line.
ghost use Rattle.std.specs.Prelude.{◌≡◌};
ghost use Rattle.scmi_text.specs.Names.{refusal_text, served_text, flushed_text, closing_text, close_error_text, shut_error_text, close_text, shut_text, advanced_text};

use scmi_link::{CloseError, Closing, Flushed, PostError, Served, ShutError};

const OUTSTANDING: &str = "outstanding";

const CLOSED: &str = "closed";

const FULL: &str = "full";

const WELL_FORMED: &str = "well-formed";

const NOTHING: &str = "nothing";

const DONE: &str = "done";

const WAITING: &str = "waiting";

const POSTED: &str = "posted";

const IDLE: &str = "idle";

const WITHDRAWN: &str = "withdrawn";

const IN_SERVICE: &str = "in-service";

const REPLY_WAITING: &str = "reply-waiting";

const NO_AGENT: &str = "no-agent";

const OK: &str = "ok";

const YES: &str = "yes";

const NO: &str = "no";

pub(crate) fn refusal_name(refusal: PostError) -> &'static str
    ensures { result.now ≡ refusal_text refusal }
{
    match refusal {
        PostError::Outstanding => OUTSTANDING,
        PostError::Closed => CLOSED,
        PostError::Full => FULL,
        PostError::WellFormed => WELL_FORMED,
    }
}

pub(crate) fn served_name(served: Served) -> &'static str
    ensures { result.now ≡ served_text served }
{
    match served {
        Served::Nothing => NOTHING,
        Served::Done => DONE,
    }
}

pub(crate) fn flushed_name(flushed: Flushed) -> &'static str
    ensures { result.now ≡ flushed_text flushed }
{
    match flushed {
        Flushed::Nothing => NOTHING,
        Flushed::Waiting => WAITING,
        Flushed::Posted => POSTED,
        Flushed::Closed => CLOSED,
    }
}

pub(crate) fn closing_name(closing: Closing) -> &'static str
    ensures { result.now ≡ closing_text closing }
{
    match closing {
        Closing::Idle => IDLE,
        Closing::Withdrawn => WITHDRAWN,
    }
}

pub(crate) fn close_error_name(error: CloseError) -> &'static str
    ensures { result.now ≡ close_error_text error }
{
    match error {
        CloseError::InService => IN_SERVICE,
        CloseError::ReplyWaiting => REPLY_WAITING,
    }
}

pub(crate) fn close_name(closing: &Result<Closing, CloseError>) -> &'static str
    ensures { result.now ≡ close_text closing.now }
{
    match closing {
        Ok(closing) => closing_name(*closing),
        Err(error) => close_error_name(*error),
    }
}

pub(crate) fn shut_name(closing: &Result<(), ShutError>) -> &'static str
    ensures { result.now ≡ shut_text closing.now }
{
    match closing {
        Ok(()) => OK,
        Err(ShutError::InService) => IN_SERVICE,
        Err(ShutError::ReplyWaiting) => REPLY_WAITING,
        Err(ShutError::NoAgent) => NO_AGENT,
    }
}

pub(crate) fn yes_or_no(more: bool) -> &'static str
    ensures { result.now ≡ advanced_text more }
{
    if more { YES } else { NO }
}
