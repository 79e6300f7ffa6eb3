//! What a caller collects.
use crate::looked::Looked;
use scmi_codec::Answer;

/// What a caller finds when it polls for an answer.
#[derive(Clone, PartialEq, Eq, Debug, Drop)]
pub enum Collected {
    /// No answer is available, and the channel is open as far as the caller was notified.
    Nothing,
    /// The answer to the caller's post.
    Got(Answer),
    /// An endpoint has closed, and there is no answer to read.
    Closed,
}

impl Collected {
    ghost use Rattle.std.specs.Prelude.{◌≡◌};
    ghost use Rattle.scmi_link.specs.Calls.{collected_by};

    /// What a poll found, with the answer that it read if there was one.
    pub fn of(looked: Looked, answer: Answer) -> Collected
        ensures { result ≡ collected_by looked answer }
    {
        match looked {
            Looked::Nothing => Collected::Nothing,
            Looked::Got => Collected::Got(answer),
            Looked::Closed => Collected::Closed,
        }
    }
}
