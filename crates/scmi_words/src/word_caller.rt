//! The caller's endpoint of a word channel.
ghost use Rattle.scmi_words.specs.View.{HasCaller, caller_of};
ghost use Rattle.scmi_words.specs.Remembers.{CallerRemembers};

use crate::phase::Phase;
use crate::shared_table::TableSeat;
use scmi_link::PostError;

/// The endpoint of a `WordChannel` that posts frames and collects their answers.
#[derive(Drop)]
pub struct WordCaller {
    pub(crate) seat: TableSeat,
    pub(crate) phase: Phase,
    pub(crate) closed: bool,
    pub(crate) told: bool,
    // The status that the last answer left, without the closed mark: what a post must find.
    pub(crate) free: u64,
    pub(crate) posts: u64,
    pub(crate) collects: u64,
    ghost seated: { HasCaller seat },
    ghost remembers: { CallerRemembers (caller_of seat) phase free closed told },
}

impl WordCaller {
    ghost use Rattle.std.specs.Prelude.{◌≡◌, ◌≢◌, ◌↔◌, true, false, OnOk};
    ghost use Rattle.scmi_link.specs.View.{IsOutstanding, knows_close};
    ghost use Rattle.scmi_words.specs.declared.phase.Phase.TheVariants.{Idle};
    ghost use Rattle.scmi_words.specs.WordCaller.{word_caller_view};

    // Whether the caller may post, as far as it knows.
    pub(crate) fn may_post(&self) -> Result<(), PostError>
        ensures ok { OnOk result
            ((self.now.phase ≡ Idle) × (self.now.closed ≡ false) × (self.now.told ≡ false)) }
        ensures outstanding { (result ≡ Err PostError.Outstanding) ↔
            IsOutstanding (word_caller_view self.now) }
        ensures closed { result ≡ Err PostError.Closed →
            knows_close (word_caller_view self.now) ≡ true }
        ensures never { (result ≢ Err PostError.Full) × (result ≢ Err PostError.WellFormed) }
    {
        match self.phase {
            Phase::Idle => {}
            Phase::Waiting => return Err(PostError::Outstanding),
            _ => return Err(PostError::Closed),
        }
        if self.closed | self.told {
            return Err(PostError::Closed);
        }
        Ok(())
    }
}
