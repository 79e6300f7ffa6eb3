//! What was due at an entry that differs.
ghost use Rattle.std.specs.Prelude.{◌≡◌, ◌≢◌, ◌∷◌, List, IfSome};
ghost use Rattle.std.specs.List.{All};
ghost use Rattle.scmi_plan.specs.Board.{Board};
ghost use Rattle.scmi_judge.specs.Behind.{HasLegalHistory};
ghost use Rattle.scmi_judge.specs.Due.{IsDue, in_place};
ghost use Rattle.scmi_judge.specs.Guess.{IsReal};
ghost use Rattle.scmi_judge.specs.Guesses.{HaveBoard, KeepBoard, all_places};
ghost use Rattle.scmi_judge.specs.declared.entry.Entry.{Entry as Shown};
ghost use Rattle.scmi_judge.specs.declared.verdict.Verdict.TheVariants.{Same};

use crate::entry::Entry;
use crate::guess::Guess;
use crate::guesses::Guesses;
use crate::verdict::Verdict;
use scmi_codec::Frame;

impl Guesses {
    /// What was due in place of an entry that none of the others gives: what the last of them gives
    /// that gives one of its kind.
    pub fn due(&mut self, entry: &Entry) -> Verdict
        requires boards { HaveBoard self.old }
        ensures differs { result ≢ Same }
        ensures right { (board : Board) (entries : List Shown)
            → All (IsReal self.old.unseen board entries) self.old.others.items
            → IsDue result entry.now
            (λ due. HasLegalHistory self.old.unseen board (due ∷ entries)) }
        ensures keeps { KeepBoard self.old self.new }
        ensures left { self.new.left ≡ self.old.left }
        ensures tried { self.new.tried ≡ self.old.tried }
        ensures others { self.new.others ≡ self.old.others }
        ensures places { all_places self.new ≡ all_places self.old }
    {
        let unseen = self.unseen;
        let mut place = self.others.len();
        'others: while place > 0 {
            place -= 1;
            self.made.copy_from(&self.others[place]);
            if let Some(due) = self.made.due(entry) {
                self.made.copy_from(&self.others[place]);
                if self.made.show(&in_place(entry, &due), unseen) {
                    return due;
                }
            }
        }
        match entry {
            Entry::Delivered { agent, .. } if self.made.get().has_agent(*agent) =>
                Verdict::NoMessage,
            Entry::Told { .. } => Verdict::NoReport,
            _ => Verdict::NoAgent,
        }
    }
}

impl Guess {
    /// The answer or the message that it may give in place of that of an entry. It may be any of
    /// its board then.
    pub fn due(&mut self, entry: &Entry) -> Option<Verdict>
        ensures differs { IfSome result (λ due. due ≢ Same) }
        ensures board { self.new.platform.board ≡ self.old.platform.board }
    {
        match entry {
            Entry::Answered { agent, frame, .. } => self.due_answer(*agent, frame),
            Entry::Delivered { agent, .. } => self.due_message(*agent),
            Entry::Replied { place, .. } => self.due_reply(*place),
            Entry::Asked { .. } | Entry::GivenUp { .. } | Entry::Told { .. } => None,
        }
    }

    fn due_reply(&self, place: u32) -> Option<Verdict>
        ensures { IfSome result (λ due. due ≢ Same) }
    {
        match &self.command_at(place)?.answer {
            Some(answer) => Some(Verdict::Answer(answer.copy())),
            None => None,
        }
    }

    fn due_answer(&mut self, agent: u32, frame: &Frame) -> Option<Verdict>
        ensures differs { IfSome result (λ due. due ≢ Same) }
        ensures board { self.new.platform.board ≡ self.old.platform.board }
    {
        let answer = self.executed(agent, frame)?;
        Some(Verdict::Answer(answer))
    }

    fn due_message(&self, agent: u32) -> Option<Verdict>
        ensures { IfSome result (λ due. due ≢ Same) }
    {
        if !self.has_agent(agent) {
            return None;
        }
        match &self.posted[agent as usize - 1] {
            Some(message) => Some(Verdict::Message(message.copy())),
            None => None,
        }
    }
}

/// An entry with the answer or the message that a verdict says was due.
pub fn in_place(entry: &Entry, verdict: &Verdict) -> Entry
    ensures { result ≡ in_place entry.now verdict.now }
{
    match (entry, verdict) {
        (Entry::Answered { agent, frame, .. }, Verdict::Answer(due)) => Entry::Answered {
            agent: *agent,
            frame: frame.copy(),
            answer: due.copy(),
        },
        (Entry::Delivered { agent, .. }, Verdict::Message(due)) => Entry::Delivered {
            agent: *agent,
            message: due.copy(),
        },
        (
            Entry::Replied {
                place,
                agent,
                frame,
                ..
            },
            Verdict::Answer(due),
        ) => Entry::Replied {
            place: *place,
            agent: *agent,
            frame: frame.copy(),
            answer: due.copy(),
        },
        _ => entry.copy(),
    }
}
