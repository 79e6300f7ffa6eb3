//! A platform that may be behind a record.
ghost use Rattle.std.specs.Prelude.{◌≡◌, ◌≢◌, ◌≤◌, ◌↔◌, [], List, None, Some, length, true, false, IfSome};
ghost use Rattle.scmi_plan.specs.Agent.{IsAgent};
ghost use Rattle.scmi_plan.specs.declared.limits.TheConstants.{AGENTS as MOST};
ghost use Rattle.scmi_core.specs.Effect.{effect_after};
ghost use Rattle.scmi_core.specs.Reply.{failed_answer};
ghost use Rattle.scmi_core.specs.History.{answer_to};
ghost use Rattle.scmi_core.specs.Standing.{MovesOn, StandsAfter};
ghost use Rattle.scmi_core.specs.declared.event.Event.{Event};
ghost use Rattle.scmi_codec.specs.declared.fault.Fault.{Fault as Faults};
ghost use Rattle.scmi_judge.specs.Behind.{MayFail, may_refuse};
ghost use Rattle.scmi_judge.specs.Guess.{CannotCome, Gives, GivesNot, GoesOn, IsGuess, posted_to};
ghost use Rattle.scmi_judge.specs.declared.entry.Entry.TheVariants as entry;
ghost use Rattle.scmi_judge.specs.declared.unseen.Step.TheVariants as steps;
ghost use Rattle.scmi_judge.specs.declared.unseen.Unseen.{Unseen as Hidden};
ghost use Rattle.scmi_core.specs.declared.event.Event.TheVariants.{Command, CommandFailed};

use crate::entry::Entry;
use crate::outstanding::{OUTSTANDING, Outstanding};
use crate::same::{are_same_commands, is_same_answer, is_same_message};
use crate::shown::fault_shown;
use crate::unseen::{Refusals, Step, Unseen};
use scmi_codec::{Answer, Fault, Frame, Message};
use scmi_core::{Answered, Platform};
use scmi_plan::{AGENTS, Plan, Report};

/// A platform that may be behind a record, with the message in the channel to each agent that was
/// posted and that no entry shows yet, and the commands that are answered later.
#[derive(Drop)]
pub(crate) struct Guess {
    pub platform: Platform,
    // That to agent a at index a - 1.
    pub posted: [Option<Message>; AGENTS],
    // The commands that are answered later, each at its place.
    pub outstanding: [Option<Outstanding>; OUTSTANDING],
}

impl Guess {
    /// The platform of a board at the start.
    pub fn new(plan: Plan) -> Guess
        ensures board { result.platform.board ≡ plan }
        ensures start { (may : Hidden) → IsGuess may plan result [] [] }
    {
        let platform = Platform::new(plan);
        let posted = [None, None, None, None, None, None, None, None];
        let outstanding = [None, None, None, None, None, None, None, None];
        Guess {
            platform,
            posted,
            outstanding,
        }
    }

    /// Becomes the same as another guess of this board.
    pub fn copy_from(&mut self, other: &Guess)
        requires { self.now.platform.board ≡ other.now.platform.board }
        ensures { self.new ≡ other.now }
    {
        self.platform.copy_from(&other.platform);
        copy_all(&mut self.posted, &other.posted);
        copy_commands(&mut self.outstanding, &other.outstanding);
    }

    /// Whether another guess of this board is the same.
    pub fn is_same(&self, other: &Guess) -> bool
        requires { self.now.platform.board ≡ other.now.platform.board }
        ensures { (result ≡ true) ↔ (self.now ≡ other.now) }
    {
        self.platform.is_same(&other.platform)
            && self.posted == other.posted
            && are_same_commands(&self.outstanding, &other.outstanding)
    }

    /// Whether the board has an agent of this number.
    pub fn has_agent(&self, agent: u32) -> bool
        ensures is { (result ≡ true) ↔ IsAgent (length self.now.platform.board.agents) agent }
        ensures few { result ≡ true → agent ≤ MOST }
    {
        agent >= 1 && agent <= self.platform.agents()
    }

    /// Whether a step may come; `unseen` is what may happen unseen.
    pub fn can_come(&self, step: Step, unseen: Unseen) -> bool
        ensures { result ≡ false → CannotCome unseen self.now step }
    {
        match step {
            Step::Complete => !self.platform.pending_sets().is_empty(),
            Step::Refuse => self.can_refuse(unseen),
            Step::Post { agent } => self.can_post(agent),
            Step::Restart { agent } => unseen.restarts && self.has_agent(agent),
            Step::Execute { place } | Step::Fail { place } => self.waits(place),
        }
    }

    /// Whether the hardware may refuse the change of the first pending set.
    fn can_refuse(&self, unseen: Unseen) -> bool
        ensures may { result ≡ true → (h : List Event) → StandsAfter self.now.platform h
            → may_refuse unseen.refusals self.now.platform.board h ≡ true }
        ensures cannot { result ≡ false → CannotCome unseen self.now steps.Refuse }
    {
        match (self.platform.pending_sets(), unseen.refusals) {
            ([], _) | (_, Refusals::None) => false,
            ([set, ..], Refusals::Answered) => set.wanted,
            (_, Refusals::Any) => true,
        }
    }

    /// Whether a message may be posted to an agent.
    fn can_post(&self, agent: u32) -> bool
        ensures agent { result ≡ true → IsAgent (length self.now.platform.board.agents) agent }
        ensures few { result ≡ true → agent ≤ MOST }
        ensures empty { result ≡ true → posted_to self.now agent ≡ None }
        ensures cannot { result ≡ false → (may : Hidden)
            → CannotCome may self.now (steps.Post agent) }
    {
        if !self.has_agent(agent) || self.platform.first(agent).is_none() {
            return false;
        }
        self.posted[agent as usize - 1].is_none()
    }

    /// Makes a step; `false` if it can't come.
    pub fn make(&mut self, step: Step, unseen: Unseen) -> bool
        ensures goes { result ≡ true → GoesOn unseen self.old step self.new }
        ensures cannot { result ≡ false → CannotCome unseen self.old step }
        ensures board { self.new.platform.board ≡ self.old.platform.board }
    {
        match step {
            Step::Complete => self.platform.advance(),
            Step::Refuse => self.refuse(unseen),
            Step::Post { agent } => self.post(agent),
            Step::Restart { agent } => self.restart(agent, unseen),
            Step::Execute { place } => self.execute_at(place),
            Step::Fail { place } => self.fail_at(place),
        }
    }

    /// The hardware refuses the change of the first pending set; `false` if it can't, and then
    /// nothing changed.
    fn refuse(&mut self, unseen: Unseen) -> bool
        ensures goes { result ≡ true → GoesOn unseen self.old steps.Refuse self.new }
        ensures cannot { result ≡ false → CannotCome unseen self.old steps.Refuse }
        ensures board { self.new.platform.board ≡ self.old.platform.board }
    {
        if !self.can_refuse(unseen) {
            return false;
        }
        self.platform.advance_failed(Fault::HardwareError)
    }

    /// Posts the first message for an agent into its channel; `false` if it can't be posted.
    fn post(&mut self, agent: u32) -> bool
        ensures goes { result ≡ true → (may : Hidden)
            → GoesOn may self.old (steps.Post agent) self.new }
        ensures cannot { result ≡ false → (may : Hidden)
            → CannotCome may self.old (steps.Post agent) }
        ensures board { self.new.platform.board ≡ self.old.platform.board }
    {
        if !self.can_post(agent) {
            return false;
        }
        let Ok(Some(message)) = self.platform.front(agent) else {
            return false;
        };
        let Ok(()) = self.platform.sent(agent) else {
            return false;
        };
        self.posted[agent as usize - 1] = Some(message);
        true
    }

    /// An agent restarts; `false` if it can't, and then nothing changed.
    fn restart(&mut self, agent: u32, unseen: Unseen) -> bool
        ensures goes { result ≡ true → GoesOn unseen self.old (steps.Restart agent) self.new }
        ensures cannot { result ≡ false → CannotCome unseen self.old (steps.Restart agent) }
        ensures board { self.new.platform.board ≡ self.old.platform.board }
    {
        if !unseen.restarts {
            return false;
        }
        let Ok(()) = self.platform.restart(agent) else {
            return false;
        };
        true
    }

    /// What the platform is after an entry; `false` if it does not give the entry, and then it may
    /// be any of this board.
    pub fn show(&mut self, entry: &Entry, unseen: Unseen) -> bool
        ensures gives { result ≡ true → Gives unseen self.old entry.now self.new }
        ensures not { result ≡ false → GivesNot unseen self.old entry.now }
        ensures board { self.new.platform.board ≡ self.old.platform.board }
    {
        match entry {
            Entry::Answered {
                agent,
                frame,
                answer,
            } => self.answer(*agent, frame, answer, unseen),
            Entry::Delivered { agent, message } => self.take(*agent, message),
            Entry::Asked {
                place,
                agent,
                frame,
            } => self.ask(*place, *agent, frame),
            Entry::Replied {
                place,
                agent,
                frame,
                answer,
            } => self.reply(*place, *agent, frame, answer),
            Entry::GivenUp { place } => {
                self.give_up(*place);
                true
            }
            Entry::Told { report } => self.take_over(*report),
        }
    }

    /// The same of an answer.
    fn answer(&mut self, agent: u32, frame: &Frame, answer: &Answer, unseen: Unseen) -> bool
        ensures gives { result ≡ true
            → Gives unseen self.old (entry.Answered agent frame.now answer.now) self.new }
        ensures not { result ≡ false
            → GivesNot unseen self.old (entry.Answered agent frame.now answer.now) }
        ensures board { self.new.platform.board ≡ self.old.platform.board }
    {
        if !self.has_agent(agent) {
            return false;
        }
        let Some(fault) = fault_shown(answer) else {
            return self.execute(agent, frame, answer, unseen);
        };
        if !unseen.may_fail(fault) {
            return self.execute(agent, frame, answer, unseen);
        }
        let mut failed = Message::default();
        match self
            .platform
            .command_failed(agent, frame, fault, &mut failed)
        {
            Ok(()) => is_same_answer(&Answer::Reply(failed), answer),
            Err(_) => self.execute(agent, frame, answer, unseen),
        }
    }

    /// The same of an answer that shows no refusal of the hardware, to an agent of the board.
    fn execute(&mut self, agent: u32, frame: &Frame, answer: &Answer, unseen: Unseen) -> bool
        requires agent { IsAgent (length self.old.platform.board.agents) agent }
        requires done { (h : List Event) → StandsAfter self.old.platform h
            → effect_after self.old.platform.board h (Command agent frame.now) ≢ None
            → (fault : Faults) → MayFail unseen (CommandFailed agent frame.now fault)
            → answer.now ≢ failed_answer frame.now fault }
        ensures gives { result ≡ true
            → Gives unseen self.old (entry.Answered agent frame.now answer.now) self.new }
        ensures not { result ≡ false
            → GivesNot unseen self.old (entry.Answered agent frame.now answer.now) }
        ensures board { self.new.platform.board ≡ self.old.platform.board }
    {
        match self.executed(agent, frame) {
            Some(given) => is_same_answer(&given, answer),
            None => false,
        }
    }

    /// The answer to a command that is executed; `None` if the board lacks the agent, and then
    /// nothing changed.
    pub fn executed(&mut self, agent: u32, frame: &Frame) -> Option<Answer>
        ensures answer { IfSome result (λ given. (h : List Event) → StandsAfter self.old.platform h
            → given ≡ answer_to self.old.platform.board agent frame.now h) }
        ensures event { IfSome result (λ given.
            MovesOn self.old.platform (Command agent frame.now) self.new.platform) }
        ensures no_agent { result ≡ None
            → ¬ (IsAgent (length self.old.platform.board.agents) agent) }
        ensures board { self.new.platform.board ≡ self.old.platform.board }
        ensures posted { self.new.posted ≡ self.old.posted }
        ensures outstanding { self.new.outstanding ≡ self.old.outstanding }
    {
        let mut reply = Message::default();
        match self.platform.command(agent, frame, &mut reply) {
            Ok(Answered::Reply) => Some(Answer::Reply(reply)),
            Ok(Answered::ChannelError) => Some(Answer::ChannelError),
            Err(_) => None,
        }
    }

    /// The same of a message.
    fn take(&mut self, agent: u32, message: &Message) -> bool
        ensures gives { result ≡ true → (may : Hidden)
            → Gives may self.old (entry.Delivered agent message.now) self.new }
        ensures not { result ≡ false → (may : Hidden)
            → GivesNot may self.old (entry.Delivered agent message.now) }
        ensures board { self.new.platform.board ≡ self.old.platform.board }
    {
        if !self.has_agent(agent) || !self.has_posted(agent, message) {
            return false;
        }
        self.posted[agent as usize - 1] = None;
        true
    }

    /// The same of what the hardware told.
    fn take_over(&mut self, report: Report) -> bool
        ensures gives { result ≡ true → (may : Hidden)
            → Gives may self.old (entry.Told report) self.new }
        ensures not { result ≡ false → (may : Hidden)
            → GivesNot may self.old (entry.Told report) }
        ensures board { self.new.platform.board ≡ self.old.platform.board }
    {
        self.platform.tell(report)
    }

    /// Whether this message is in the channel to an agent of the board.
    fn has_posted(&self, agent: u32, message: &Message) -> bool
        requires { IsAgent (length self.now.platform.board.agents) agent }
        ensures { (result ≡ true) ↔ (posted_to self.now agent ≡ Some message.now) }
    {
        let _agents = self.platform.agents();
        match &self.posted[agent as usize - 1] {
            Some(posted) => is_same_message(posted, message),
            None => false,
        }
    }
}

/// Become the same commands as others. Only those that are there are copied.
fn copy_commands(
    commands: &mut [Option<Outstanding>; OUTSTANDING],
    others: &[Option<Outstanding>; OUTSTANDING],
)
    ensures { commands.new ≡ others.now }
{
    'places: for place in 0..OUTSTANDING {
        copy_command(&mut commands[place], &others[place]);
    }
}

fn copy_command(command: &mut Option<Outstanding>, other: &Option<Outstanding>)
    ensures { command.new ≡ other.now }
{
    match other {
        Some(other) => *command = Some(other.copy()),
        None => {
            if command.is_some() {
                *command = None;
            }
        }
    }
}

/// Become the same messages as others. Only those that are there are copied.
fn copy_all(posted: &mut [Option<Message>; AGENTS], others: &[Option<Message>; AGENTS])
    ensures { posted.new ≡ others.now }
{
    'agents: for agent in 0..AGENTS {
        copy_of(&mut posted[agent], &others[agent]);
    }
}

fn copy_of(posted: &mut Option<Message>, other: &Option<Message>)
    ensures { posted.new ≡ other.now }
{
    match other {
        Some(other) => *posted = Some(other.copy()),
        None => {
            if posted.is_some() {
                *posted = None;
            }
        }
    }
}
