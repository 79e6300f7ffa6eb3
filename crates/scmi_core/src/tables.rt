//! What a controller keeps besides its history.
ghost use Rattle.std.specs.Prelude.{◌≡◌, ◌≤◌, ◌<◌, ◌-◌, ◌==◌, ◌↔◌, [], ℕ, length, true, false, Ok, Err, None, Some, slice_get, IfSome, option_map, unwrap_or};
ghost use Rattle.std.specs.List.{All};
ghost use Rattle.std.specs.Int.{bit_at};
ghost use Rattle.scmi_base.specs.Permission.{is_allowed};
ghost use Rattle.scmi_plan.specs.declared.scope.Scope.{Scope};
ghost use Rattle.scmi_codec.specs.declared.frame.Frame.TheVariants.{Good};
ghost use Rattle.scmi_codec.specs.declared.command.Command.TheVariants.{Base, Power, Clock};
ghost use Rattle.scmi_power.specs.PowerTable.{is_subscribed, set_domain};
ghost use Rattle.scmi_clock.specs.ClockTable.{set_clock};
ghost use Rattle.scmi_plan.specs.Agent.{IsAgent};
ghost use Rattle.scmi_plan.specs.Plan.{IsValid};
ghost use Rattle.scmi_plan.specs.declared.resource.Resource.TheVariants as resource;
ghost use Rattle.scmi_plan.specs.declared.limits.TheConstants.{AGENTS, CLOCKS, DOMAINS};
ghost use Rattle.scmi_core.specs.History.{answer_with};
ghost use Rattle.scmi_core.specs.Value.{Thing, value_at_start};
ghost use Rattle.scmi_core.specs.Pending.{has_set_of, state_set, rate_set};
ghost use Rattle.scmi_core.specs.Situation.{has_room};
ghost use Rattle.scmi_core.specs.Subscriptions.{subscription_after_reset};
ghost use Rattle.scmi_core.specs.Reply.{answer_in, reply_words};
ghost use Rattle.scmi_core.specs.Tables.{outbox_at, load_at, value_at, situation_in, IsThing, IsOfBoard};
ghost use Rattle.scmi_core.specs.Step.{Accepts, HasFailed, HasStepped, HasExecuted, HasAnswered, SameButPending};
ghost use Rattle.scmi_core.specs.declared.outboxes.TheConstants.{OUTBOX_ROOM};
ghost use Rattle.scmi_plan.specs.declared.limits.TheConstants.{PENDING_SETS};

use crate::answered::Answered;
use crate::channel::fits_channel;
use crate::outboxes::Outboxes;
use crate::pending::Pending;
use crate::pending_set::{PendingSet, Setting};
use crate::read_command::read_command;
use scmi_base::BaseState;
use scmi_clock::ClockState;
use scmi_codec::{
    BaseCommand, ClockCommand, Command, Fault, Frame, Header, Message, Payload, PowerCommand,
    Status, set_refusal,
};
use scmi_plan::{DOMAINS, Load, Plan};
use scmi_power::PowerState;

// The value used as the load of a command that meets none.
const NO_LOAD: Load = Load {
    busy: 0,
    room: false,
};

/// The tables of the protocols, the sets that are pending, and each agent's outbox.
#[derive(Drop, Debug)]
pub struct Tables {
    pub base: BaseState,
    pub power: PowerState,
    pub clocks: ClockState,
    pub pending: Pending,
    pub outboxes: Outboxes,
}

impl Tables {
    /// The tables at the start.
    pub fn new(plan: &Plan) -> Tables
        ensures base { result.base ≡ plan.now.denied }
        ensures subscriptions { (a d : ℕ) → is_subscribed result.power a d ≡ false }
        ensures values { (x : Thing) → IsThing plan.now x
            → value_at result x ≡ value_at_start plan.now x }
        ensures pending { result.pending ≡ [] }
        ensures outboxes { (a : ℕ) → outbox_at result a ≡ [] }
    {
        Tables {
            base: BaseState::new(plan),
            power: PowerState::new(plan),
            clocks: ClockState::new(plan),
            pending: Pending::new(),
            outboxes: Outboxes::new(),
        }
    }

    /// Become the same as others.
    pub fn copy_from(&mut self, other: &Tables)
        ensures { self.new ≡ other.now }
    {
        self.base.copy_from(&other.base);
        self.power.copy_from(&other.power);
        self.clocks.copy_from(&other.clocks);
        self.pending.copy_from(&other.pending);
        self.outboxes.copy_from(&other.outboxes);
    }

    /// Whether others are the same.
    pub fn is_same(&self, other: &Tables) -> bool
        ensures { (result ≡ true) ↔ (self.now ≡ other.now) }
    {
        self.base.is_same(&other.base)
            && self.power.is_same(&other.power)
            && self.clocks.is_same(&other.clocks)
            && self.pending.is_same(&other.pending)
            && self.outboxes.is_same(&other.outboxes)
    }

    /// Executes a frame of an agent, and writes the reply to a message.
    pub fn answer(
        &mut self,
        plan: &Plan,
        agent: u32,
        frame: &Frame,
        reply: &mut Message,
    ) -> Answered
        requires agent { IsAgent (length plan.now.agents) agent }
        requires valid { IsValid plan.now }
        ensures answer { answer_with result reply.new
            ≡ answer_in plan.now agent frame.now (situation_in agent self.old) }
        ensures unwritten { result ≡ Answered.ChannelError → reply.new ≡ reply.old }
        ensures stepped { HasAnswered plan.now agent frame.now self.old self.new }
    {
        match frame {
            Frame::Good(message) => self.answer_message(plan, agent, message, reply),
            Frame::Malformed { .. } => Answered::ChannelError,
        }
    }

    /// As `answer`, for a message; one that is longer than the agent's channel is malformed (own).
    fn answer_message(
        &mut self,
        plan: &Plan,
        agent: u32,
        message: &Message,
        reply: &mut Message,
    ) -> Answered
        requires agent { IsAgent (length plan.now.agents) agent }
        requires valid { IsValid plan.now }
        ensures answer { answer_with result reply.new
            ≡ answer_in plan.now agent (Good message.now) (situation_in agent self.old) }
        ensures unwritten { result ≡ Answered.ChannelError → reply.new ≡ reply.old }
        ensures stepped { HasAnswered plan.now agent (Good message.now) self.old self.new }
    {
        if fits_channel(plan, agent, message) {
            let command = read_command(plan, message);
            let header = message.header;
            reply.header = header;
            self.execute(plan, agent, header, command, &mut reply.payload);
            Answered::Reply
        } else {
            Answered::ChannelError
        }
    }

    /// Executes what a message of an agent with this header was read as, and writes the payload of
    /// its reply.
    #[tactic(auto, unfolding(crate::specs::Reply::reply_words))]
    fn execute(
        &mut self,
        plan: &Plan,
        agent: u32,
        header: Header,
        command: Result<Command, Status>,
        reply: &mut Payload,
    )
        requires agent { IsAgent (length plan.now.agents) agent }
        requires valid { IsValid plan.now }
        ensures reply { reply.new.items
            ≡ reply_words plan.now agent (situation_in agent self.old) command }
        ensures stepped { HasExecuted plan.now agent header command
            reply.new.items self.old self.new }
    {
        match command {
            Ok(Command::Base(command)) => self.execute_base(plan, agent, header, command, reply),
            Ok(Command::Power(command)) => self.execute_power(plan, agent, header, command, reply),
            Ok(Command::Clock(command)) => self.execute_clock(plan, agent, header, command, reply),
            Err(status) => set_refusal(reply, status),
        }
    }

    /// Executes a command of the base protocol.
    fn execute_base(
        &mut self,
        plan: &Plan,
        agent: u32,
        header: Header,
        command: BaseCommand,
        reply: &mut Payload,
    )
        requires agent { IsAgent (length plan.now.agents) agent }
        requires valid { IsValid plan.now }
        ensures reply { reply.new.items
            ≡ reply_words plan.now agent (situation_in agent self.old) (Ok (Base command)) }
        ensures stepped { HasExecuted plan.now agent header (Ok (Base command))
            reply.new.items self.old self.new }
    {
        let reset = self.base.execute_into(plan, agent, command, reply);
        self.end_requests(reset);
    }

    /// Executes a command of the power domain protocol.
    fn execute_power(
        &mut self,
        plan: &Plan,
        agent: u32,
        header: Header,
        command: PowerCommand,
        reply: &mut Payload,
    )
        requires agent { IsAgent (length plan.now.agents) agent }
        requires valid { IsValid plan.now }
        ensures reply { reply.new.items
            ≡ reply_words plan.now agent (situation_in agent self.old) (Ok (Power command)) }
        ensures stepped { HasExecuted plan.now agent header (Ok (Power command))
            reply.new.items self.old self.new }
    {
        let agents = plan.agents();
        let load = self.power_load(plan, agent, command);
        let done = self
            .power
            .execute_into(plan, &self.base, agent, command, load, reply);
        self.accept_state(agent, header, done.later);
        self.announce(agents, agent, done.changed, done.differs);
    }

    /// Executes a command of the clock protocol.
    fn execute_clock(
        &mut self,
        plan: &Plan,
        agent: u32,
        header: Header,
        command: ClockCommand,
        reply: &mut Payload,
    )
        requires agent { IsAgent (length plan.now.agents) agent }
        requires valid { IsValid plan.now }
        ensures reply { reply.new.items
            ≡ reply_words plan.now agent (situation_in agent self.old) (Ok (Clock command)) }
        ensures stepped { HasExecuted plan.now agent header (Ok (Clock command))
            reply.new.items self.old self.new }
    {
        let load = self.clock_load(plan, agent, command);
        let later = self
            .clocks
            .execute_into(plan, &self.base, agent, command, load, reply);
        self.accept_rate(agent, header, later);
    }

    /// The load that a power command of an agent meets. Only a set meets one; for the others none is
    /// reckoned.
    pub(crate) fn power_load(&self, plan: &Plan, agent: u32, command: PowerCommand) -> Load
        requires agent { IsAgent (length plan.now.agents) agent }
        requires valid { IsValid plan.now }
        ensures busy { IfSome (set_domain command) (λ set. (d : ℕ) → d < DOMAINS
            → (bit_at result.busy d == 1) ≡ has_set_of (resource.Domain d) self.now.pending) }
        ensures room { IfSome (set_domain command) (λ set.
            result.room ≡ has_room plan.now agent (situation_in agent self.now)) }
        ensures free { result.room ≡ true → length self.now.pending < PENDING_SETS }
    {
        match command {
            PowerCommand::Set { .. } => {
                let waiting = self.outboxes.waiting(agent);
                let share = plan.channel(agent).share;
                self.pending.domain_load(share, agent, waiting)
            }
            _ => NO_LOAD,
        }
    }

    /// The load that a clock command of an agent meets. Only a set of a rate meets one; for the others
    /// none is reckoned.
    pub(crate) fn clock_load(&self, plan: &Plan, agent: u32, command: ClockCommand) -> Load
        requires agent { IsAgent (length plan.now.agents) agent }
        requires valid { IsValid plan.now }
        ensures busy { IfSome (set_clock command) (λ set. (c : ℕ) → c < CLOCKS
            → (bit_at result.busy c == 1) ≡ has_set_of (resource.Clock c) self.now.pending) }
        ensures room { IfSome (set_clock command) (λ set.
            result.room ≡ has_room plan.now agent (situation_in agent self.now)) }
        ensures free { result.room ≡ true → length self.now.pending < PENDING_SETS }
    {
        match command {
            ClockCommand::SetRate { .. } => {
                let waiting = self.outboxes.waiting(agent);
                let share = plan.channel(agent).share;
                self.pending.clock_load(share, agent, waiting)
            }
            _ => NO_LOAD,
        }
    }

    /// Completes the first pending set.
    pub fn complete(&mut self, plan: &Plan)
        requires waiting { 0 < length self.now.pending }
        requires known { All (IsOfBoard plan.now) self.now.pending }
        requires room { (a : ℕ) → 1 ≤ a → a ≤ length plan.now.agents
            → load_at self.now a ≤ OUTBOX_ROOM }
        ensures valid { IsValid plan.now }
        ensures stepped { HasStepped plan.now self.old None
            (slice_get self.old.pending 0) self.new }
    {
        let _agents = plan.agents();
        let done = self.pending.pop_first();
        let effect = done.effect();
        let PendingSet {
            agent,
            setting,
            header,
            wanted,
        } = done;
        self.outboxes.respond(agent, setting, header, wanted);
        self.change(plan, agent, effect);
    }

    /// Takes the first pending set off as failed with this fault.
    pub fn fail(&mut self, plan: &Plan, fault: Fault)
        requires waiting { 0 < length self.now.pending }
        requires known { All (IsOfBoard plan.now) self.now.pending }
        requires room { (a : ℕ) → 1 ≤ a → a ≤ length plan.now.agents
            → load_at self.now a ≤ OUTBOX_ROOM }
        ensures valid { IsValid plan.now }
        ensures failed { HasFailed fault self.old self.new }
    {
        let _agents = plan.agents();
        let failed = self.pending.pop_first();
        let PendingSet {
            agent,
            setting,
            header,
            wanted,
        } = failed;
        self.outboxes
            .respond_failed(agent, setting, header, wanted, fault);
    }

    /// Ends the requests of an agent that was reset, if one was.
    fn end_requests(&mut self, reset: Option<u32>)
        requires { IfSome reset (IsAgent AGENTS) }
        ensures subscriptions { (a d : ℕ) → 1 ≤ a → a ≤ AGENTS → d < DOMAINS
            → is_subscribed self.new.power a d
            ≡ unwrap_or (subscription_after_reset a reset) (is_subscribed self.old.power a d) }
        ensures states { self.new.power.states ≡ self.old.power.states }
        ensures base { self.new.base ≡ self.old.base }
        ensures clocks { self.new.clocks ≡ self.old.clocks }
        ensures pending { self.new.pending ≡ self.old.pending }
        ensures outboxes { self.new.outboxes ≡ self.old.outboxes }
    {
        if let Some(agent) = reset {
            self.power.reset(agent);
        }
    }

    /// Adds a domain's set that was accepted for later, if there is one.
    fn accept_state(&mut self, agent: u32, header: Header, later: Option<(u32, u32)>)
        requires { IfSome later (λ set. length self.now.pending < PENDING_SETS) }
        ensures rest { SameButPending self.old self.new }
        ensures pending { Accepts self.old self.new (option_map (state_set agent header) later) }
    {
        if let Some((domain, state)) = later {
            self.pending.push(PendingSet {
                agent,
                setting: Setting::State(domain, state),
                header,
                wanted: true,
            });
        }
    }

    /// Adds a clock's set that was accepted for later, if there is one.
    fn accept_rate(&mut self, agent: u32, header: Header, later: Option<(u32, u64, bool)>)
        requires { IfSome later (λ set. length self.now.pending < PENDING_SETS) }
        ensures rest { SameButPending self.old self.new }
        ensures pending { Accepts self.old self.new (option_map (rate_set agent header) later) }
    {
        if let Some((clock, rate, wanted)) = later {
            self.pending.push(PendingSet {
                agent,
                setting: Setting::Rate(clock, rate),
                header,
                wanted,
            });
        }
    }
}
