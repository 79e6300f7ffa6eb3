//! Both sides of a board on one thread.
ghost use Rattle.std.specs.Prelude.{◌≡◌};

use crate::{agent_steps, refused_steps};
use scmi_codec::Fault;
use scmi_core::{Core, Trace};
use scmi_ends::{AgentEnd, Controller, Link, Served, connect};
use scmi_link::Channel;
use scmi_plan::{Plan, Report};
use scmi_text::{AgentStep, Call, PlatformStep, Step, StepLine};
use std::alloc::{AllocError, Global};
use std::marker::Model;

/// The controller of a board, its agents, and the channels between them. A contract sees the
/// platform's side and each agent's endpoints.
#[derive(Drop)]
pub struct Session<C: Channel> {
    controller: Controller<C>,
    links: Vec<Link<C>>,
    agents: Vec<AgentEnd<C>>,
}

impl<C: Channel> Model for Session<C> {
    ghost use Rattle.scmi_ends.specs.Links.{BelongTogether};
    ghost use Rattle.scmi_modes.specs.SessionView.{SessionView};

    ghost Value = { SessionView };

    ghost view = { λ s. record { platform = s.controller; agents = s.agents.items } };

    ghost invariant = { λ s. BelongTogether C.identity s.links.items s.controller s.agents.items };
}

impl<C: Channel> Session<C> {
    ghost use Rattle.std.specs.Prelude.{◌≡◌, length, IfOk, OnErr};
    ghost use Rattle.std.specs.List.{All};
    ghost use Rattle.scmi_core.specs.Plain.{IsPlain};
    ghost use Rattle.scmi_plan.specs.Agent.{IsAgent};
    ghost use Rattle.scmi_text.specs.Step.{IsStepOf, IsWithoutHardware};
    ghost use Rattle.scmi_ends.specs.Shut.{ShowsClose};
    ghost use Rattle.scmi_modes.specs.Run.{IsNewSession, IsGathered};
    ghost use Rattle.scmi_modes.specs.StepLines.{IsLineOf};
    ghost use Rattle.scmi_modes.specs.SessionSteps.{Makes, PlatformMakes, AtAgent, AtPlatform, Advances, ServesRefused, Steps, StopsFor};

    /// Both sides of a board, over new channels.
    pub fn open(alloc: Global, plan: Plan) -> Result<Session<C>, AllocError>
        ensures new { IfOk result (IsNewSession plan) }
    {
        match connect(alloc, Core::new(alloc, plan)) {
            Ok((controller, links, agents)) => Ok(Session {
                controller,
                links,
                agents,
            }),
            Err(_) => Err(AllocError),
        }
    }

    /// The platform of the session: its board, its history, and its state.
    pub fn core(&self) -> &Core
        ensures board { result.now.board ≡ self.now.platform.board }
        ensures history { result.now.history ≡ self.now.platform.history }
        ensures agents { length result.now.board.agents ≡ length self.now.agents }
    {
        self.controller.core()
    }

    /// Makes one step, and gives its line of output. After an error nothing was taken, executed or
    /// posted by the call of the step that was refused. A step without hardware that is no restart
    /// adds commands, advances and postings alone to the history.
    pub fn step(&mut self, step: &Step) -> Result<StepLine, AllocError>
        requires { IsStepOf (length self.old.agents) step.now }
        ensures agents { length self.new.agents ≡ length self.old.agents }
        ensures line { IfOk result (λ line. IsLineOf step.now line) }
        ensures steps { IfOk result (λ line.
            Steps C.FULL (ShowsClose C.caller_view C.close_shows) step.now line self.old self.new) }
        ensures stops { OnErr result (StopsFor step.now self.old self.new) }
        ensures plain { IsWithoutHardware step.now → All IsPlain self.old.platform.history →
            All IsPlain self.new.platform.history }
    {
        match step {
            Step::Agent { agent, step } => Ok(self.of_agent(*agent, step)),
            Step::Platform { agent, step } => match step {
                PlatformStep::Serve => self.serve(*agent),
                PlatformStep::Flush => self.flush(*agent),
                PlatformStep::Shut => Ok(self.shut(*agent)),
            },
            Step::Do { agent, call } => self.exchange(*agent, call),
            Step::Advance => self.advance(),
            Step::Fail { agent, fault, call } => self.exchange_refused(*agent, *fault, call),
            Step::AdvanceFailed { fault } => self.advance_refused(*fault),
            Step::Report { report } => self.report(*report),
            Step::Restart { agent } => self.restart(*agent),
        }
    }

    /// Gathers all endpoints, and gives the history.
    pub fn retire(self) -> Trace
        ensures history { result.events ≡ self.platform.history }
        ensures gathered { IsGathered self }
    {
        let Session {
            controller,
            links,
            agents,
        } = self;
        controller.retire(links, agents)
    }

    fn of_agent(&mut self, agent: u32, step: &AgentStep) -> StepLine
        requires { IsAgent (length self.old.agents) agent }
        ensures agents { length self.new.agents ≡ length self.old.agents }
        ensures step { AtAgent agent
            (Makes C.FULL (ShowsClose C.caller_view C.close_shows) agent step.now result)
            self.old self.new }
    {
        let index = agent as usize - 1;
        agent_steps::make(agent, step, &mut self.agents[index], &self.links[index])
    }

    fn serve(&mut self, agent: u32) -> Result<StepLine, AllocError>
        requires { IsAgent (length self.old.agents) agent }
        ensures agents { length self.new.agents ≡ length self.old.agents }
        ensures step { IfOk result (λ line. AtPlatform
            (PlatformMakes C.FULL (ShowsClose C.caller_view C.close_shows) agent PlatformStep.Serve line)
            self.old self.new) }
        ensures err { OnErr result (self.new ≡ self.old) }
    {
        match self.controller.serve(&self.links, agent) {
            Ok(served) => Ok(StepLine::Served { agent, served }),
            Err(_) => Err(AllocError),
        }
    }

    fn flush(&mut self, agent: u32) -> Result<StepLine, AllocError>
        requires { IsAgent (length self.old.agents) agent }
        ensures agents { length self.new.agents ≡ length self.old.agents }
        ensures step { IfOk result (λ line. AtPlatform
            (PlatformMakes C.FULL (ShowsClose C.caller_view C.close_shows) agent PlatformStep.Flush line)
            self.old self.new) }
        ensures err { OnErr result (self.new ≡ self.old) }
    {
        match self.controller.flush(&self.links, agent) {
            Ok(flushed) => Ok(StepLine::Flushed { agent, flushed }),
            Err(_) => Err(AllocError),
        }
    }

    fn shut(&mut self, agent: u32) -> StepLine
        requires { IsAgent (length self.old.agents) agent }
        ensures agents { length self.new.agents ≡ length self.old.agents }
        ensures step { AtPlatform
            (PlatformMakes C.FULL (ShowsClose C.caller_view C.close_shows) agent PlatformStep.Shut result)
            self.old self.new }
    {
        let shut = self.controller.close(&self.links, agent);
        StepLine::Shut {
            agent,
            result: shut,
        }
    }

    fn advance(&mut self) -> Result<StepLine, AllocError>
        ensures agents { length self.new.agents ≡ length self.old.agents }
        ensures step { IfOk result (λ line.
            Steps C.FULL (ShowsClose C.caller_view C.close_shows) Step.Advance line self.old self.new) }
        ensures err { OnErr result (self.new ≡ self.old) }
    {
        match self.controller.advance() {
            Ok(more) => Ok(StepLine::Advanced { more }),
            Err(_) => Err(AllocError),
        }
    }

    /// Calls, serves and collects in turn; only the line of the last that was done is given.
    fn exchange(&mut self, agent: u32, call: &Call) -> Result<StepLine, AllocError>
        requires { IsAgent (length self.old.agents) agent }
        ensures agents { length self.new.agents ≡ length self.old.agents }
        ensures step { IfOk result (λ line.
            Steps C.FULL (ShowsClose C.caller_view C.close_shows) (Step.Do agent call.now) line self.old self.new) }
        ensures err { OnErr result (StopsFor (Step.Do agent call.now) self.old self.new) }
    {
        match self.call(agent, call) {
            StepLine::Token { .. } => {}
            refused => return Ok(refused),
        }
        self.serve(agent)?;
        Ok(self.collect(agent))
    }

    /// As `exchange`, beside hardware that refuses each change with this fault.
    fn exchange_refused(
        &mut self,
        agent: u32,
        fault: Fault,
        call: &Call,
    ) -> Result<StepLine, AllocError>
        requires { IsAgent (length self.old.agents) agent }
        ensures agents { length self.new.agents ≡ length self.old.agents }
        ensures step { IfOk result (λ line.
            Steps C.FULL (ShowsClose C.caller_view C.close_shows) (Step.Fail agent fault call.now) line self.old self.new) }
        ensures err { OnErr result (StopsFor (Step.Fail agent fault call.now) self.old self.new) }
    {
        match self.call(agent, call) {
            StepLine::Token { .. } => {}
            refused => return Ok(refused),
        }
        self.serve_refused(agent, fault)?;
        Ok(self.collect(agent))
    }

    fn serve_refused(&mut self, agent: u32, fault: Fault) -> Result<Served, AllocError>
        requires { IsAgent (length self.old.agents) agent }
        ensures agents { length self.new.agents ≡ length self.old.agents }
        ensures step { IfOk result (λ served. AtPlatform
            (λ before after. ServesRefused fault agent before served after) self.old self.new) }
        ensures err { OnErr result (self.new ≡ self.old) }
    {
        refused_steps::serve(fault, agent, &mut self.controller, &self.links)
    }

    fn advance_refused(&mut self, fault: Fault) -> Result<StepLine, AllocError>
        ensures agents { length self.new.agents ≡ length self.old.agents }
        ensures step { IfOk result (λ line.
            Steps C.FULL (ShowsClose C.caller_view C.close_shows) (Step.AdvanceFailed fault) line self.old self.new) }
        ensures err { OnErr result (self.new ≡ self.old) }
    {
        let more = refused_steps::advance(fault, &mut self.controller)?;
        Ok(StepLine::AdvanceFailed { more })
    }

    fn report(&mut self, report: Report) -> Result<StepLine, AllocError>
        ensures agents { length self.new.agents ≡ length self.old.agents }
        ensures step { IfOk result (λ line.
            Steps C.FULL (ShowsClose C.caller_view C.close_shows) (Step.Report report) line self.old self.new) }
        ensures err { OnErr result (self.new ≡ self.old) }
    {
        match self.controller.tell(report) {
            Ok(taken) => Ok(StepLine::Reported { taken }),
            Err(_) => Err(AllocError),
        }
    }

    fn restart(&mut self, agent: u32) -> Result<StepLine, AllocError>
        requires { IsAgent (length self.old.agents) agent }
        ensures agents { length self.new.agents ≡ length self.old.agents }
        ensures step { IfOk result (λ line.
            Steps C.FULL (ShowsClose C.caller_view C.close_shows) (Step.Restart agent) line self.old self.new) }
        ensures err { OnErr result (self.new ≡ self.old) }
    {
        match self.controller.restart(agent) {
            Ok(()) => Ok(StepLine::Restarted { agent }),
            Err(_) => Err(AllocError),
        }
    }

    fn collect(&mut self, agent: u32) -> StepLine
        requires { IsAgent (length self.old.agents) agent }
        ensures agents { length self.new.agents ≡ length self.old.agents }
        ensures step { AtAgent agent
            (Makes C.FULL (ShowsClose C.caller_view C.close_shows) agent AgentStep.Collect result)
            self.old self.new }
    {
        let index = agent as usize - 1;
        agent_steps::collect(agent, &mut self.agents[index], &self.links[index])
    }

    fn call(&mut self, agent: u32, call: &Call) -> StepLine
        requires { IsAgent (length self.old.agents) agent }
        ensures agents { length self.new.agents ≡ length self.old.agents }
        ensures step { AtAgent agent
            (Makes C.FULL (ShowsClose C.caller_view C.close_shows) agent (AgentStep.Call call.now) result)
            self.old self.new }
    {
        let index = agent as usize - 1;
        agent_steps::call(agent, call, &mut self.agents[index], &self.links[index])
    }
}
