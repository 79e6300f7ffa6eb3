//! Which agent is allowed on which device, and for which protocol.
ghost use Rattle.std.specs.Prelude.{◌≡◌, ◌≤◌, ◌<◌, ◌==◌, ◌&&◌, ◌↔◌, ℕ, true, if◌then◌else◌, length, IfSome};
ghost use Rattle.std.specs.Int.{bit_at};
ghost use Rattle.scmi_plan.specs.Agent.{IsAgent};
ghost use Rattle.scmi_plan.specs.Board.{IsOnBoard};
ghost use Rattle.scmi_base.specs.BaseReply.{base_reply};
ghost use Rattle.scmi_base.specs.Permission.{may, allows, protocol_of, is_scope, is_allowed, reset_after, HasPermitted};
ghost use Rattle.scmi_plan.specs.declared.scope.Scope.{Scope};
ghost use Rattle.scmi_codec.specs.declared.base_command.BaseCommand.TheVariants.{Permit, PermitProtocol, ResetAgent};
ghost use Rattle.scmi_plan.specs.declared.limits.TheConstants.{AGENTS, DEVICES};

use crate::base_done::BaseDone;
use crate::checks::{check_permit, check_permit_protocol, check_reset};
use crate::discovery::{
    agent_of, attributes, implementation, message_attributes, protocols, set_name, version,
};
use crate::permission_table::PermissionTable;
use scmi_codec::{BaseCommand, Payload, SUCCESS, payload_of, set_payload, set_refusal};
use scmi_plan::{Plan, Resource, Scope};
use std::marker::Model;

/// Which agent is allowed on which device, as a whole and for each protocol: a device permission and
/// a protocol permission are set apart, and neither touches the other (own).
#[derive(Drop, Debug)]
pub struct BaseState {
    devices: PermissionTable,
    power: PermissionTable,
    clocks: PermissionTable,
}

impl Model for BaseState {
    ghost use Rattle.scmi_base.specs.Permission.{Permissions};

    ghost Value = { Permissions };

    ghost view = { λ s. record { devices = s.devices; power = s.power; clocks = s.clocks } };
}

impl BaseState {
    /// The state of a board at the start: all agents are allowed on all devices, but for what the
    /// board denies (own).
    pub fn new(plan: &Plan) -> BaseState
        ensures { result ≡ plan.now.denied }
    {
        let denied = plan.denied();
        BaseState {
            devices: PermissionTable::of(&denied.devices),
            power: PermissionTable::of(&denied.power),
            clocks: PermissionTable::of(&denied.clocks),
        }
    }

    /// Becomes the same as another state.
    pub fn copy_from(&mut self, other: &BaseState)
        ensures { self.new ≡ other.now }
    {
        self.devices.copy_from(&other.devices);
        self.power.copy_from(&other.power);
        self.clocks.copy_from(&other.clocks);
    }

    /// Whether another state is the same.
    pub fn is_same(&self, other: &BaseState) -> bool
        ensures { (result ≡ true) ↔ (self.now ≡ other.now) }
    {
        self.devices.is_same(&other.devices)
            && self.power.is_same(&other.power)
            && self.clocks.is_same(&other.clocks)
    }

    /// Executes a command of a caller (DEN0056B, base protocol), and gives the reply and the agent
    /// that it reset, whose notification requests end. The reply begins with a status: NOT_FOUND
    /// for an unknown message, agent, device or protocol, then INVALID_PARAMETERS for a skip past
    /// the protocols, for a protocol's word with more than its id, or for flag bits besides bit 0,
    /// then DENIED if a caller that is not trusted would change permissions or reset an agent
    /// (own). A command that is refused changes nothing.
    pub fn execute(&mut self, plan: &Plan, caller: u32, command: BaseCommand) -> BaseDone
        ensures reply { result.reply.items ≡ base_reply plan.now caller command }
        ensures allowed { HasPermitted plan.now (base_reply plan.now caller command) command
            self.old self.new }
        ensures reset { result.reset
            ≡ reset_after (base_reply plan.now caller command) command }
        ensures known { IfSome result.reset (IsAgent AGENTS) }
    {
        let mut reply = payload_of(&[]);
        let reset = self.execute_into(plan, caller, command, &mut reply);
        BaseDone { reply, reset }
    }

    /// As `execute`, with the reply written into `reply`: returns the agent that was reset.
    #[tactic(auto, unfolding(crate::specs::BaseReply::base_reply))]
    pub fn execute_into(
        &mut self,
        plan: &Plan,
        caller: u32,
        command: BaseCommand,
        reply: &mut Payload,
    ) -> Option<u32>
        ensures reply { reply.new.items ≡ base_reply plan.now caller command }
        ensures allowed { HasPermitted plan.now (base_reply plan.now caller command) command
            self.old self.new }
        ensures reset { result ≡ reset_after (base_reply plan.now caller command) command }
        ensures known { IfSome result (IsAgent AGENTS) }
    {
        match command {
            BaseCommand::Version => version(reply),
            BaseCommand::Attributes => attributes(plan, reply),
            BaseCommand::MessageAttributes { message } => message_attributes(message, reply),
            BaseCommand::Vendor => set_name(plan.vendor(), reply),
            BaseCommand::SubVendor => set_name(plan.sub_vendor(), reply),
            BaseCommand::Implementation => implementation(plan, reply),
            BaseCommand::Protocols { skip } => protocols(plan, skip, reply),
            BaseCommand::Agent { agent } => agent_of(plan, caller, agent, reply),
            BaseCommand::Permit {
                agent,
                device,
                flags,
            } => self.permit(plan, caller, agent, device, flags, reply),
            BaseCommand::PermitProtocol {
                agent,
                device,
                protocol,
                flags,
            } => self.permit_protocol(plan, caller, agent, device, protocol, flags, reply),
            BaseCommand::ResetAgent { agent, flags } => {
                return self.reset_agent(plan, caller, agent, flags, reply);
            }
        }
        None
    }

    /// Whether an agent may change a resource: no device holds it, or on a device that holds it neither
    /// the device nor the resource's protocol is denied to the agent (own).
    pub fn may_change(&self, plan: &Plan, agent: u32, resource: Resource) -> bool
        requires agent { IsAgent (length plan.now.agents) agent }
        requires resource { IsOnBoard plan.now resource }
        ensures { result ≡ may plan.now (λ device. is_allowed self.now agent device) resource }
    {
        let _agents = plan.agents();
        let holders = plan.holders(resource);
        holders == 0 || holders & self.allowed(agent, resource) != 0
    }

    /// Allows an agent on every device, for every protocol.
    pub fn reset(&mut self, agent: u32)
        requires agent { IsAgent AGENTS agent }
        ensures { (a d : ℕ) (s : Scope) → 1 ≤ a → d < DEVICES → is_allowed self.new a d s
            ≡ (if agent == a then true else is_allowed self.old a d s) }
    {
        self.devices.allow(agent);
        self.power.allow(agent);
        self.clocks.allow(agent);
    }

    /// Gives an agent the permissions again that the board begins with.
    fn begin_again(&mut self, plan: &Plan, agent: u32)
        requires agent { IsAgent AGENTS agent }
        ensures { (a d : ℕ) (s : Scope) → 1 ≤ a → d < DEVICES → is_allowed self.new a d s
            ≡ (if agent == a then is_allowed plan.now.denied a d s
            else is_allowed self.old a d s) }
    {
        let denied = plan.denied();
        self.devices.begin_again(agent, &denied.devices);
        self.power.begin_again(agent, &denied.power);
        self.clocks.begin_again(agent, &denied.clocks);
    }

    /// 0x9: allows or denies an agent a device.
    fn permit(
        &mut self,
        plan: &Plan,
        caller: u32,
        agent: u32,
        device: u32,
        flags: u32,
        reply: &mut Payload,
    )
        ensures reply { reply.new.items ≡ base_reply plan.now caller (Permit agent device flags) }
        ensures allowed { HasPermitted plan.now (base_reply plan.now caller (Permit agent device flags))
            (Permit agent device flags) self.old self.new }
    {
        match check_permit(plan, caller, agent, device, flags) {
            Ok(allow) => {
                self.set(agent, device, Scope::Device, allow);
                set_payload(reply, &[SUCCESS]);
            }
            Err(status) => set_refusal(reply, status),
        }
    }

    /// 0xA: allows or denies an agent a protocol on a device.
    fn permit_protocol(
        &mut self,
        plan: &Plan,
        caller: u32,
        agent: u32,
        device: u32,
        protocol: u32,
        flags: u32,
        reply: &mut Payload,
    )
        ensures reply { reply.new.items
            ≡ base_reply plan.now caller (PermitProtocol agent device protocol flags) }
        ensures allowed { HasPermitted plan.now
            (base_reply plan.now caller (PermitProtocol agent device protocol flags))
            (PermitProtocol agent device protocol flags) self.old self.new }
    {
        match check_permit_protocol(plan, caller, agent, device, protocol, flags) {
            Ok((scope, allow)) => {
                self.set(agent, device, scope, allow);
                set_payload(reply, &[SUCCESS]);
            }
            Err(status) => set_refusal(reply, status),
        }
    }

    /// 0xB: resets an agent, its permissions too if the flags ask for it.
    fn reset_agent(
        &mut self,
        plan: &Plan,
        caller: u32,
        agent: u32,
        flags: u32,
        reply: &mut Payload,
    ) -> Option<u32>
        ensures reply { reply.new.items ≡ base_reply plan.now caller (ResetAgent agent flags) }
        ensures allowed { HasPermitted plan.now (base_reply plan.now caller (ResetAgent agent flags))
            (ResetAgent agent flags) self.old self.new }
        ensures reset { result ≡ reset_after (base_reply plan.now caller (ResetAgent agent flags))
            (ResetAgent agent flags) }
        ensures known { IfSome result (IsAgent AGENTS) }
    {
        match check_reset(plan, caller, agent, flags) {
            Ok(permissions) => {
                if permissions {
                    self.begin_again(plan, agent);
                }
                set_payload(reply, &[SUCCESS]);
                Some(agent)
            }
            Err(status) => {
                set_refusal(reply, status);
                None
            }
        }
    }

    // The devices where neither the device nor the resource's protocol is denied to an agent, bit d
    // for device d.
    fn allowed(&self, agent: u32, resource: Resource) -> u32
        requires agent { IsAgent AGENTS agent }
        ensures { (d : ℕ) → d < DEVICES → (bit_at result d == 1)
            ≡ allows (is_allowed self.now agent d) (protocol_of resource) }
    {
        let protocol = match resource {
            Resource::Domain(_) => self.power.devices(agent),
            Resource::Clock(_) => self.clocks.devices(agent),
        };
        self.devices.devices(agent) & protocol
    }

    fn set(&mut self, agent: u32, device: u32, scope: Scope, allow: bool)
        requires agent { IsAgent AGENTS agent }
        requires device { device < DEVICES }
        ensures { (a d : ℕ) (s : Scope) → 1 ≤ a → d < DEVICES → is_allowed self.new a d s
            ≡ (if agent == a && device == d && is_scope scope s then allow
            else is_allowed self.old a d s) }
    {
        match scope {
            Scope::Device => self.devices.set(agent, device, allow),
            Scope::Power => self.power.set(agent, device, allow),
            Scope::Clock => self.clocks.set(agent, device, allow),
        }
    }
}
