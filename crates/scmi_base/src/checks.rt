//! The checks of the commands that change permissions, in the order of the profile (own).
ghost use Rattle.std.specs.Prelude.{◌≡◌, ◌<◌, ◌==◌, if◌then◌else◌, nat_lt, Ok, Err, IfOk};
ghost use Rattle.scmi_codec.specs.Reply.{bit_0, AreDecided};
ghost use Rattle.scmi_codec.specs.declared.status.Status.TheVariants.{Denied, NotFound, InvalidParameters};
ghost use Rattle.scmi_base.specs.BaseReply.{base_reply, no_agent, no_device, no_protocol};
ghost use Rattle.scmi_codec.specs.declared.base_command.BaseCommand.TheVariants.{Permit, PermitProtocol, ResetAgent};
ghost use Rattle.scmi_base.specs.Permission.{protocol_named};
ghost use Rattle.scmi_plan.specs.Agent.{IsAgent};
ghost use Rattle.scmi_plan.specs.declared.limits.TheConstants.{AGENTS, DEVICES};

use scmi_codec::{CLOCK_PROTOCOL, POWER_PROTOCOL, Status, single_flag};
use scmi_plan::{Plan, Scope};

/// The checks of 0x9 (DEN0056B, base protocol): agent, device, flags, caller. Returns whether the
/// agent is to be allowed on the device.
#[tactic(auto, unfolding(crate::specs::BaseReply::base_reply))]
pub(crate) fn check_permit(
    plan: &Plan,
    caller: u32,
    agent: u32,
    device: u32,
    flags: u32,
) -> Result<bool, Status>
    ensures decided { AreDecided (base_reply plan.now caller (Permit agent device flags)) result }
    ensures allow { IfOk result (λ allow. allow ≡ bit_0 flags) }
    ensures agent { IfOk result (λ allow. IsAgent AGENTS agent) }
    ensures device { IfOk result (λ allow. device < DEVICES) }
{
    check_agent(plan, agent)?;
    check_device(plan, device)?;
    let allow = single_flag(flags)?;
    check_trusted(plan, caller)?;
    Ok(allow)
}

/// The checks of 0xA (own): agent, device, protocol, the bits of its word besides the id, flags,
/// caller. Returns the protocol, and whether it is to be allowed on the device.
#[tactic(auto, unfolding(crate::specs::BaseReply::base_reply))]
pub(crate) fn check_permit_protocol(
    plan: &Plan,
    caller: u32,
    agent: u32,
    device: u32,
    protocol: u32,
    flags: u32,
) -> Result<(Scope, bool), Status>
    ensures decided { AreDecided
        (base_reply plan.now caller (PermitProtocol agent device protocol flags)) result }
    ensures scope { IfOk result (λ r. r.0 ≡ protocol_named protocol) }
    ensures allow { IfOk result (λ r. r.1 ≡ bit_0 flags) }
    ensures agent { IfOk result (λ r. IsAgent AGENTS agent) }
    ensures device { IfOk result (λ r. device < DEVICES) }
{
    check_agent(plan, agent)?;
    check_device(plan, device)?;
    let scope = check_protocol(plan, protocol)?;
    check_id_alone(protocol)?;
    let allow = single_flag(flags)?;
    check_trusted(plan, caller)?;
    Ok((scope, allow))
}

/// The checks of 0xB (DEN0056B, base protocol): agent, flags, caller. Returns whether permissions
/// are to be reset too.
#[tactic(auto, unfolding(crate::specs::BaseReply::base_reply))]
pub(crate) fn check_reset(plan: &Plan, caller: u32, agent: u32, flags: u32) -> Result<bool, Status>
    ensures decided { AreDecided (base_reply plan.now caller (ResetAgent agent flags)) result }
    ensures permissions { IfOk result (λ permissions. permissions ≡ bit_0 flags) }
    ensures agent { IfOk result (λ permissions. IsAgent AGENTS agent) }
{
    check_agent(plan, agent)?;
    let permissions = single_flag(flags)?;
    check_trusted(plan, caller)?;
    Ok(permissions)
}

/// NOT_FOUND if the board has no such agent.
fn check_agent(plan: &Plan, agent: u32) -> Result<(), Status>
    ensures first { result ≡ (if no_agent plan.now agent then Err NotFound else Ok tt) }
    ensures agent { IfOk result (λ u. IsAgent AGENTS agent) }
{
    if agent == 0 || agent > plan.agents() {
        return Err(Status::NotFound);
    }
    Ok(())
}

/// NOT_FOUND if the board has no such device.
fn check_device(plan: &Plan, device: u32) -> Result<(), Status>
    ensures first { result ≡ (if no_device plan.now device then Err NotFound else Ok tt) }
    ensures device { IfOk result (λ u. device < DEVICES) }
{
    if device >= plan.devices() {
        return Err(Status::NotFound);
    }
    Ok(())
}

/// NOT_FOUND if the low eight bits of a word are not the id of a protocol with resources that the
/// board has.
fn check_protocol(plan: &Plan, word: u32) -> Result<Scope, Status>
    ensures { result
        ≡ (if no_protocol plan.now word then Err NotFound else Ok (protocol_named word)) }
{
    let id = (word % 0x100) as u8;
    let scope = match id {
        POWER_PROTOCOL => Scope::Power,
        CLOCK_PROTOCOL => Scope::Clock,
        _ => return Err(Status::NotFound),
    };
    if !plan.serves(id) {
        return Err(Status::NotFound);
    }
    Ok(scope)
}

/// INVALID_PARAMETERS if a word has more than a protocol's id in its low eight bits.
fn check_id_alone(word: u32) -> Result<(), Status>
    ensures { result ≡ (if nat_lt 0xFF word then Err InvalidParameters else Ok tt) }
{
    if word > 0xff {
        return Err(Status::InvalidParameters);
    }
    Ok(())
}

/// DENIED if the caller is not the trusted agent.
fn check_trusted(plan: &Plan, caller: u32) -> Result<(), Status>
    ensures { result ≡ (if caller == plan.now.trusted then Ok tt else Err Denied) }
{
    if caller != plan.trusted() {
        return Err(Status::Denied);
    }
    Ok(())
}
