//! The checks of the commands on a domain, in the order of the profile (own).
ghost use Rattle.std.specs.Prelude.{◌≡◌, ◌≤◌, ◌<◌, ◌&&◌, ◌||◌, not, true, length, if◌then◌else◌, Ok, Err, IfOk};
ghost use Rattle.scmi_codec.specs.Reply.{bit_0, AreDecided};
ghost use Rattle.scmi_codec.specs.declared.status.Status.TheVariants.{NotFound, NotSupported, Denied, Busy};
ghost use Rattle.scmi_plan.specs.Agent.{IsAgent};
ghost use Rattle.scmi_plan.specs.Plan.{IsValid};
ghost use Rattle.scmi_plan.specs.declared.limits.TheConstants.{AGENTS, DOMAINS};
ghost use Rattle.scmi_power.specs.PowerReply.{has_notifications, may_set, no_domain, supports};
ghost use Rattle.scmi_power.specs.PowerTable.{may_change, is_busy, set_words, notify_words};

use crate::domain_attributes::{has_asynchronous, has_notifications};
use crate::domain_state::{OFF, check_state};
use scmi_base::BaseState;
use scmi_codec::{Status, single_flag};
use scmi_plan::{AgentChannel, Domain, Load, Plan, Resource};

/// The checks of 0x4 (DEN0056B, power domain management protocol): domain, flags, state, kind of
/// set, permission, pending sets. Returns whether the set is asynchronous.
pub(crate) fn check_set(
    plan: &Plan,
    base: &BaseState,
    caller: u32,
    flags: u32,
    domain: u32,
    state: u32,
    load: Load,
) -> Result<bool, Status>
    requires caller { IsAgent (length plan.now.agents) caller }
    ensures decided { AreDecided
        (set_words plan.now base.now caller load flags domain state) result }
    ensures asynchronous { IfOk result (λ asynchronous. asynchronous ≡ bit_0 flags) }
    ensures known { IfOk result (λ asynchronous. domain < length plan.now.domains) }
    ensures domain { IfOk result (λ asynchronous. domain < DOMAINS) }
    ensures room { IfOk result (λ asynchronous. asynchronous ≡ true → load.room ≡ true) }
{
    check_domain(plan, domain)?;
    let asynchronous = single_flag(flags)?;
    check_state(state)?;
    check_kind(plan.channel(caller), plan.domain(domain), asynchronous)?;
    check_may_set(plan, base, caller, domain, state)?;
    check_free(domain, asynchronous, load)?;
    Ok(asynchronous)
}

/// The checks of 0x6 (DEN0056B, power domain management protocol): domain, flags, support,
/// permission. Returns whether notifications are to be enabled.
pub(crate) fn check_notify(
    plan: &Plan,
    base: &BaseState,
    caller: u32,
    domain: u32,
    enable: u32,
) -> Result<bool, Status>
    requires caller { IsAgent (length plan.now.agents) caller }
    ensures decided { AreDecided (notify_words plan.now base.now caller domain enable) result }
    ensures enabled { IfOk result (λ enabled. enabled ≡ bit_0 enable) }
    ensures domain { IfOk result (λ enabled. domain < DOMAINS) }
    ensures agent { IfOk result (λ enabled. caller ≤ AGENTS) }
{
    check_domain(plan, domain)?;
    let enabled = single_flag(enable)?;
    check_notifications(plan.channel(caller), plan.domain(domain))?;
    check_permission(plan, base, caller, domain)?;
    Ok(enabled)
}

/// NOT_FOUND if the board has no such domain, or it is not there (own).
pub(crate) fn check_domain(plan: &Plan, domain: u32) -> Result<(), Status>
    ensures first { result ≡ (if no_domain plan.now domain then Err NotFound else Ok tt) }
    ensures known { IfOk result (λ u. domain < length plan.now.domains) }
    ensures domain { IfOk result (λ u. domain < DOMAINS) }
    ensures valid { IsValid plan.now }
{
    if domain >= plan.domains() || plan.is_absent(Resource::Domain(domain)) {
        return Err(Status::NotFound);
    }
    Ok(())
}

/// NOT_SUPPORTED if a domain has no sets of a kind for an agent.
fn check_kind(channel: AgentChannel, row: &Domain, asynchronous: bool) -> Result<(), Status>
    ensures { result ≡ (if supports channel row.now asynchronous then Ok tt else Err NotSupported) }
{
    let supported = if asynchronous {
        has_asynchronous(channel, row)
    } else {
        row.synchronous
    };
    if !supported {
        return Err(Status::NotSupported);
    }
    Ok(())
}

/// NOT_SUPPORTED if a domain has no notifications for an agent.
fn check_notifications(channel: AgentChannel, row: &Domain) -> Result<(), Status>
    ensures { result
        ≡ (if has_notifications channel row.now then Ok tt else Err NotSupported) }
{
    if !has_notifications(channel, row) {
        return Err(Status::NotSupported);
    }
    Ok(())
}

/// DENIED if the caller may not change a domain.
fn check_permission(plan: &Plan, base: &BaseState, caller: u32, domain: u32) -> Result<(), Status>
    requires caller { IsAgent (length plan.now.agents) caller }
    requires domain { domain < length plan.now.domains }
    ensures { result ≡ (if may_change plan.now base.now caller domain then Ok tt else Err Denied) }
{
    if !base.may_change(plan, caller, Resource::Domain(domain)) {
        return Err(Status::Denied);
    }
    Ok(())
}

/// DENIED if the caller may not change a domain, or a set would switch off one that the board keeps
/// (own).
#[tactic(auto, unfolding(crate::specs::PowerReply::may_set))]
fn check_may_set(
    plan: &Plan,
    base: &BaseState,
    caller: u32,
    domain: u32,
    state: u32,
) -> Result<(), Status>
    requires caller { IsAgent (length plan.now.agents) caller }
    requires domain { domain < length plan.now.domains }
    ensures { result
        ≡ (if may_set plan.now (may_change plan.now base.now caller domain) domain state
        then Ok tt else Err Denied) }
{
    check_permission(plan, base, caller, domain)?;
    if state == OFF && plan.is_kept(Resource::Domain(domain)) {
        return Err(Status::Denied);
    }
    Ok(())
}

/// BUSY if a domain has a pending set, or if an asynchronous set has no room.
fn check_free(domain: u32, asynchronous: bool, load: Load) -> Result<(), Status>
    requires { domain < DOMAINS }
    ensures { result
        ≡ (if is_busy load domain || (asynchronous && not load.room) then Err Busy else Ok tt) }
{
    let is_busy = (load.busy >> domain) & 1 == 1;
    if is_busy || (asynchronous && !load.room) {
        return Err(Status::Busy);
    }
    Ok(())
}
