//! The attributes of a power domain.
ghost use Rattle.std.specs.Prelude.{◌≡◌};
ghost use Rattle.scmi_power.specs.PowerReply.{attributes, bit, has_asynchronous, has_notifications};

use scmi_plan::{AgentChannel, Domain};

/// The domain has notifications of its changes.
const NOTIFICATIONS: u32 = 1 << 31;

/// The domain can be set asynchronously.
const ASYNCHRONOUS: u32 = 1 << 30;

/// The domain can be set synchronously.
const SYNCHRONOUS: u32 = 1 << 29;

/// What a domain supports for an agent, as a word of attributes.
pub(crate) fn attributes_of(channel: AgentChannel, row: &Domain) -> u32
    ensures { result ≡ attributes channel row.now }
{
    flag(has_notifications(channel, row), NOTIFICATIONS)
        + flag(has_asynchronous(channel, row), ASYNCHRONOUS)
        + flag(row.synchronous, SYNCHRONOUS)
}

/// Whether a domain has notifications for an agent: none if the platform can't send to it (own).
pub(crate) fn has_notifications(channel: AgentChannel, row: &Domain) -> bool
    ensures { result ≡ has_notifications channel row.now }
{
    !channel.one_way && row.notify
}

/// Whether a domain has asynchronous sets for an agent: none if the platform can't send to it
/// (own).
pub(crate) fn has_asynchronous(channel: AgentChannel, row: &Domain) -> bool
    ensures { result ≡ has_asynchronous channel row.now }
{
    !channel.one_way && row.asynchronous
}

/// The bits of an attribute that a domain has, or none.
fn flag(has: bool, bits: u32) -> u32
    ensures { result ≡ bit has bits }
{
    if has { bits } else { 0 }
}
