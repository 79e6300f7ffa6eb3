//! Why the protocols of a board are left as they were.
ghost use Rattle.std.specs.Prelude.{◌≡◌, ◌≤◌, ◌<◌, ◌↔◌, Ok, Err, length, true, false};
ghost use Rattle.scmi_plan.specs.PlanError.{rises};
ghost use Rattle.scmi_plan.specs.Protocols.{AreProtocols, are_above_base};
ghost use Rattle.scmi_plan.specs.declared.limits.TheConstants.{PROTOCOLS};

use crate::limits::PROTOCOLS;
use scmi_codec::BASE_PROTOCOL;
use thiserror::Error;

/// Why `Plan::set_protocols` is refused (own).
#[derive(Clone, Copy, PartialEq, Eq, Debug, Error)]
pub enum ProtocolsError {
    /// More than 16.
    #[error("a board has at most 16 protocols besides the base protocol")]
    Count,
    /// One is not above the one before it.
    #[error("the ids of protocols rise")]
    Order,
    /// One is that of the base protocol, which every board has, or below it.
    #[error("the ids of protocols besides the base protocol are from 0x11 to 0xff")]
    Base,
}

/// The rules of the protocols of a board besides the base protocol (own): `Count` for more than 16
/// ids, then `Order` if they do not rise, then `Base` for one below 0x11.
pub fn check_protocols(ids: &[u8]) -> Result<(), ProtocolsError>
    ensures accepted { (result ≡ Ok tt) ↔ AreProtocols ids.now }
    ensures count { (result ≡ Err ProtocolsError.Count) ↔ (PROTOCOLS < length ids.now) }
    ensures order { (result ≡ Err ProtocolsError.Order)
        ↔ ((length ids.now ≤ PROTOCOLS) × (rises ids.now ≡ false)) }
{
    if ids.len() > PROTOCOLS {
        return Err(ProtocolsError::Count);
    }
    if !rises(ids) {
        return Err(ProtocolsError::Order);
    }
    if !are_above_base(ids) {
        return Err(ProtocolsError::Base);
    }
    Ok(())
}

fn rises(ids: &[u8]) -> bool
    ensures { result ≡ rises ids.now }
{
    ids.is_sorted_by(|id, next| *id < *next)
}

fn are_above_base(ids: &[u8]) -> bool
    ensures { result ≡ are_above_base ids.now }
{
    ids.iter().all(|id| *id > BASE_PROTOCOL)
}
