//! Why hardware refuses a change.
ghost use Rattle.std.specs.Prelude.{◌≡◌, Some, map};
ghost use Rattle.scmi_codec.specs.Fault.{fault_in, fault_of, fault_status, named, named_statuses};

use crate::status::{STATUSES, Status, StatusRow};

/// Why the hardware refused a change: the status that the agent gets (own).
#[derive(Clone, Copy, PartialEq, Eq, Debug)]
pub enum Fault {
    NotSupported,
    InvalidParameters,
    Denied,
    OutOfRange,
    Busy,
    GenericError,
    HardwareError,
}

impl Fault {
    /// The status that the agent gets.
    pub fn status(self) -> Status
        ensures status { result ≡ fault_status self }
        ensures back { fault_of result ≡ Some self }
    {
        match self {
            Fault::NotSupported => Status::NotSupported,
            Fault::InvalidParameters => Status::InvalidParameters,
            Fault::Denied => Status::Denied,
            Fault::OutOfRange => Status::OutOfRange,
            Fault::Busy => Status::Busy,
            Fault::GenericError => Status::GenericError,
            Fault::HardwareError => Status::HardwareError,
        }
    }

    /// The fault of a status; `None` of a status that says nothing of the hardware: SUCCESS,
    /// NOT_FOUND, COMMS_ERROR and PROTOCOL_ERROR.
    pub fn of_status(status: Status) -> Option<Fault>
        ensures { result ≡ fault_of status }
    {
        match status {
            Status::NotSupported => Some(Fault::NotSupported),
            Status::InvalidParameters => Some(Fault::InvalidParameters),
            Status::Denied => Some(Fault::Denied),
            Status::OutOfRange => Some(Fault::OutOfRange),
            Status::Busy => Some(Fault::Busy),
            Status::GenericError => Some(Fault::GenericError),
            Status::HardwareError => Some(Fault::HardwareError),
            Status::Success | Status::NotFound | Status::CommsError | Status::ProtocolError => None,
        }
    }

    /// The fault of a status, by its name in DEN0056B; `None` if no status has it, or one that says
    /// nothing of the hardware.
    pub fn of_name(name: &[u8]) -> Option<Fault>
        ensures { result ≡ fault_in name.now named_statuses }
    {
        fault_in(&STATUSES, name)
    }
}

/// The fault of the first row of a name.
fn fault_in(mut rows: &[StatusRow<&'static str>], name: &[u8]) -> Option<Fault>
    ensures { result ≡ fault_in name.now (map named rows.entry.now) }
{
    while let [row, rest @ ..] = rows {
        if row.name.as_bytes() == name {
            return Fault::of_status(row.status);
        }
        rows = rest;
    }
    None
}
