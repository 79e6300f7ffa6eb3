//! The places of an area's fields, in bytes (DEN0056B, shared memory transport).

pub(crate) const STATUS_AT: usize = 0x04;

pub(crate) const LENGTH_AT: usize = 0x14;

pub(crate) const HEADER_AT: usize = 0x18;

pub(crate) const PAYLOAD_AT: usize = 0x1c;
