//! The rows of a board's tables, as a program in C writes them.

/// The heading of a board. A name is its bytes up to the first zero, and so are the ids of its
/// protocols besides the base protocol; without any they are those of power domains and clocks. If
/// `loose` is not 0, a name may be empty and have blanks, and a clock may start at a rate that is
/// none of its own.
#[repr(C)]
#[derive(Clone, Copy)]
pub struct HeadingRow {
    pub vendor: [u8; 16],
    pub sub_vendor: [u8; 16],
    pub version: u32,
    pub trusted: u32,
    pub protocols: [u8; 16],
    pub loose: u32,
}

/// An agent: its name, the bytes of its channels' areas, 0 if they are whole, whether the platform
/// can't send to it: any number but 0 means that it can't, and how many of the pending sets may be
/// the agent's, 0 if all of them. The masks are of devices that are denied to it from the start, as
/// a whole, for the power protocol and for the clock protocol: bit d is for device d.
#[repr(C)]
#[derive(Clone, Copy)]
pub struct AgentRow {
    pub name: [u8; 16],
    pub bytes: u32,
    pub one_way: u32,
    pub pending: u32,
    pub denied: u32,
    pub denied_power: u32,
    pub denied_clocks: u32,
}

/// A power domain: its name, whether it is ON at the start, what it supports, whether no agent may
/// switch it off, and whether it is not there.
#[repr(C)]
#[derive(Clone, Copy)]
pub struct DomainRow {
    pub name: [u8; 16],
    pub on: u32,
    pub synchronous: u32,
    pub asynchronous: u32,
    pub notify: u32,
    pub kept: u32,
    pub absent: u32,
}

/// A clock: its name, its starting rate in Hz, whether it is enabled at the start, whether no agent
/// may switch it off, whether it is not there, whether it takes each rate as it is asked for, and
/// its rates. If `count` is not 0, they are `count` rows of the table of
/// rates, from the row `first` on; else every `step` from `low` to `high`.
#[repr(C)]
#[derive(Clone, Copy)]
pub struct ClockRow {
    pub name: [u8; 16],
    pub rate: u64,
    pub low: u64,
    pub high: u64,
    pub step: u64,
    pub first: u32,
    pub count: u32,
    pub enabled: u32,
    pub kept: u32,
    pub absent: u32,
    pub free: u32,
}

/// A device: the domains and the clocks that it holds, bit i for domain or clock i.
#[repr(C)]
#[derive(Clone, Copy)]
pub struct DeviceRow {
    pub domains: u32,
    pub clocks: u32,
}

// The sizes that `include/scmi.h` has.
const _: () = prove!(size_of::<HeadingRow>() == 60);

const _: () = prove!(size_of::<AgentRow>() == 40);

const _: () = prove!(size_of::<DomainRow>() == 40);

const _: () = prove!(size_of::<ClockRow>() == 72);

const _: () = prove!(size_of::<DeviceRow>() == 8);
