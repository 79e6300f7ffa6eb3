//! The board that the mode `once` runs on.
ghost use Rattle.std.specs.Prelude.{◌≡◌, IfOk, map};
ghost use Rattle.scmi_core.specs.BoardB.{board_b};
ghost use Rattle.scmi_plan.specs.RawPlan.{asked_board, asked_domain, asked_clock};

use scmi_plan::{Device, Rates, RawClock, RawDomain, RawPlan};
use std::alloc::{AllocError, Global};

/// The board that the mode `once` runs on (own): two agents, of which the first is trusted, three
/// power domains, three clocks, and two devices. The only error is out of memory.
pub fn reference_board(alloc: Global) -> Result<RawPlan, AllocError>
    ensures { IfOk result (λ raw. asked_board raw ≡ board_b) }
{
    Ok(RawPlan {
        vendor: String::from_str(alloc, "Acme")?,
        sub_vendor: String::from_str(alloc, "Lab")?,
        version: 0x0001_0000,
        trusted: 1,
        agents: vec![in alloc;
            String::from_str(alloc, "ap")?,
            String::from_str(alloc, "modem")?,
        ]?,
        domains: domains(alloc)?,
        clocks: clocks(alloc)?,
        devices: vec![in alloc;
            Device {
                domains: 0b001,
                clocks: 0b001
            },
            Device {
                domains: 0b010,
                clocks: 0b000
            },
        ]?,
    })
}

fn domains(alloc: Global) -> Result<Vec<RawDomain>, AllocError>
    ensures { IfOk result (λ rows. map asked_domain rows.items ≡ board_b.domains) }
{
    Ok(vec![in alloc;
        RawDomain {
            name: String::from_str(alloc, "cpu")?,
            on: false,
            synchronous: true,
            asynchronous: true,
            notify: true,
        },
        RawDomain {
            name: String::from_str(alloc, "gpu")?,
            on: true,
            synchronous: true,
            asynchronous: false,
            notify: false,
        },
        RawDomain {
            name: String::from_str(alloc, "usb")?,
            on: false,
            synchronous: false,
            asynchronous: true,
            notify: true,
        },
    ]?)
}

fn clocks(alloc: Global) -> Result<Vec<RawClock>, AllocError>
    ensures { IfOk result (λ rows. map asked_clock rows.items ≡ board_b.clocks) }
{
    let core = vec![in alloc; 100, 200, 300]?;
    let pix = vec![in alloc;
        1, 2, 3, 4, 5, 6, 7, 8, 9, 10, 11, 12, 13, 14, 15, 16, 17, 18, 19, 20,
    ]?;
    Ok(vec![in alloc;
        RawClock {
            name: String::from_str(alloc, "core")?,
            enabled: true,
            rate: 100,
            rates: Rates::List(core),
        },
        RawClock {
            name: String::from_str(alloc, "bus")?,
            enabled: false,
            rate: 1000,
            rates: Rates::Steps {
                low: 1000,
                high: 4000,
                step: 500,
            },
        },
        RawClock {
            name: String::from_str(alloc, "pix")?,
            enabled: true,
            rate: 1,
            rates: Rates::List(pix),
        },
    ]?)
}
