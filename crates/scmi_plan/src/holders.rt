//! The devices that hold each domain and each clock: bit d of a mask is for device d.
ghost use Rattle.std.specs.Prelude.{◌≤◌, length};
ghost use Rattle.scmi_plan.specs.Board.{AreHolders, IsPossible};
ghost use Rattle.scmi_plan.specs.Plan.{AreMasks};
ghost use Rattle.scmi_plan.specs.declared.limits.TheConstants.{CLOCKS, DEVICES, DOMAINS};
ghost use Rattle.scmi_plan.specs.declared.resource.Resource.TheVariants as resource;

use crate::device::Device;
use crate::limits::{CLOCKS, DOMAINS};
use crate::mask::with_bit;
use crate::resource::Resource;

/// Fills in the devices that hold each domain that a board may have.
#[inline(never)]
pub(crate) fn fill_domain_holders(masks: &mut [u32; DOMAINS], devices: &[Device])
    requires { length devices.now ≤ DEVICES }
    ensures { AreMasks devices.now resource.Domain DOMAINS masks.new }
{
    for domain in 0..DOMAINS as u32 {
        let mask = holders_of(devices, Resource::Domain(domain));
        masks[domain as usize] = mask;
    }
}

/// Fills in the devices that hold each clock that a board may have.
#[inline(never)]
pub(crate) fn fill_clock_holders(masks: &mut [u32; CLOCKS], devices: &[Device])
    requires { length devices.now ≤ DEVICES }
    ensures { AreMasks devices.now resource.Clock CLOCKS masks.new }
{
    for clock in 0..CLOCKS as u32 {
        let mask = holders_of(devices, Resource::Clock(clock));
        masks[clock as usize] = mask;
    }
}

/// The devices that hold a domain or clock.
// Its callers' loops would repeat it.
#[inline(never)]
fn holders_of(devices: &[Device], resource: Resource) -> u32
    requires few { length devices.now ≤ DEVICES }
    requires possible { IsPossible resource }
    ensures { AreHolders devices.now resource result }
{
    let mut mask = 0;
    for device in 0..devices.len() as u32 {
        if devices[device as usize].holds(resource) {
            mask = with_bit(mask, device);
        }
    }
    mask
}
