//! The line of a domain, as it is read.
ghost use Rattle.scmi_plan.specs.RawPlan.{asked_domain};
ghost use Rattle.scmi_board.specs.Items.{items_left};
ghost use Rattle.scmi_board.specs.LineError.{Gives, GivesUnless};
ghost use Rattle.scmi_board.specs.Rows.{after_each, first_domain, with_kind, with_kinds};

use crate::fields::{read_name, read_switch};
use crate::items::Items;
use crate::line_error::LineError;
use crate::words::NONE;
use scmi_plan::RawDomain;
use std::alloc::Global;
use std::mem;

/// What follows `domain`: `NAME on|off KINDS`.
#[tactic(auto, unfolding(crate::specs::Rows::first_domain))]
pub(crate) fn read_domain(alloc: Global, items: &mut Items<'_>) -> Result<RawDomain, LineError>
    ensures { GivesUnless (λ domain. (asked_domain domain, items_left items.new)) result
        (first_domain (items_left items.old)) }
{
    let mut domain = RawDomain {
        name: read_name(alloc, items)?,
        on: read_switch(items)?,
        synchronous: false,
        asynchronous: false,
        notify: false,
    };
    add_kinds(&mut domain, items.next_item()?)?;
    Ok(domain)
}

/// Gives the domain kinds: `-`, or some of `s`, `a` and `n`, each at most once.
#[tactic(auto, unfolding(crate::specs::Rows::with_kinds))]
fn add_kinds(domain: &mut RawDomain, kinds: &[u8]) -> Result<(), LineError>
    ensures { Gives (λ _. asked_domain domain.new) result
        (with_kinds (asked_domain domain.old) kinds.now) }
{
    if kinds == NONE {
        return Ok(());
    }
    add_each(domain, kinds)
}

fn add_each(domain: &mut RawDomain, kinds: &[u8]) -> Result<(), LineError>
    ensures { Gives (λ _. asked_domain domain.new) result
        (after_each with_kind (asked_domain domain.old) kinds.now) }
{
    for kind in kinds {
        add_kind(domain, *kind)?;
    }
    Ok(())
}

/// Gives the domain a kind that it does not have.
#[tactic(auto, unfolding(crate::specs::Rows::with_kind))]
fn add_kind(domain: &mut RawDomain, kind: u8) -> Result<(), LineError>
    ensures { Gives (λ _. asked_domain domain.new) result
        (with_kind (asked_domain domain.old) kind) }
{
    let again = match kind {
        b's' => mem::replace(&mut domain.synchronous, true),
        b'a' => mem::replace(&mut domain.asynchronous, true),
        b'n' => mem::replace(&mut domain.notify, true),
        _ => return Err(LineError::Form),
    };
    if again {
        return Err(LineError::Form);
    }
    Ok(())
}
