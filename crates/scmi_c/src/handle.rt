//! A platform as a C program holds it.
ghost use Rattle.std.specs.Prelude.{◌≡◌, ◌↔◌, ◌⊎◌, Option, Some, None, MatchOption, IsSomeAnd, IfOk, IfErr, OnOk, OnErr, Err};
ghost use Rattle.scmi_c.specs.Kept.{Kept, IsAsked, IsBusy, IsFree, IsUnasked};
ghost use Rattle.scmi_c.specs.declared.code.TheConstants.{ASKED, NO_PLATFORM};

use crate::code::{ASKED, NO_PLATFORM};
use crate::desk::Desk;
use crate::loose::Loose;
use std::alloc::Global;
use std::marker::Model;
use std::ptr::null_mut;

/// A boxed platform as its pointer, or nothing, which is null.
#[repr(C)]
#[derive(Drop)]
pub struct Handle {
    at: *mut u8,
    pub ghost value: { Option Kept },
}

impl Model for Handle {
    ghost use Rattle.scmi_c.specs.Handle.{holds_value};
    ghost use Rattle.scmi_c.specs.contracts.desk.Desk.{the_row};
    ghost use Rattle.std.specs.contracts.impls.GlobalAllocator.TheImpl.{ghosts};

    ghost also_owns = { λ h. holds_value ghosts.dealloc_token the_row h.at h.value };
}

impl Handle {
    /// Takes the platform out as its pointer, and leaves nothing. The pointer is read and written as
    /// a field, since a handle is copied byte by byte.
    #[inline(always)]
    fn take_loose(&mut self, alloc: Global) -> Option<Loose<Desk, Global>>
        ensures { MatchOption result
            (self.old.value ≡ None) (λ loose. self.old.value ≡ Some loose.value)
            × (self.new.value ≡ None) }
    {
        let at = self.at;
        if at.is_null() {
            None
        } else {
            self.at = null_mut();
            Some(Loose {
                at: at.cast::<Desk>(),
                alloc,
            })
        }
    }

    /// Holds a platform by its pointer, if nothing was held.
    #[inline(always)]
    fn put_loose(&mut self, loose: Loose<Desk, Global>)
        requires { self.old.value ≡ None }
        ensures { self.new.value ≡ Some loose.value }
    {
        let Loose { at, alloc: _ } = loose;
        self.at = at.cast::<u8>();
    }

    /// Takes the platform out, and leaves nothing.
    pub fn take(&mut self, alloc: Global) -> Option<Box<Desk>>
        ensures taken { MatchOption result
            (self.old.value ≡ None) (λ desk. self.old.value ≡ Some desk.value) }
        ensures left { self.new.value ≡ None }
    {
        match self.take_loose(alloc) {
            Some(loose) => Some(loose.into_box()),
            None => None,
        }
    }

    /// Takes a platform out of which no command was asked about, and leaves nothing. `NO_PLATFORM`
    /// if there is none, and `ASKED` if a command waits; then nothing changed.
    pub fn take_unasked(&mut self, alloc: Global) -> Result<Box<Desk>, u32>
        ensures taken { IfOk result (λ desk. self.old.value ≡ Some desk.value) }
        ensures unasked { IfOk result (λ desk. IsUnasked desk.value) }
        ensures left { OnOk result (self.new.value ≡ None) }
        ensures no_platform { (result ≡ Err NO_PLATFORM) ↔ (self.old.value ≡ None) }
        ensures asked { (result ≡ Err ASKED) ↔ IsSomeAnd self.old.value IsAsked }
        ensures errors { IfErr result (λ n. (n ≡ NO_PLATFORM) ⊎ (n ≡ ASKED)) }
        ensures kept { OnErr result (self.new.value ≡ self.old.value) }
    {
        let Some(desk) = self.take(alloc) else {
            return Err(NO_PLATFORM);
        };
        if desk.is_asked() {
            self.put(desk);
            return Err(ASKED);
        }
        Ok(desk)
    }

    /// Takes a platform out of which no command was asked about and none is set aside, and leaves
    /// nothing. `NO_PLATFORM` if there is none, and `ASKED` if a command waits or is set aside;
    /// then nothing changed.
    pub fn take_free(&mut self, alloc: Global) -> Result<Box<Desk>, u32>
        ensures taken { IfOk result (λ desk. self.old.value ≡ Some desk.value) }
        ensures free { IfOk result (λ desk. IsFree desk.value) }
        ensures unasked { IfOk result (λ desk. IsUnasked desk.value) }
        ensures left { OnOk result (self.new.value ≡ None) }
        ensures no_platform { (result ≡ Err NO_PLATFORM) ↔ (self.old.value ≡ None) }
        ensures asked { (result ≡ Err ASKED) ↔ IsSomeAnd self.old.value IsBusy }
        ensures errors { IfErr result (λ n. (n ≡ NO_PLATFORM) ⊎ (n ≡ ASKED)) }
        ensures kept { OnErr result (self.new.value ≡ self.old.value) }
    {
        let Some(desk) = self.take(alloc) else {
            return Err(NO_PLATFORM);
        };
        if desk.is_busy() {
            self.put(desk);
            return Err(ASKED);
        }
        Ok(desk)
    }

    /// Holds a platform, if nothing was held.
    pub fn put(&mut self, desk: Box<Desk>)
        requires { self.old.value ≡ None }
        ensures { self.new.value ≡ Some desk.value }
    {
        self.put_loose(Loose::of(desk));
    }
}
