//! What a program says of the hardware: a list that contracts alone see. It takes no byte, and no
//! code runs for it.
ghost use Rattle.std.specs.Prelude.{◌≡◌, [], List};
ghost use base.Fml.{ftrue};
ghost use Rattle.scmi_core.specs.Asked.{Asked};

use crate::platform::Platform;
use scmi_codec::Fault;
use scmi_plan::Effect;
use std::marker::Model;

/// What has been said of the hardware, in order: each change that it made or refused.
#[derive(Drop)]
pub struct Said {
    pub ghost list: { List Asked },
}

impl Model for Said {
    ghost also_owns = { λ _. ftrue };
}

/// What is said next.
#[derive(Drop)]
pub enum Saying<'a> {
    /// The hardware made this change.
    Made(Effect),
    /// It refused this change with this fault.
    Refused(Effect, Fault),
    /// It made the change of the first pending set, if one is pending.
    Completed(&'a Platform),
    /// It refused that change with this fault.
    Failed(&'a Platform, Fault),
}

impl Said {
    ghost use Rattle.scmi_core.specs.Asked.{and_asked};
    ghost use Rattle.scmi_core.specs.Said.{ask_of};

    /// Nothing was said yet.
    #[inline(always)]
    pub fn nothing() -> Said
        ensures { result.list ≡ [] }
    {
        Said {}
    }

    /// What was said, and this after it.
    #[inline(always)]
    pub fn and(&self, _saying: &Saying<'_>) -> Said
        ensures { result.list ≡ and_asked self.now.list (ask_of _saying.now) }
    {
        Said {}
    }
}
