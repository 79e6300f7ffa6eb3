//! The rule of the shared table.
use crate::view::View;
use atomic_table::TableRule;

/// The rule of the table, between any two steps.
pub struct Mailbox;

impl TableRule<(), View, ()> for Mailbox {
    ghost use Rattle.scmi_words.specs.Mailbox.{HalvesAgree};
    ghost use Rattle.scmi_words.specs.View.{first_view};

    ghost holds = { λ _. HalvesAgree };

    ghost first = { λ _. first_view };
}
