//! The forms of the lines of scripts that run in threads, and the words that such lines begin with.
use crate::word_row::{HeldRow, rows};

/// The form of a line of scripts.
#[derive(Clone, Copy)]
pub(crate) enum ScriptForm {
    /// The line begins a script.
    Script,
    Order(OrderForm),
}

/// The form of an order.
#[derive(Clone, Copy)]
pub(crate) enum OrderForm {
    Call,
    Until,
    P2a,
    Close,
}

/// The first words of the lines of scripts.
pub(crate) const SCRIPT_FORMS: [HeldRow<ScriptForm>; 5] = rows![
    b"call" ScriptForm::Order(OrderForm::Call);
    b"until" ScriptForm::Order(OrderForm::Until);
    b"p2a" ScriptForm::Order(OrderForm::P2a);
    b"close" ScriptForm::Order(OrderForm::Close);
    b"script" ScriptForm::Script;
];
