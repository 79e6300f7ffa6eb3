//! A clock of a board.

use crate::rates::Rates;
use scmi_codec::Name;
use std::marker::Model;

/// A clock: its name, whether it is enabled at the start, its starting rate in Hz, and the rates
/// that it supports.
#[derive(Debug, Drop)]
pub struct Clock {
    pub name: Name,
    pub enabled: bool,
    pub rate: u64,
    pub rates: Rates,
}

impl Model for Clock {
    ghost use Rattle.scmi_plan.specs.ClockView.{ClockView};
    ghost use Rattle.scmi_plan.specs.Rates.{rates_of};

    ghost Value = { ClockView };

    ghost view = { λ c. record {
      name = c.name;
      enabled = c.enabled;
      rate = c.rate;
      rates = rates_of c.rates;
    } };
}
