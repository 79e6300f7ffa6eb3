//! How a thread waits for another.

use crate::processors::Processors;
use crossbeam_utils::Backoff;
use std::sync::Wait;
use std::thread::{Parker, yield_now};
use std::time::Duration;

/// Waits that only spin, or only yield on one processor, at first. Together they are many times
/// what an exchange takes if each thread has a processor (own).
const SPINS: u32 = 100;

/// Waits that sleep, after those: what is waited for has lost its processor to others. A thread
/// that sleeps runs soon once it wakes; one that yields waits for its turn among all (own).
const SLEEPS: u32 = 1_000;

/// Of the waits after those one in so many sleeps, and the others return at once. So 1,000,000
/// polls for what never comes end within a second, on a busy machine too (own).
const SLEEPS_ONE_IN: u32 = 1_000;

/// How long each sleep is, at least, in microseconds (own).
const SLEEP_MICROSECONDS: u64 = 50;

/// A row of waits for something that another thread does.
#[derive(Drop)]
pub struct Pause {
    processors: Processors,
    backoff: Backoff,
    parker: Parker,
    waits: u32,
}

impl Pause {
    /// No wait so far, of threads that may run at the same time.
    pub fn new() -> Pause {
        Pause::on(Processors::Several)
    }

    /// No wait so far, of threads on these processors (own).
    pub fn on(processors: Processors) -> Pause {
        Pause {
            processors,
            backoff: Backoff::new(),
            parker: Parker::new(),
            waits: 0,
        }
    }

    /// Waits a little (own). It may return early.
    pub fn wait<R: Wait>(&mut self, rt: &R) {
        self.waits = self.waits.saturating_add(1);
        if self.waits <= SPINS {
            match self.processors {
                Processors::One => yield_now(),
                Processors::Several => self.backoff.spin(),
            }
        } else if self.waits <= SPINS + SLEEPS || self.waits % SLEEPS_ONE_IN == 0 {
            self.parker
                .park_timeout(rt, Duration::from_micros(SLEEP_MICROSECONDS));
        }
    }
}
