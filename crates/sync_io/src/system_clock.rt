//! The clock of the system.

use crate::Clock;
use std::alloc::AllocError;
use std::time;

/// The system's clock. It gives 0 where that fails.
pub struct SystemClock<'a, R: time::Clock> {
    rt: &'a R,
}

impl<R: time::Clock> Clone for SystemClock<'_, R> {
    fn clone(&self) -> Result<Self, AllocError> {
        Ok(*self)
    }
}

impl<R: time::Clock> Copy for SystemClock<'_, R> {}

impl<'a, R: time::Clock> SystemClock<'a, R> {
    /// The clock of this runtime.
    pub fn new(rt: &'a R) -> SystemClock<'a, R> {
        SystemClock { rt }
    }
}

impl<R: time::Clock + Sync> Clock for SystemClock<'_, R> {
    fn now(&mut self) -> u64 {
        match self.rt.since_1970() {
            Ok(time) => u64::try_from(time.as_micros()).unwrap_or(u64::MAX),
            Err(_) => 0,
        }
    }
}
