//! What time it is.
ghost use Rattle.std.specs.Prelude.{◌≡◌};

/// What gives the time. It never fails, and the time may go back.
pub trait Clock: Copy + Send {
    /// Microseconds since the start of 1970.
    fn now(&mut self) -> u64;
}

/// A clock that stands still.
#[derive(Clone, Copy, Debug, PartialEq, Eq)]
pub struct FixedClock {
    /// Microseconds since the start of 1970.
    pub micros: u64,
}

impl Clock for FixedClock {
    fn now(&mut self) -> u64
        ensures time { result ≡ self.old.micros }
        ensures same { self.new ≡ self.old }
    {
        self.micros
    }
}
