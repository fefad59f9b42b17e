//! How a thread waits for what another one does: it looks a bounded number of times, and then
//! gives the processor up.
//!
//! Who waits reads the count first, looks whether there is something to do, and waits where there
//! is nothing. Who has done something advances the count after it. So either the one sees what the
//! other has done, or the count has changed since it was read and it does not sleep. Of all this
//! nothing is proved: that a thread sleeps for ever would break no contract.
use std::hint;
use std::sync::Wait;
use std::sync::atomic::{AtomicU64, Ordering};

/// How often a thread looks whether the count has changed before it sleeps.
const LOOKS: u32 = 64;

/// One more than the greatest number that a sleep can be given.
const SLEEP_NUMBERS: u64 = 1 << 32;

/// A count of events, at which threads wait for the next one.
#[derive(Drop)]
pub struct EventCount {
    count: AtomicU64,
    asleep: AtomicU64,
}

impl EventCount {
    /// No event has come yet.
    pub fn new() -> EventCount {
        EventCount {
            count: AtomicU64::new(0),
            asleep: AtomicU64::new(0),
        }
    }

    /// How many events have come.
    pub fn read(&self) -> u64 {
        self.count.load(Ordering::SeqCst)
    }

    /// Counts an event, and wakes all that wait for it. Waits for nobody.
    pub fn advance(&self) {
        self.count.fetch_add(1, Ordering::SeqCst);
        if self.asleep.load(Ordering::SeqCst) > 0 {
            self.count.wake_all();
        }
    }

    /// Waits until there are more events than these. It may also return for no reason.
    pub fn wait_after<R: Wait>(&self, rt: &R, count: u64) {
        for _look in 0..LOOKS {
            if self.read() != count {
                return;
            }
            hint::spin_loop();
        }
        self.asleep.fetch_add(1, Ordering::SeqCst);
        self.count.park(rt, (count % SLEEP_NUMBERS) as u32);
        self.asleep.fetch_sub(1, Ordering::SeqCst);
    }
}
