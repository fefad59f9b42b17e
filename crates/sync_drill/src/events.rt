//! What the threads of a drill let each other know: that something was written, offered or taken,
//! and that one of them has ended. It decides when they wait, and nothing else.
use ldap_ber::NoMemory;
use link_rings::EventCount;
use std::alloc::Global;
use std::sync::Wait;
use std::sync::atomic::{AtomicU64, Ordering};

/// How often a thread lets others run while one that it needs has not begun.
const PATIENCE: u32 = 10_000;

/// What the threads of one consumer let each other know.
#[derive(Drop)]
pub(crate) struct RingEvents {
    /// Something was offered, or nothing more will be.
    pub(crate) offered: EventCount,
    /// Something was taken.
    pub(crate) taken: EventCount,
    hands_out: AtomicU64,
    takes: AtomicU64,
}

/// How far a thread is.
const AWAITED: u64 = 0;

const BEGUN: u64 = 1;

const ENDED: u64 = 2;

impl RingEvents {
    fn new() -> RingEvents {
        RingEvents {
            offered: EventCount::new(),
            taken: EventCount::new(),
            hands_out: AtomicU64::new(AWAITED),
            takes: AtomicU64::new(AWAITED),
        }
    }

    /// The thread that hands out has begun.
    pub(crate) fn begin_handing_out(&self) {
        self.hands_out.store(BEGUN, Ordering::SeqCst);
    }

    /// It has ended.
    pub(crate) fn end_handing_out(&self) {
        self.hands_out.store(ENDED, Ordering::SeqCst);
        self.offered.advance();
    }

    /// The thread that takes has begun.
    pub(crate) fn begin_taking(&self) {
        self.takes.store(BEGUN, Ordering::SeqCst);
    }

    /// It has ended.
    pub(crate) fn end_taking(&self) {
        self.takes.store(ENDED, Ordering::SeqCst);
        self.taken.advance();
    }

    /// Whether something may still be offered.
    pub(crate) fn may_be_offered(&self) -> bool {
        self.hands_out.load(Ordering::SeqCst) != ENDED
    }

    /// Waits until something more was offered than at this count. False where the thread that hands
    /// out does not begin.
    pub(crate) fn wait_for_offer<R: Wait>(&self, rt: &R, count: u64) -> bool {
        wait(rt, &self.offered, count, &self.hands_out)
    }

    /// Waits until something more was taken than at this count. False where the thread that takes
    /// does not begin, or has ended.
    pub(crate) fn wait_for_room<R: Wait>(&self, rt: &R, count: u64) -> bool {
        wait(rt, &self.taken, count, &self.takes) && self.takes.load(Ordering::SeqCst) != ENDED
    }
}

/// What all threads let each other know.
#[derive(Drop)]
pub(crate) struct DrillEvents {
    /// Something was written, or a writer has ended.
    pub(crate) written: EventCount,
    writers: AtomicU64,
    begun: AtomicU64,
    rings: Vec<RingEvents>,
}

impl DrillEvents {
    /// Of this many writers and consumers. It is `NoMemory` where memory runs out.
    pub(crate) fn new(
        alloc: Global,
        writers: u32,
        consumers: u32,
    ) -> Result<DrillEvents, NoMemory> {
        let mut rings = Vec::new(alloc);
        rings.resize_with(consumers as usize, RingEvents::new)?;
        Ok(DrillEvents {
            written: EventCount::new(),
            writers: AtomicU64::new(writers as u64),
            begun: AtomicU64::new(AWAITED),
            rings,
        })
    }

    /// A writer has begun.
    pub(crate) fn begin_writing(&self) {
        self.begun.store(BEGUN, Ordering::SeqCst);
    }

    /// A writer has ended.
    pub(crate) fn end_writing(&self) {
        self.writers.fetch_sub(1, Ordering::SeqCst);
        self.written.advance();
    }

    /// All writers have ended, or never begin.
    pub(crate) fn end_all_writing(&self) {
        self.writers.store(0, Ordering::SeqCst);
        self.written.advance();
    }

    /// Whether a writer has not ended.
    pub(crate) fn may_be_written(&self) -> bool {
        self.writers.load(Ordering::SeqCst) > 0
    }

    /// Waits until more was written than at this count. False where no writer begins.
    pub(crate) fn wait_for_write<R: Wait>(&self, rt: &R, count: u64) -> bool {
        wait(rt, &self.written, count, &self.begun)
    }

    /// Those of this consumer.
    pub(crate) fn ring(&self, consumer: u32) -> Option<&RingEvents> {
        self.rings.get(consumer as usize)
    }
}

/// Waits for the next event after this count, which another thread brings. False where that one
/// has not begun after some patience: then it may be that no thread could be made for it.
fn wait<R: Wait>(rt: &R, events: &EventCount, count: u64, other: &AtomicU64) -> bool {
    for _turn in 0..PATIENCE {
        if other.load(Ordering::SeqCst) != AWAITED {
            events.wait_after(rt, count);
            return true;
        }
        std::thread::yield_now();
    }
    false
}
