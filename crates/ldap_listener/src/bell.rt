//! How the acceptor learns that the connection of a thread is over. No clause rests on it.

use ldap_ber::NoMemory;
use std::alloc::Global;
use std::sync::Wait;
use std::sync::atomic::{AtomicU64, Ordering};

/// How many different counts a thread can sleep at.
const COUNTS: u64 = 4_294_967_296;

/// A bell that the threads of all seats ring.
#[derive(Drop)]
pub(crate) struct Bell {
    /// For each seat 1 where its thread has rung since it was last asked, otherwise 0.
    rung: Vec<AtomicU64>,
    /// How often it was rung.
    count: AtomicU64,
}

impl Bell {
    pub(crate) fn new(alloc: Global, seats: u32) -> Result<Bell, NoMemory> {
        let mut rung = Vec::with_capacity(alloc, seats as usize)?;
        for _ in 0..seats {
            rung.push(AtomicU64::new(0))?;
        }
        Ok(Bell {
            rung,
            count: AtomicU64::new(0),
        })
    }

    /// Rings for the seat at this place.
    pub(crate) fn ring(&self, place: usize) {
        if let Some(rung) = self.rung.get(place) {
            rung.store(1, Ordering::SeqCst);
        }
        self.count.fetch_add(1, Ordering::SeqCst);
        self.count.wake_all();
    }

    /// Whether it has rung for this place since it was last asked.
    pub(crate) fn has_rung(&self, place: usize) -> bool {
        match self.rung.get(place) {
            Some(rung) => rung.swap(0, Ordering::SeqCst) == 1,
            None => false,
        }
    }

    pub(crate) fn count(&self) -> u32 {
        (self.count.load(Ordering::SeqCst) % COUNTS) as u32
    }

    /// Sleeps until it rings, if it has not rung since it had this count.
    pub(crate) fn wait<R: Wait>(&self, rt: &R, count: u32) {
        self.count.park(rt, count);
    }
}
