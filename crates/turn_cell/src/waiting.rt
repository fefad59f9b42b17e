//! Where passes sleep until their tickets are served.
//!
//! Each ticket that is out has a place of its own: as many are out as there are passes at most, and
//! in turn they have the places one after another. A pass says at its place that it sleeps there,
//! then looks once more which ticket is served, and sleeps while the place says so. What ends a
//! turn serves the next ticket, then looks at its place, and wakes the pass there where it sleeps.
//! So one of the two sees what the other has done. Of all this nothing is proved: that a pass
//! sleeps for ever would break no contract.
use std::alloc::{AllocError, Global};
use std::sync::Wait;
use std::sync::atomic::{AtomicU64, Ordering};

/// What a place says where no pass sleeps.
const AWAKE: u64 = 0;

/// What it says where one sleeps, or is about to.
const ASLEEP: u64 = 1;

/// The places of a cell, one for each of its passes.
#[derive(Drop)]
pub struct WaitingRoom {
    places: Vec<AtomicU64>,
}

impl WaitingRoom {
    /// As many places as there are passes.
    pub(crate) fn new(alloc: Global, passes: u32) -> Result<WaitingRoom, AllocError> {
        let mut places = Vec::new(alloc);
        places.resize_with(passes as usize, || AtomicU64::new(AWAKE))?;
        Ok(WaitingRoom { places })
    }

    /// Says that the pass with this ticket is about to sleep.
    pub(crate) fn lie_down(&self, ticket: u64) {
        if let Some(place) = self.place(ticket) {
            place.store(ASLEEP, Ordering::SeqCst);
        }
    }

    /// Sleeps while the place of this ticket says so. It may also return for no reason.
    pub(crate) fn sleep<R: Wait>(&self, rt: &R, ticket: u64) {
        if let Some(place) = self.place(ticket) {
            place.park(rt, ASLEEP as u32);
        }
    }

    /// Wakes the pass with this ticket where it sleeps.
    pub(crate) fn wake(&self, ticket: u64) {
        if let Some(place) = self.place(ticket) {
            if place.load(Ordering::SeqCst) == ASLEEP {
                place.store(AWAKE, Ordering::SeqCst);
                place.wake_one();
            }
        }
    }

    fn place(&self, ticket: u64) -> Option<&AtomicU64> {
        let place = ticket.checked_rem(self.places.len() as u64)?;
        self.places.get(place as usize)
    }
}
