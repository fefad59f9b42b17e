//! When a dialler over TCP asks again.

use std::thread;
use std::time::{Clock, Duration, Instant};

/// How many seconds a dialler waits at most before it asks again, and how many a link has to last
/// so that it does not wait for the next one.
const MOST_SECONDS: u64 = 30;

/// What a dialler did before. Nothing of it is in a contract.
#[derive(Clone, Copy, Debug)]
pub(crate) struct Retries {
    /// Whether a link was asked for before.
    has_asked: bool,
    /// Whether it was said that there is none.
    is_lost: bool,
    /// How many seconds it waits before it asks again.
    wait: u64,
    /// When the last link came.
    came: Option<Instant>,
}

/// How long it waits after it waited so long: at once, then 1, 2, 4 .. 30 seconds.
fn longer(wait: u64) -> u64 {
    match wait {
        0 => 1,
        1..16 => wait * 2,
        _ => MOST_SECONDS,
    }
}

impl Retries {
    /// Nothing was asked for yet.
    pub(crate) fn new() -> Retries {
        Retries {
            has_asked: false,
            is_lost: false,
            wait: 0,
            came: None,
        }
    }

    /// Waits for its time before a link to this address is asked for. Where one was asked for
    /// before, it says once that there is none.
    pub(crate) fn pause<R: Clock + Eprint>(&mut self, rt: &R, address: &str) {
        if !self.has_asked {
            self.has_asked = true;
            return;
        }
        if !self.is_lost {
            self.is_lost = true;
            let _ = eprintln!(rt; "syncrepl: no link to {address}, trying again");
        }
        thread::sleep(rt, Duration::from_secs(self.wait));
        self.wait = longer(self.wait);
    }

    /// A link to this address came, which it says where it said that there was none.
    pub(crate) fn come<R: Clock + Eprint>(&mut self, rt: &R, address: &str) {
        self.came = Instant::now(rt).ok();
        if self.is_lost {
            self.is_lost = false;
            let _ = eprintln!(rt; "syncrepl: linked to {address} again");
        }
    }

    /// The link was hung up. After one that lasted long enough the next one is asked for at once.
    pub(crate) fn hang_up<R: Clock>(&mut self, rt: &R) {
        let Some(came) = self.came.take() else {
            return;
        };
        if let Ok(lasted) = came.elapsed(rt) {
            if lasted >= Duration::from_secs(MOST_SECONDS) {
                self.wait = 0;
            }
        }
    }
}
