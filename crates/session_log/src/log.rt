//! The session log.
ghost use Rattle.std.specs.Prelude.{◌≡◌, ◌+◌, ◌<◌, ◌≤◌, IfOk, OnOk};
ghost use Rattle.std.specs.List.Sorted.{IsStrictlySortedBy};
ghost use Rattle.std.specs.Ordering.{nat_cmp};
ghost use Rattle.session_log.specs.Log as spec;

use crate::ascending::{in_order_with, insert_later};
use crate::ending::keep_last;
use crate::note::Note;
use std::alloc::{AllocError, Global};
use std::collections::{BTreeSet, VecDeque};
use std::marker::Model;

/// Out of memory, as an error by itself.
pub type NoMemory = AllocError;

/// Which entries were touched by the latest writes. It keeps the last notes up to a limit, and the
/// greatest number of a note that it has dropped, its floor: what was touched after a write is
/// known where that write's number is not below the floor.
#[derive(Drop)]
pub struct SessionLog {
    notes: VecDeque<Note>,
    limit: u64,
    floor: u64,
    /// True only where no note has a lower number than the one before it, as where writes are noted
    /// one after another. What is looked for is then found by halves.
    in_order: bool,
}

impl Model for SessionLog {
    ghost use Rattle.std.specs.Prelude.{◌-◌, IsTrue};
    ghost use Rattle.std.specs.VecDeque.{deque_capacity, deque_len};
    ghost use Rattle.session_log.specs.Log.{LogWithRoom, NumbersRise};

    ghost Value = { LogWithRoom };

    ghost view = { λ l. record {
      log = record { notes = l.notes.items; limit = l.limit; floor = l.floor };
      spare = deque_capacity l.notes - deque_len l.notes;
    } };

    ghost invariant = { λ l. IsTrue l.in_order → NumbersRise l.notes.items };
}

impl SessionLog {
    /// An empty log that keeps n notes.
    pub fn new(alloc: Global, limit: u64) -> SessionLog
        ensures { result.log ≡ spec.fresh limit }
    {
        SessionLog {
            notes: VecDeque::new(alloc),
            limit,
            floor: 0,
            in_order: true,
        }
    }

    /// A log that goes on as this one does. It is `NoMemory` where memory runs out.
    pub fn copy(&self) -> Result<SessionLog, NoMemory>
        ensures { IfOk result (λ copy. copy.log ≡ self.now.log) }
    {
        let (prefix, back) = self.notes.as_slices();
        let mut notes = Vec::with_capacity(*self.notes.allocator(), self.notes.len())?;
        notes.extend_from_slice(prefix)?;
        notes.extend_from_slice(back)?;
        Ok(SessionLog {
            notes: VecDeque::from(notes),
            limit: self.limit,
            floor: self.floor,
            in_order: self.in_order,
        })
    }

    /// Makes room for n notes beyond those that are kept. It is `NoMemory` where memory runs out,
    /// and the log is as before.
    pub fn reserve(&mut self, extra: usize) -> Result<(), NoMemory>
        ensures log { self.new.log ≡ self.old.log }
        ensures room { OnOk result (extra ≤ self.new.spare) }
        ensures spare { self.old.spare ≤ self.new.spare }
    {
        self.notes.reserve(extra)
    }

    /// Notes that write `number` touched the entry. It takes no memory.
    pub fn note(&mut self, number: u64, uuid: u128)
        requires { 0 < self.old.spare }
        ensures log { self.new.log ≡ spec.noted number uuid self.old.log }
        ensures spare { self.old.spare ≤ self.new.spare + 1 }
    {
        self.in_order = in_order_with(&self.notes, number, self.in_order);
        self.notes.push_back_reserved(Note { number, uuid });
        self.floor = keep_last(&mut self.notes, self.limit, self.floor);
    }

    /// Whether all that was touched after write `number` is known.
    pub fn covers(&self, number: u64) -> bool
        ensures { result ≡ spec.covers number self.now.log }
    {
        self.floor <= number
    }

    /// The identities of the entries that were touched after write `number`, ascending. Where the
    /// numbers were noted in rising order, the notes up to that number are not looked at one by
    /// one. It is `NoMemory` where memory runs out.
    pub fn since(&self, number: u64) -> Result<Vec<u128>, NoMemory>
        requires { self.now.log.floor ≤ number }
        ensures exact { IfOk result (λ uuids. uuids.items ≡ spec.since number self.now.log) }
        ensures ascends { IfOk result (λ uuids. IsStrictlySortedBy nat_cmp uuids.items) }
    {
        let alloc = *self.notes.allocator();
        let mut uuids = BTreeSet::new(alloc);
        let slices = self.notes.as_slices();
        insert_later(&mut uuids, slices.0, number, self.in_order)?;
        insert_later(&mut uuids, slices.1, number, self.in_order)?;
        uuids.iter().copied().collect(alloc)
    }

    /// Keeps n notes from now on. It takes no memory.
    pub fn trim(&mut self, limit: u64)
        ensures log { self.new.log ≡ spec.trimmed limit self.old.log }
        ensures spare { self.old.spare ≤ self.new.spare }
    {
        self.limit = limit;
        self.floor = keep_last(&mut self.notes, limit, self.floor);
    }

    /// The greatest number of a note that was dropped, or 0.
    pub fn floor(&self) -> u64
        ensures { result ≡ self.now.log.floor }
    {
        self.floor
    }
}
