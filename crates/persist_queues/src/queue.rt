ghost use Rattle.std.specs.Prelude.{◌≡◌, ◌+◌, ◌<◌, ◌≤◌, ◌↔◌, ◌⊎◌, [], ◌∷◌, ◌++◌, length, vec_len, slice_get, sum_by, option_copied, IsNone, IfSome, IfNone, OnSome, OnOk, OnErr, IfErr};
ghost use Rattle.persist_queues.specs.Pending.{IsOver, IsAsBefore};

use crate::fault::QueueFault;
use crate::weight::{MOST_WEIGHT, Weighs, weight_within};
use std::alloc::{AllocError, Global};
use std::collections::VecDeque;
use std::marker::Model;

/// What one search has pending, in the order in which it is to be handed out.
#[derive(Drop)]
pub struct SearchQueue<T: Weighs> {
    items: VecDeque<T>,
    // Kept beside the items, so that a push looks at the new ones alone.
    weight: u64,
    limit: u64,
}

impl<T: Weighs> Model for SearchQueue<T> {
    ghost use Rattle.std.specs.Prelude.{◌≡◌, ◌≤◌, ◌-◌, sum_by};
    ghost use Rattle.std.specs.VecDeque.{deque_len, deque_capacity};
    ghost use Rattle.persist_queues.specs.declared.weight.TheConstants.{MOST_WEIGHT};
    ghost use Rattle.persist_queues.specs.Pending.{Pending, pending_code};

    ghost Value = { Pending T };

    ghost coded = { pending_code T.code };

    ghost view = { λ q. record {
      items = q.items.items;
      limit = q.limit;
      spare = deque_capacity q.items - deque_len q.items;
    } };

    ghost invariant = { λ q.
        (q.weight ≡ sum_by T.weight q.items.items) × (q.weight ≤ MOST_WEIGHT) };
}

impl<T: Weighs + Drop> SearchQueue<T> {
    /// An empty queue for at most `limit` items.
    pub fn new(alloc: Global, limit: u64) -> SearchQueue<T>
        ensures empty { result.items ≡ [] }
        ensures limit { result.limit ≡ limit }
    {
        SearchQueue {
            items: VecDeque::new(alloc),
            weight: 0,
            limit,
        }
    }

    /// Makes room for `extra` further items, which then go in without taking memory.
    pub fn reserve(&mut self, extra: usize) -> Result<(), AllocError>
        ensures same { IsAsBefore self.old self.new }
        ensures ok { OnOk result (extra ≤ self.new.spare) }
        ensures kept { self.old.spare ≤ self.new.spare }
    {
        self.items.reserve(extra)
    }

    /// The number of pending items.
    pub fn len(&self) -> usize
        ensures number { result ≡ length self.now.items }

        // Neither number alone bounds the memory: items can be large.
        ensures weight { sum_by T.weight self.now.items ≤ MOST_WEIGHT }
    {
        self.items.len()
    }

    /// The pending item with n before it, if there are more than that.
    pub fn get(&self, place: usize) -> Option<&T>
        ensures { option_copied result ≡ slice_get self.now.items place }
    {
        self.items.get(place)
    }

    /// The number of further items for which room is made.
    pub fn spare(&self) -> usize
        ensures { result ≡ self.now.spare }
    {
        self.items.capacity() - self.items.len()
    }

    /// Sets how many items may be pending. Those that are pending stay, even if they are more.
    pub fn set_limit(&mut self, limit: u64)
        ensures { self.new ≡ record self.old { limit = limit } }
    {
        self.limit = limit;
    }

    /// Puts all the items after those that are pending, or none of them.
    ///
    /// Where they are refused they are dropped, since the search that they were for can't go on
    /// without them. It is `QueueFull` with the limit where what would be pending is more than that
    /// or weighs more than 16 MiB, or `NoMemory`, and what was pending stays.
    pub fn push_all(&mut self, items: Vec<T>) -> Result<(), QueueFault>
        ensures ok { OnOk result
            ((self.new.items ≡ self.old.items ++ items.items) × (self.new.limit ≡ self.old.limit)) }

        // Too many or too heavy items are reported as such, also where there is no memory.
        ensures full { (result ≡ Err (QueueFault.QueueFull self.old.limit))
            ↔ IsOver T.weight self.old.limit (self.old.items ++ items.items) }
        ensures no_memory { result ≡ Err QueueFault.NoMemory → self.old.spare < vec_len items }
        ensures faults { IfErr result (λ e.
            (e ≡ QueueFault.QueueFull self.old.limit) ⊎ (e ≡ QueueFault.NoMemory)) }
        ensures err { OnErr result (IsAsBefore self.old self.new) }

        // Room is used up by the items that went in, and by nothing else.
        ensures room { OnOk result (self.old.spare ≤ self.new.spare + vec_len items) }
        ensures kept { OnErr result (self.old.spare ≤ self.new.spare) }
    {
        let Some(weight) = self.weight_with(items.as_slice()) else {
            return Err(QueueFault::QueueFull(self.limit));
        };
        let mut items = VecDeque::from_vec(items);
        if self.items.append(&mut items).is_err() {
            return Err(QueueFault::NoMemory);
        }
        self.weight = weight;
        Ok(())
    }

    /// The item that was put in first, if any is pending. Takes no memory.
    pub fn pop(&mut self) -> Option<T>
        ensures first { IfSome result (λ item. self.old.items ≡ item ∷ self.new.items) }
        ensures none { IsNone result ↔ (self.old.items ≡ []) }
        ensures empty { IfNone result (self.new.items ≡ []) }
        ensures limit { self.new.limit ≡ self.old.limit }
        ensures room { OnSome result (self.new.spare ≡ self.old.spare + 1) }
        ensures kept { IfNone result (self.new.spare ≡ self.old.spare) }
    {
        let item = self.items.pop_front()?;
        self.weight -= item.weight();
        Some(item)
    }

    /// Drops all that is pending, as where the search is ended.
    pub fn end(&mut self)
        ensures empty { self.new.items ≡ [] }
        ensures limit { self.new.limit ≡ self.old.limit }
        ensures room { self.new.spare ≡ self.old.spare + length self.old.items }
    {
        self.items.clear();
        self.weight = 0;
    }

    /// The weight of what is pending with these items, or None where that is more than fits.
    fn weight_with(&self, items: &[T]) -> Option<u64>
        ensures over { IsNone result
            ↔ IsOver T.weight self.now.limit (self.now.items ++ items.now) }
        ensures weight { IfSome result (λ w.
            (w ≡ sum_by T.weight (self.now.items ++ items.now)) × (w ≤ MOST_WEIGHT)) }
    {
        let pending = self.items.len() as u64;
        if pending > self.limit || items.len() as u64 > self.limit - pending {
            return None;
        }
        let weight = weight_within(items, MOST_WEIGHT - self.weight)?;
        Some(self.weight + weight)
    }
}
