ghost use Rattle.std.specs.Prelude.{◌≡◌, ◌+◌, ◌<◌, ◌≤◌, ◌↔◌, [], ◌∷◌, ◌++◌, length, IsTrue, IsOk, IsSome, IfOk, IfErr, IfSome, IfNone, OnOk, OnErr};
ghost use mathlib.Core.List.{IsPrefix};
ghost use Rattle.link_rings.specs.Ends.{offered, known_slots, taken, known_items, AreOneRing, IsSameProducer, IsSameConsumer};

use bytes::Bytes;
use rtrb::{PushError, RingBuffer};
use std::alloc::{AllocError, Global};

/// The end that offers items. It can go to another thread.
#[derive(Drop)]
pub struct RingProducer {
    end: rtrb::Producer<Bytes>,
}

/// The end that takes items. It can go to another thread.
#[derive(Drop)]
pub struct RingConsumer {
    end: rtrb::Consumer<Bytes>,
}

/// The item, which found no free slot.
#[derive(Debug, Drop, PartialEq, Eq)]
pub struct Full(pub Bytes);

/// The two ends of a new ring with `capacity` slots. It is `NoMemory` where memory runs out.
pub fn ring(alloc: Global, capacity: usize) -> Result<(RingProducer, RingConsumer), AllocError>
    requires { 1 ≤ capacity }
    ensures ends { IfOk result (λ ends. AreOneRing ends.0 ends.1) }
    ensures producer { IfOk result (λ ends.
        (offered ends.0 ≡ []) × (known_slots ends.0 ≡ capacity)) }
    ensures consumer { IfOk result (λ ends. (taken ends.1 ≡ []) × (known_items ends.1 ≡ [])) }
{
    let (producer, consumer) = RingBuffer::new(alloc, capacity)?;
    Ok((
        RingProducer { end: producer },
        RingConsumer { end: consumer },
    ))
}

impl RingProducer {
    /// Puts the item after those that were offered before, or gives it back where no slot is free.
    /// Takes no memory.
    ///
    /// The producer asks the ring only where it knows of no free slot.
    pub fn offer(&mut self, item: Bytes) -> Result<(), Full>
        ensures ring { IsSameProducer self.old self.new }
        ensures ok { OnOk result (offered self.new ≡ offered self.old ++ item ∷ []) }
        ensures one_fewer { OnOk result (known_slots self.old ≤ known_slots self.new + 1) }

        ensures full_only_where_none_is_free { 0 < known_slots self.old → IsOk result }
        ensures full { IfErr result (λ full. full.0 ≡ item) }
        ensures err { OnErr result
            ((offered self.new ≡ offered self.old) × (known_slots self.new ≡ 0)) }
    {
        match self.end.push(item) {
            Ok(()) => Ok(()),
            Err(PushError::Full(item)) => Err(Full(item)),
        }
    }

    /// Whether the next item that is offered finds a free slot. Takes no memory.
    ///
    /// The producer asks the ring only where it knows of no free slot.
    pub fn has_room(&mut self) -> bool
        ensures room { IsTrue result ↔ 0 < known_slots self.new }

        ensures ring { IsSameProducer self.old self.new }
        ensures offered { offered self.new ≡ offered self.old }
        ensures slots { known_slots self.old ≤ known_slots self.new }
    {
        !self.end.is_full()
    }
}

impl RingConsumer {
    /// The item that was offered first of those that were not taken yet, or None where there is
    /// none. Takes no memory.
    ///
    /// The consumer asks the ring only where it knows of no item.
    pub fn take(&mut self) -> Option<Bytes>
        ensures ring { IsSameConsumer self.old self.new }
        ensures item { IfSome result (λ item. taken self.new ≡ taken self.old ++ item ∷ []) }

        // The items that it knew of come in their order, and it may know of more after them.
        ensures one_fewer { IfSome result (λ item.
            IsPrefix (known_items self.old) (item ∷ known_items self.new)) }
        ensures none_only_where_none_is_known { 0 < length (known_items self.old) → IsSome result }
        ensures none { IfNone result
            ((taken self.new ≡ taken self.old) × (known_items self.new ≡ [])) }
    {
        self.end.pop().ok()
    }

    /// The number of items that were offered and not taken, for a thread that holds both ends. The
    /// consumer then knows of all of them, and as many calls of `take` give them. Takes no memory.
    pub fn beside(&mut self, producer: &mut RingProducer) -> usize
        requires { AreOneRing producer.old self.old }
        ensures left { result ≡ length (known_items self.new) }
        ensures fifo { taken self.new ++ known_items self.new ≡ offered producer.new }

        ensures ring { IsSameConsumer self.old self.new }
        ensures taken { taken self.new ≡ taken self.old }
        ensures known { IsPrefix (known_items self.old) (known_items self.new) }

        ensures producer_ring { IsSameProducer producer.old producer.new }
        ensures offered { offered producer.new ≡ offered producer.old }
        ensures slots { known_slots producer.old ≤ known_slots producer.new }
    {
        self.end.slots_beside(&mut producer.end)
    }
}
