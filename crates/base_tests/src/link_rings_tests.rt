//! A ring between two ends.
use crate::rows::{check_rows, shown};
use bytes::Bytes;
use link_rings::{EventCount, ring};
use std::alloc::{AllocError, Global};

/// In a ring of two slots: a, b and c are offered; three are taken; c is offered again; how many
/// are there; one is taken, and how many are there then.
const ROWS: &str = "\
ring => ([Ok(()), Ok(()), Err(Full(b\"c\"))], [Some(b\"a\"), Some(b\"b\"), None], \
      (Ok(()), 1, Some(b\"c\"), 0))
";

#[test]
fn gives_what_was_offered(rt: HostRuntime) {
    check_rows(&rt, rt.alloc(), ROWS);
}

/// A ring of one slot has room until an item is offered, and again once it is taken.
#[test]
fn a_ring_has_room_where_a_slot_is_free(rt: HostRuntime) {
    let (mut producer, mut consumer) = ring(rt.alloc(), 1).expect(&rt, "a ring");
    let before = producer.has_room();
    let offered = producer.offer(item(b"a"));
    let full = !producer.has_room();
    let taken = consumer.take();
    let after = producer.has_room();
    assert!(rt; before && offered.is_ok() && full && taken.is_some() && after);
}

/// Who waits for more events than there were goes on where one has come since then.
#[test]
fn a_wait_ends_where_an_event_has_come(rt: HostRuntime) {
    let events = EventCount::new();
    let before = events.read();
    events.advance();
    events.wait_after(&rt, before);
    assert!(rt; before == 0 && events.read() == 1);
}

fn item(text: &'static [u8]) -> Bytes {
    Bytes::from_static(text)
}

pub(crate) fn reported(alloc: Global) -> Result<String, AllocError> {
    let (mut producer, mut consumer) = ring(alloc, 2)?;
    let offered = [
        producer.offer(item(b"a")),
        producer.offer(item(b"b")),
        producer.offer(item(b"c")),
    ];
    let taken = [consumer.take(), consumer.take(), consumer.take()];
    let again = producer.offer(item(b"c"));
    let left = consumer.beside(&mut producer);
    let last = consumer.take();
    let none = consumer.beside(&mut producer);
    let after = (again, left, last, none);
    shown(alloc, &(offered, taken, after))
}
