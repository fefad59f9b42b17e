//! A net in memory.
ghost use Rattle.std.specs.Prelude.{◌≡◌, ◌+◌, ◌<◌, ◌≤◌, [], Some, OnOk, length, map, string_bytes, vec_capacity};
ghost use Rattle.std.specs.Vec.Iter.{into_iter_items};

use crate::faults::count_fault;
use crate::{Dial, LinkPlan, MemoryDial, MemoryLink, Net, NetFault};
use std::alloc::{AllocError, Global};
use std::vec::IntoIter;

/// A door of a net in memory.
#[derive(Drop)]
pub struct MemoryDoor {}

/// A net that gives the links and the callers of its plans in order, at any door, and then fails.
#[derive(Drop)]
pub struct MemoryNet {
    links: IntoIter<LinkPlan, Global>,
    calls: IntoIter<Vec<LinkPlan>, Global>,
    asked: Vec<String>,
    accepted: usize,
    released: Vec<MemoryLink>,
    callers: usize,
    retired: Vec<MemoryDial>,
    gone: Vec<MemoryDial>,
    faults: u64,
    ghost link_room: { accepted ≤ vec_capacity released },
    ghost links_within: { length released.items ≤ accepted },
    ghost retired_room: { callers ≤ vec_capacity retired },
    ghost gone_room: { callers ≤ vec_capacity gone },
    ghost callers_within: { length retired.items + length gone.items ≤ callers },
}

impl MemoryNet {
    /// A net that was asked nothing: the plans of the links that it will accept, and for each
    /// caller those of the links that it will connect.
    pub fn new(alloc: Global, links: Vec<LinkPlan>, calls: Vec<Vec<LinkPlan>>) -> MemoryNet
        ensures links { into_iter_items result.links ≡ links.items }
        ensures calls { into_iter_items result.calls ≡ calls.items }
        ensures asked { result.asked.items ≡ [] }
        ensures accepted { result.accepted ≡ 0 }
        ensures callers { result.callers ≡ 0 }
        ensures faults { result.faults ≡ 0 }
    {
        MemoryNet {
            links: links.into_iter(),
            calls: calls.into_iter(),
            asked: Vec::new(alloc),
            accepted: 0,
            released: Vec::new(alloc),
            callers: 0,
            retired: Vec::new(alloc),
            gone: Vec::new(alloc),
            faults: 0,
        }
    }

    /// The addresses at which it listened, in order.
    pub fn asked(&self) -> &[String]
        ensures { result.now ≡ self.now.asked.items }
    {
        self.asked.as_slice()
    }

    /// How many links were accepted.
    pub fn accepted(&self) -> usize
        ensures { result ≡ self.now.accepted }
    {
        self.accepted
    }

    /// The links that were released, in order.
    pub fn released(&self) -> &[MemoryLink]
        ensures { result.now ≡ self.now.released.items }
    {
        self.released.as_slice()
    }

    /// The callers that were retired, in order.
    pub fn retired(&self) -> &[MemoryDial]
        ensures { result.now ≡ self.now.retired.items }
    {
        self.retired.as_slice()
    }

    /// The callers that were let go, in order.
    pub fn gone(&self) -> &[MemoryDial]
        ensures { result.now ≡ self.now.gone.items }
    {
        self.gone.as_slice()
    }
}

/// Makes room for one more beside those that are given and not back yet.
fn reserve_back<T>(list: &mut Vec<T>, given: usize) -> Result<(), AllocError>
    requires within { length list.old.items ≤ given }
    requires room { given ≤ vec_capacity list.old }
    ensures items { list.new.items ≡ list.old.items }
    ensures kept { vec_capacity list.old ≤ vec_capacity list.new }
    ensures room { OnOk result (given < vec_capacity list.new) }
{
    list.reserve(given - list.len() + 1)
}

impl Net for MemoryNet {
    type Door = MemoryDoor;

    type Link = MemoryLink;

    type Caller = MemoryDial;

    ghost use Rattle.sync_io.specs.MemoryLink.{link_of};
    ghost use Rattle.sync_io.specs.MemoryDial.{dialler_of};

    ghost served = { λ n. Some (record {
      asked = map string_bytes n.asked.items;
      accepted = n.accepted;
      released = n.released.items;
      callers = n.callers;
      retired = n.retired.items;
      gone = n.gone.items;
      links_to_come = map link_of (into_iter_items n.links);
      callers_to_come = map (λ plans. Some (dialler_of plans.items)) (into_iter_items n.calls);
    }) };

    ghost net_fault_count = { λ n. n.faults };

    fn faults(&self) -> u64 {
        self.faults
    }

    fn listen(&mut self, address: &str) -> Result<MemoryDoor, NetFault> {
        let Ok(text) = String::from_str(*self.asked.allocator(), address) else {
            return Err(NetFault::NoMemory);
        };
        match self.asked.push(text) {
            Ok(()) => Ok(MemoryDoor {}),
            Err(_) => Err(NetFault::NoMemory),
        }
    }

    fn accept(&mut self, _door: &mut MemoryDoor) -> Result<MemoryLink, NetFault> {
        if reserve_back(&mut self.released, self.accepted).is_err() {
            return Err(NetFault::NoMemory);
        }
        match self.links.next() {
            Some(plan) => {
                self.accepted += 1;
                Ok(MemoryLink::new(*self.asked.allocator(), plan))
            }
            None => {
                count_fault(&mut self.faults);
                Err(NetFault::Failed)
            }
        }
    }

    fn release(&mut self, link: MemoryLink) {
        self.released.push_reserved(link);
    }

    fn caller(&mut self) -> Result<MemoryDial, NetFault> {
        if reserve_back(&mut self.retired, self.callers).is_err()
            || reserve_back(&mut self.gone, self.callers).is_err()
        {
            return Err(NetFault::NoMemory);
        }
        match self.calls.next() {
            Some(plans) => {
                self.callers += 1;
                Ok(MemoryDial::new(*self.asked.allocator(), plans))
            }
            None => {
                count_fault(&mut self.faults);
                Err(NetFault::Failed)
            }
        }
    }

    fn retire(&mut self, caller: MemoryDial) {
        if caller.faults() > 0 {
            count_fault(&mut self.faults);
        }
        self.retired.push_reserved(caller);
    }

    fn let_go(&mut self, caller: MemoryDial) {
        self.gone.push_reserved(caller);
    }

    ghost links_within = { λ n. n.links_within };

    ghost callers_within = { λ n. n.callers_within };
}
