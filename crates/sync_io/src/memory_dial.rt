//! A dialler in memory.
ghost use Rattle.std.specs.Prelude.{◌≡◌, ◌<◌, ◌≤◌, [], Some, IfOk, OnOk, length, map, string_bytes, vec_capacity, vec_len};
ghost use Rattle.std.specs.Vec.Iter.{into_iter_items};

use crate::faults::count_fault;
use crate::{Dial, LinkPlan, MemoryLink, NetFault, Sink, Source};
use std::alloc::{AllocError, Global};
use std::vec::IntoIter;

/// An address at which a link was asked for, and whether one came.
#[derive(Drop)]
pub struct DialAttempt {
    pub address: String,
    pub came: bool,
}

/// A dialler that gives the links of its plans in order, at any address, and then fails.
#[derive(Drop)]
pub struct MemoryDial {
    plans: IntoIter<LinkPlan, Global>,
    asked: Vec<DialAttempt>,
    came: usize,
    hung_up: Vec<MemoryLink>,
    faults: u64,
    ghost room: { came ≤ vec_capacity hung_up },
    ghost within: { length hung_up.items ≤ came },
}

impl MemoryDial {
    /// A dialler that was asked nothing.
    pub fn new(alloc: Global, plans: Vec<LinkPlan>) -> MemoryDial
        ensures plans { into_iter_items result.plans ≡ plans.items }
        ensures asked { result.asked.items ≡ [] }
        ensures came { result.came ≡ 0 }
        ensures hung_up { result.hung_up.items ≡ [] }
        ensures faults { result.faults ≡ 0 }
    {
        MemoryDial {
            plans: plans.into_iter(),
            asked: Vec::new(alloc),
            came: 0,
            hung_up: Vec::new(alloc),
            faults: 0,
        }
    }

    /// The addresses at which a link was asked for, in order.
    pub fn asked(&self) -> &[DialAttempt]
        ensures { result.now ≡ self.now.asked.items }
    {
        self.asked.as_slice()
    }

    /// The links that were hung up, in order.
    pub fn hung_up(&self) -> &[MemoryLink]
        ensures { result.now ≡ self.now.hung_up.items }
    {
        self.hung_up.as_slice()
    }

    /// Makes room for one more address and one more link, and copies the address.
    fn prepare(&mut self, address: &str) -> Result<String, AllocError>
        ensures plans { into_iter_items self.new.plans ≡ into_iter_items self.old.plans }
        ensures asked { self.new.asked.items ≡ self.old.asked.items }
        ensures came { self.new.came ≡ self.old.came }
        ensures hung_up { self.new.hung_up.items ≡ self.old.hung_up.items }
        ensures faults { self.new.faults ≡ self.old.faults }

        ensures address { IfOk result (λ text. string_bytes text ≡ address.now) }
        ensures asked_room { OnOk result (vec_len self.new.asked < vec_capacity self.new.asked) }
        ensures link_room { OnOk result (self.new.came < vec_capacity self.new.hung_up) }
    {
        let alloc = *self.asked.allocator();
        self.asked.reserve(1)?;
        self.hung_up.reserve(self.came - self.hung_up.len() + 1)?;
        String::from_str(alloc, address)
    }
}

impl Dial for MemoryDial {
    type Link = MemoryLink;

    ghost use Rattle.sync_io.specs.MemoryLink.{link_of};

    ghost dialled = { λ d. Some (record {
      asked = map (λ a. (string_bytes a.address, a.came)) d.asked.items;
      came = d.came;
      hung_up = d.hung_up.items;
      to_come = map link_of (into_iter_items d.plans);
    }) };

    ghost dial_fault_count = { λ d. d.faults };

    fn faults(&self) -> u64 {
        self.faults
    }

    fn connect(&mut self, address: &str) -> Result<MemoryLink, NetFault> {
        let Ok(address) = self.prepare(address) else {
            return Err(NetFault::NoMemory);
        };
        let alloc = *self.asked.allocator();
        match self.plans.next() {
            Some(plan) => {
                self.asked.push_reserved(DialAttempt {
                    address,
                    came: true,
                });
                self.came += 1;
                Ok(MemoryLink::new(alloc, plan))
            }
            None => {
                self.asked.push_reserved(DialAttempt {
                    address,
                    came: false,
                });
                count_fault(&mut self.faults);
                Err(NetFault::Failed)
            }
        }
    }

    fn hang_up(&mut self, link: MemoryLink) {
        if link.read_faults() > 0 || link.write_faults() > 0 {
            count_fault(&mut self.faults);
        }
        self.hung_up.push_reserved(link);
    }

    ghost within = { λ d. d.within };
}
