//! The link from a provider to a consumer.
ghost use Rattle.std.specs.Prelude.{◌≡◌, ◌+◌, ◌≤◌, ◌∷◌, ◌++◌, [], ◌==◌, length, drop, IfOk, IfSome, IfNone, IfErr, OnOk, OnErr};
ghost use Rattle.cascade_nodes.specs.Link.{link_size, most_link, RefusesLink};

use cascade_script::Cause;
use ldap_ber::{NoMemory, Octets};
use shared_map::SharedMap;
use std::alloc::Global;
use std::marker::Model;

/// The most bytes of a link.
const MOST_LINK: usize = 67_108_864;

/// Whole encoded messages that were sent and not taken, in order.
#[derive(Drop)]
pub struct Link {
    alloc: Global,
    /// By numbers, which ascend from one message to the next.
    messages: SharedMap<u64, Octets>,
    /// The number of the next message, above those of all that the link holds.
    next: u64,
    /// How many bytes they have together.
    bytes: usize,
}

impl Model for Link {
    ghost use Rattle.std.specs.Prelude.{◌≡◌, ◌≤◌, List, ℕ};
    ghost use Rattle.std.specs.Map.{values_of};
    ghost use Rattle.cascade_nodes.specs.Link.{link_size, most_link, AreBelow};

    ghost Value = { List (List ℕ) };

    ghost view = { λ l. values_of l.messages };

    ghost invariant = { λ l. AreBelow l.next l.messages
        × ((l.bytes ≡ link_size (values_of l.messages)) × (l.bytes ≤ most_link)) };
}

impl Link {
    /// A link that holds no message.
    pub fn new(alloc: Global) -> Link
        ensures { result ≡ [] }
    {
        Link {
            alloc,
            messages: SharedMap::new(alloc),
            next: 0,
            bytes: 0,
        }
    }

    /// Makes a link with the same messages, which the two share. It is `NoMemory` where memory runs
    /// out.
    pub fn copy(&self) -> Result<Link, NoMemory>
        ensures { IfOk result (λ link. link ≡ self.now) }
    {
        Ok(Link {
            alloc: self.alloc,
            messages: self.messages.copy()?,
            next: self.next,
            bytes: self.bytes,
        })
    }

    /// Reports whether the link holds no message.
    pub fn is_empty(&self) -> bool
        ensures { result ≡ (length self.now == 0) }
    {
        self.messages.len() == 0
    }

    /// Puts a message at the end. It is `LimitReached` where the link would hold more than
    /// 67,108,864 bytes, or `NoMemory`, and then the link is as before.
    #[tactic(auto, using(crate::proofs::Links::with_last, crate::proofs::Links::last_below))]
    pub fn push(&mut self, message: Octets) -> Result<(), Cause>
        ensures ok { OnOk result (self.new ≡ self.old ++ message ∷ []) }
        ensures fits { OnOk result (link_size self.old + length message ≤ most_link) }
        ensures fault { IfErr result (RefusesLink (link_size self.old + length message)) }
        ensures err { OnErr result (self.new ≡ self.old) }
    {
        let length = message.as_slice().len();
        if length > MOST_LINK - self.bytes {
            return Err(Cause::LimitReached(MOST_LINK as u64));
        }
        if self.next == u64::MAX {
            return Err(Cause::NoMemory);
        }
        self.messages.insert(self.next, message)?;
        self.next += 1;
        self.bytes += length;
        Ok(())
    }

    /// Lends the first message.
    pub fn first(&self) -> Option<&[u8]>
        ensures first { IfSome result (λ message. self.now ≡ message.now ∷ drop 1 self.now) }
        ensures none { IfNone result (self.now ≡ []) }
    {
        match self.messages.first() {
            Some((_, message)) => Some(message.as_slice()),
            None => None,
        }
    }

    /// Drops the first message, where there is one. It is `NoMemory` where memory runs out, and
    /// then the link is as before.
    #[tactic(auto, using(crate::proofs::Links::first_dropped, crate::proofs::Links::none_dropped))]
    pub fn drop_first(&mut self) -> Result<(), NoMemory>
        ensures ok { OnOk result (self.new ≡ drop 1 self.old) }
        ensures err { OnErr result (self.new ≡ self.old) }
    {
        let Some((number, message)) = self.messages.first() else {
            return Ok(());
        };
        let number = *number;
        let length = message.as_slice().len();
        self.messages.remove(&number)?;
        self.bytes -= length;
        Ok(())
    }

    /// Drops all messages.
    pub fn clear(&mut self)
        ensures { self.new ≡ [] }
    {
        self.messages = SharedMap::new(self.alloc);
        self.bytes = 0;
    }
}
