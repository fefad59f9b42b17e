//! A net: links that others ask for, and callers that ask others for links.
ghost use Rattle.std.specs.Prelude.{◌≡◌, ◌+◌, ◌<◌, ◌≤◌, ℕ, Option, IfOk, IfSome, IsErrOf, IsNone, [], is_ok, option_map, length};

use crate::{Dial, Link, NetFault};

/// Where a program listens for links, and what gives it callers.
pub trait Net {
    type Door: Drop;

    type Link: Link;

    type Caller: Dial + Send + Drop;

    ghost use Rattle.sync_io.specs.Faults.{CountHasRisen, one_more};
    ghost use Rattle.sync_io.specs.Net.{
      Served,
      listens,
      accepts,
      releases,
      calls,
      retires,
      lets_go,
    };
    ghost use Rattle.sync_io.specs.Links.{HasNoFaults, IsUnused};
    ghost use Rattle.sync_io.specs.ToCome.{IsNextToCome};

    /// What it was asked, what came of it and what is still to come, where it reports that.
    ghost served: { Self → Option (Served Self.Link Self.Caller Self.Caller.Link) };

    /// How many of its calls have failed, and how many callers were retired with faults.
    ghost net_fault_count: { Self → ℕ };

    /// How many faults were counted. The count stops at the greatest number.
    fn faults(&self) -> u64
        ensures { result ≡ net_fault_count self.now };

    /// Opens a door at this address. It never fails where it reports what it was asked.
    fn listen(&mut self, address: &str) -> Result<Self::Door, NetFault>
        ensures asked { ¬ (IsErrOf result NetFault.NoMemory)
            → served self.new ≡ option_map (listens address.now) (served self.old) }
        ensures unasked { IsErrOf result NetFault.NoMemory → served self.new ≡ served self.old }
        ensures opens { IsErrOf result NetFault.Failed → IsNone (served self.old) }

        ensures failed { IsErrOf result NetFault.Failed
            → CountHasRisen (net_fault_count self.old) (net_fault_count self.new) }
        ensures faultless { ¬ (IsErrOf result NetFault.Failed)
            → net_fault_count self.new ≡ net_fault_count self.old }
        ensures later { net_fault_count self.old ≤ net_fault_count self.new };

    /// Gives the next link that someone asked for at this door. It may wait for one. Where it
    /// reports what is to come, it fails only where no link is left.
    fn accept(&mut self, door: &mut Self::Door) -> Result<Self::Link, NetFault>
        ensures served { served self.new ≡ option_map (accepts (is_ok result)) (served self.old) }

        ensures next { IfOk result (λ link. IfSome (served self.old) (λ s.
            IsNextToCome link s.links_to_come)) }
        ensures spent { IsErrOf result NetFault.Failed
            → IfSome (served self.old) (λ s. s.links_to_come ≡ []) }

        ensures sound { IfOk result (λ link. HasNoFaults
            (Self.Link.read_fault_count link) (Self.Link.write_fault_count link)) }
        ensures unused { IfOk result (λ link. IfSome (served self.old) (λ _. IsUnused
            (Self.Link.bytes_read link) (Self.Link.bytes_held link))) }

        ensures failed { IsErrOf result NetFault.Failed
            → CountHasRisen (net_fault_count self.old) (net_fault_count self.new) }
        ensures faultless { ¬ (IsErrOf result NetFault.Failed)
            → net_fault_count self.new ≡ net_fault_count self.old }
        ensures later { net_fault_count self.old ≤ net_fault_count self.new };

    /// Takes back an accepted link.
    fn release(&mut self, link: Self::Link)
        requires accepted { IfSome (served self.old) (λ s. length s.released < s.accepted) }

        ensures served { served self.new ≡ option_map (releases link) (served self.old) }
        ensures faults { net_fault_count self.new ≡ net_fault_count self.old };

    /// Gives a caller. Where it reports what is to come, that is the next one, and it fails only
    /// where none is left.
    fn caller(&mut self) -> Result<Self::Caller, NetFault>
        ensures served { served self.new ≡ option_map (calls (is_ok result)) (served self.old) }

        ensures next { IfOk result (λ caller. IfSome (served self.old) (λ s.
            IsNextToCome (Self.Caller.dialled caller) s.callers_to_come)) }
        ensures spent { IsErrOf result NetFault.Failed
            → IfSome (served self.old) (λ s. s.callers_to_come ≡ []) }

        ensures sound { IfOk result (λ caller. Self.Caller.dial_fault_count caller ≡ 0) }

        ensures failed { IsErrOf result NetFault.Failed
            → CountHasRisen (net_fault_count self.old) (net_fault_count self.new) }
        ensures faultless { ¬ (IsErrOf result NetFault.Failed)
            → net_fault_count self.new ≡ net_fault_count self.old }
        ensures later { net_fault_count self.old ≤ net_fault_count self.new };

    /// Takes back a caller. It counts a fault exactly where the caller has counted one.
    fn retire(&mut self, caller: Self::Caller)
        requires given { IfSome (served self.old)
            (λ s. length s.retired + length s.gone < s.callers) }

        ensures served { served self.new ≡ option_map (retires caller) (served self.old) }

        ensures faulty { 0 < Self.Caller.dial_fault_count caller
            → net_fault_count self.new ≡ one_more (net_fault_count self.old) }
        ensures sound { Self.Caller.dial_fault_count caller ≡ 0
            → net_fault_count self.new ≡ net_fault_count self.old }
        ensures later { net_fault_count self.old ≤ net_fault_count self.new };

    /// Takes back a caller, and counts none of its faults.
    fn let_go(&mut self, caller: Self::Caller)
        requires given { IfSome (served self.old)
            (λ s. length s.retired + length s.gone < s.callers) }

        ensures served { served self.new ≡ option_map (lets_go caller) (served self.old) }
        ensures faults { net_fault_count self.new ≡ net_fault_count self.old };

    /// No more links are released than were accepted.
    ghost links_within: { (n : Self) →
        IfSome (served n) (λ s. length s.released ≤ s.accepted) };

    /// No more callers come back than were given.
    ghost callers_within: { (n : Self) →
        IfSome (served n) (λ s. length s.retired + length s.gone ≤ s.callers) };
}
