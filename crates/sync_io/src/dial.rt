//! Links to others, asked for by address.
ghost use Rattle.std.specs.Prelude.{◌≡◌, ◌+◌, ◌<◌, ◌≤◌, ℕ, Option, IfOk, IfSome, IsErrOf, [], is_ok, option_map, length};

use crate::{FaultDetail, Link};

/// Why no link came.
#[derive(Clone, Copy, Debug, PartialEq, Eq)]
pub enum NetFault {
    /// The call failed, and was counted as a fault.
    Failed,
    /// Out of memory.
    NoMemory,
}

/// What gives links to others, by their addresses.
pub trait Dial {
    type Link: Link;

    ghost use Rattle.sync_io.specs.Faults.{CountHasRisen, one_more};
    ghost use Rattle.sync_io.specs.Dial.{Dialled, dials, hangs_up};
    ghost use Rattle.sync_io.specs.Links.{HasNoFaults, IsUnused};
    ghost use Rattle.sync_io.specs.ToCome.{IsNextToCome};

    /// What it was asked, what came of it and what is still to come, where it reports that.
    ghost dialled: { Self → Option (Dialled Self.Link) };

    /// How many of its calls have failed, and how many links came back with faults.
    ghost dial_fault_count: { Self → ℕ };

    /// How many faults were counted. The count stops at the greatest number.
    fn faults(&self) -> u64
        ensures { result ≡ dial_fault_count self.now };

    /// Gives a link to this address. Where it reports what is to come, that is the next link, and
    /// it fails only where none is left.
    fn connect(&mut self, address: &str) -> Result<Self::Link, NetFault>
        ensures asked { ¬ (IsErrOf result NetFault.NoMemory)
            → dialled self.new ≡ option_map (dials address.now (is_ok result)) (dialled self.old) }
        ensures unasked { IsErrOf result NetFault.NoMemory → dialled self.new ≡ dialled self.old }

        ensures next { IfOk result (λ link. IfSome (dialled self.old) (λ d.
            IsNextToCome link d.to_come)) }
        ensures spent { IsErrOf result NetFault.Failed
            → IfSome (dialled self.old) (λ d. d.to_come ≡ []) }

        ensures sound { IfOk result (λ link. HasNoFaults
            (Self.Link.read_fault_count link) (Self.Link.write_fault_count link)) }
        ensures unused { IfOk result (λ link. IfSome (dialled self.old) (λ _. IsUnused
            (Self.Link.bytes_read link) (Self.Link.bytes_held link))) }

        ensures failed { IsErrOf result NetFault.Failed
            → CountHasRisen (dial_fault_count self.old) (dial_fault_count self.new) }
        ensures faultless { ¬ (IsErrOf result NetFault.Failed)
            → dial_fault_count self.new ≡ dial_fault_count self.old }
        ensures later { dial_fault_count self.old ≤ dial_fault_count self.new };

    /// Takes back a link. It counts a fault exactly where a call of the link failed.
    fn hang_up(&mut self, link: Self::Link)
        requires came { IfSome (dialled self.old) (λ d. length d.hung_up < d.came) }

        ensures dialled { dialled self.new ≡ option_map (hangs_up link) (dialled self.old) }

        ensures faulty { 0 < Self.Link.read_fault_count link + Self.Link.write_fault_count link
            → dial_fault_count self.new ≡ one_more (dial_fault_count self.old) }
        ensures sound { Self.Link.read_fault_count link + Self.Link.write_fault_count link ≡ 0
            → dial_fault_count self.new ≡ dial_fault_count self.old }
        ensures later { dial_fault_count self.old ≤ dial_fault_count self.new };

    /// Says to an operator why a link is about to be hung up: the name of a fault, and what it has
    /// with it. Nothing follows from it; a dialler that has nobody to say it to keeps silent.
    fn report(&self, _fault: &str, _detail: FaultDetail) {}

    /// No more links are hung up than came.
    ghost within: { (d : Self) → IfSome (dialled d) (λ all. length all.hung_up ≤ all.came) };
}
