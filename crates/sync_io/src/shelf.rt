//! Files, by name.
ghost use Rattle.std.specs.Prelude.{◌≡◌, ◌<◌, ◌≤◌, ℕ, Option, List, IfOk, IfSome, IsErrOf, IsNone};

use crate::Source;

/// Why no file came.
#[derive(Clone, Copy, Debug, PartialEq, Eq)]
pub enum ShelfFault {
    /// The call failed, and was counted as a fault.
    Failed,
    /// Out of memory.
    NoMemory,
}

/// What gives files by their names.
pub trait Shelf {
    type File: Source + Drop;

    ghost use Rattle.sync_io.specs.Faults.{CountHasRisen, one_more};
    ghost use Rattle.sync_io.specs.Shelf.{IsFile};

    /// The bytes under each name, where the shelf reports them. No call changes them.
    ghost files: { Self → Option (List ℕ → Option (List ℕ)) };

    /// How many of its calls have failed, and how many files came back with faults.
    ghost shelf_fault_count: { Self → ℕ };

    /// How many faults were counted. The count stops at the greatest number.
    fn faults(&self) -> u64
        ensures { result ≡ shelf_fault_count self.now };

    /// Gives the file of this name, from its first byte on. Where the shelf reports its files, it
    /// fails only where it has none of this name.
    fn fetch(&mut self, name: &str) -> Result<Self::File, ShelfFault>
        ensures file { IfOk result (λ file. IfSome (files self.old) (λ bytes_of. IsFile
            (bytes_of name.now) (Self.File.bytes_left file) (Self.File.waits file))) }
        ensures sound { IfOk result (λ file. Self.File.read_fault_count file ≡ 0) }
        ensures absent { IsErrOf result ShelfFault.Failed
            → IfSome (files self.old) (λ bytes_of. IsNone (bytes_of name.now)) }
        ensures files { files self.new ≡ files self.old }

        ensures failed { IsErrOf result ShelfFault.Failed
            → CountHasRisen (shelf_fault_count self.old) (shelf_fault_count self.new) }
        ensures faultless { ¬ (IsErrOf result ShelfFault.Failed)
            → shelf_fault_count self.new ≡ shelf_fault_count self.old }
        ensures later { shelf_fault_count self.old ≤ shelf_fault_count self.new };

    /// Takes back a file. It counts a fault exactly where a read of the file failed.
    fn give_back(&mut self, file: Self::File)
        ensures files { files self.new ≡ files self.old }

        ensures faulty { 0 < Self.File.read_fault_count file
            → shelf_fault_count self.new ≡ one_more (shelf_fault_count self.old) }
        ensures sound { Self.File.read_fault_count file ≡ 0
            → shelf_fault_count self.new ≡ shelf_fault_count self.old }
        ensures later { shelf_fault_count self.old ≤ shelf_fault_count self.new };
}
