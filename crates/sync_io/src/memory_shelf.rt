//! A shelf in memory.
ghost use Rattle.std.specs.Prelude.{◌≡◌, Some, find, bytes_eq, option_map, option_copied, string_bytes};
ghost use Rattle.sync_io.specs.declared.memory_shelf.NamedFile.{NamedFile};

use crate::faults::count_fault;
use crate::{MemorySource, Shelf, ShelfFault, Source};
use ldap_ber::Octets;

/// A file of a shelf in memory.
#[derive(Drop)]
pub struct NamedFile {
    pub name: String,
    pub bytes: Octets,
}

/// A shelf whose files are in memory. A name that several files have is that of the first.
#[derive(Drop)]
pub struct MemoryShelf {
    files: Vec<NamedFile>,
    faults: u64,
}

impl MemoryShelf {
    /// A shelf of these files.
    pub fn new(files: Vec<NamedFile>) -> MemoryShelf
        ensures files { result.files.items ≡ files.items }
        ensures faults { result.faults ≡ 0 }
    {
        MemoryShelf { files, faults: 0 }
    }
}

/// The first of the files that has this name.
fn file_named<'a>(files: &'a [NamedFile], name: &str) -> Option<&'a NamedFile>
    ensures { option_copied result
        ≡ find (λ f. bytes_eq (string_bytes f.name) name.now) files.now }
{
    files.iter().find(|file| file.name.as_str() == name)
}

impl Shelf for MemoryShelf {
    type File = MemorySource;

    ghost files = { λ s. Some (λ name.
        option_map (λ f. f.bytes)
        (find (λ f. bytes_eq (string_bytes f.name) name) s.files.items)) };

    ghost shelf_fault_count = { λ s. s.faults };

    fn faults(&self) -> u64 {
        self.faults
    }

    fn fetch(&mut self, name: &str) -> Result<MemorySource, ShelfFault> {
        let Some(file) = file_named(self.files.as_slice(), name) else {
            count_fault(&mut self.faults);
            return Err(ShelfFault::Failed);
        };
        match file.bytes.copy() {
            Ok(bytes) => Ok(MemorySource::new(bytes)),
            Err(_) => Err(ShelfFault::NoMemory),
        }
    }

    fn give_back(&mut self, file: MemorySource) {
        if file.read_faults() > 0 {
            count_fault(&mut self.faults);
        }
    }
}
