//! The files of the system.
ghost use Rattle.std.specs.Prelude.{◌≡◌, None};

use crate::faults::count_fault;
use crate::{Reading, Shelf, ShelfFault, Source};
use std::fs;
use std::io::ErrorKind;
use std::rt::Files;

/// A shelf of the system's files. It reports none of their bytes.
pub struct FileShelf<'a, R: Files> {
    rt: &'a R,
    faults: u64,
}

impl<R: Files> Drop for FileShelf<'_, R> {
    fn drop(self) {
        let Self { rt: _, faults: _ } = self;
    }
}

impl<'a, R: Files> FileShelf<'a, R> {
    /// A shelf of the files that this runtime opens.
    pub fn new(rt: &'a R) -> FileShelf<'a, R>
        ensures faults { result.faults ≡ 0 }
    {
        FileShelf { rt, faults: 0 }
    }
}

impl<'a, R: Files> Shelf for FileShelf<'a, R> {
    type File = Reading<R::File>;

    ghost files = { λ _. None };

    ghost shelf_fault_count = { λ s. s.faults };

    fn faults(&self) -> u64 {
        self.faults
    }

    fn fetch(&mut self, name: &str) -> Result<Reading<R::File>, ShelfFault> {
        match fs::open(self.rt, name) {
            Ok(file) => Ok(Reading::new(file)),
            Err(error) if error.kind() == ErrorKind::OutOfMemory => Err(ShelfFault::NoMemory),
            Err(_) => {
                count_fault(&mut self.faults);
                Err(ShelfFault::Failed)
            }
        }
    }

    fn give_back(&mut self, file: Reading<R::File>) {
        if file.read_faults() > 0 {
            count_fault(&mut self.faults);
        }
    }
}
