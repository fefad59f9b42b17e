//! The texts of files.

ghost use Rattle.std.specs.Prelude.{◌≡◌, ◌≢◌, ◌≤◌, IfOk, OnErr};
ghost use Rattle.directory_setup.specs.Setup.{CountsReadFaults, IsReadFrom};
ghost use Rattle.directory_setup.specs.Texts.{IsReadOf};
ghost use Rattle.directory_setup.specs.declared.text_file.FileText.TheVariants.{Failed};
ghost use Rattle.sync_io.specs.Faults.{CountHasRisen};

use crate::text_limits::MOST_BYTES;
use ldap_ber::{NoMemory, Octets};
use std::alloc::{AllocError, Global};
use std::sync::Wait;
use sync_io::{Piece, Shelf, ShelfFault, Source};

/// What was read of a file.
#[derive(Drop)]
pub enum FileText {
    /// All of it, or, where it is too long, more bytes than a text may have.
    Text(Octets),
    Failed,
}

/// Reads what is left of a file. It goes on where a read gives no byte yet.
#[tactic(auto, using(crate::proofs::ReadTexts::read_all, crate::proofs::ReadTexts::read_long))]
fn read_text<R: Wait, S: Source>(rt: &R, alloc: Global, file: &mut S) -> Result<FileText, NoMemory>
    ensures text { IfOk result (IsReadOf (S.bytes_left file.old)) }
    ensures failed { IfOk result (λ found. found ≡ Failed
        → CountHasRisen (S.read_fault_count file.old) (S.read_fault_count file.new)) }
    ensures sound { IfOk result (λ found. found ≢ Failed
        → S.read_fault_count file.new ≡ S.read_fault_count file.old) }
    ensures err { OnErr result (S.read_fault_count file.new ≡ S.read_fault_count file.old) }
    ensures later { S.read_fault_count file.old ≤ S.read_fault_count file.new }
{
    let mut text = Vec::new(alloc);
    let mut buffer = [0u8; 4096];
    for _ in rt.forever() {
        if MOST_BYTES < text.len() {
            return Ok(FileText::Text(Octets::from(text)));
        }
        match file.read(&mut buffer) {
            Piece::Got(count) => match text.extend_from_slice(&buffer[..count]) {
                Ok(()) => {}
                Err(_) => return Err(AllocError),
            },
            Piece::Quiet => {}
            Piece::End => return Ok(FileText::Text(Octets::from(text))),
            Piece::Failed => return Ok(FileText::Failed),
        }
    }
    unreachable!()
}

/// Reads the file of this name, and gives it back to its shelf. It is `NoMemory` where memory runs
/// out.
pub fn read_file<R: Wait, F: Shelf>(
    rt: &R,
    alloc: Global,
    shelf: &mut F,
    name: &str,
) -> Result<FileText, NoMemory>
    ensures files { F.files shelf.new ≡ F.files shelf.old }
    ensures text { IfOk result (IsReadFrom (F.files shelf.old) name.now) }
    ensures faults { CountsReadFaults Failed result
        (F.shelf_fault_count shelf.old) (F.shelf_fault_count shelf.new) }
{
    match shelf.fetch(name) {
        Ok(file) => {
            let mut file = file;
            let found = read_text(rt, alloc, &mut file);
            shelf.give_back(file);
            found
        }
        Err(ShelfFault::Failed) => Ok(FileText::Failed),
        Err(ShelfFault::NoMemory) => Err(AllocError),
    }
}
