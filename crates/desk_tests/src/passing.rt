//! Passes of a directory: dealt, and put together again.
ghost use Rattle.std.specs.Prelude.{◌≡◌, ◌+◌, ◌≤◌, length, OnSome};
ghost use Rattle.turn_cell.specs.Journals.{Every};
ghost use Rattle.turn_cell.specs.Passes.{cell_id};
ghost use Rattle.shared_directory.specs.Passes.{IsPassOf};

use shared_directory::{DirectoryPass, SharedDirectory};
use std::alloc::Global;
use std::process::Abort;
use sync_provider::Provider;

pub(crate) type Pair = (DirectoryPass, DirectoryPass);

/// A directory that is shared, with as many passes.
pub(crate) fn share(
    rt: &impl Abort,
    alloc: Global,
    provider: Provider,
    seats: u32,
) -> (SharedDirectory, Vec<DirectoryPass>)
    requires { (1 ≤ seats) × (seats ≤ 1024) }
    ensures count { length result.1.items ≡ seats }
    ensures passes { Every (λ pass. IsPassOf (cell_id result.0.cell) pass) result.1.items }
{
    match SharedDirectory::new(alloc, provider, seats) {
        Ok(made) => made,
        Err(_) => panic!(rt; "no directory"),
    }
}

/// The provider of a directory all of whose passes are given.
pub(crate) fn closed(
    rt: &impl Abort,
    directory: SharedDirectory,
    passes: Vec<DirectoryPass>,
) -> Provider
    requires { Every (λ pass. IsPassOf (cell_id directory.cell) pass) passes.items }
{
    match directory.close(passes) {
        Ok(provider) => provider,
        Err(_) => panic!(rt; "a pass was out"),
    }
}

/// Takes the last two passes.
pub(crate) fn last_two(directory: &SharedDirectory, passes: &mut Vec<DirectoryPass>) -> Pair
    requires count { 2 ≤ length passes.old.items }
    requires passes { Every (λ pass. IsPassOf (cell_id directory.now.cell) pass) passes.old.items }
    ensures count { length passes.new.items + 2 ≡ length passes.old.items }
    ensures passes { Every (λ pass. IsPassOf (cell_id directory.now.cell) pass) passes.new.items }
    ensures pair { IsPassOf (cell_id directory.now.cell) result.0
        × IsPassOf (cell_id directory.now.cell) result.1 }
{
    let _ = directory;
    let second = passes.pop().unwrap();
    let first = passes.pop().unwrap();
    (first, second)
}

/// Puts a pass at the end. There is none where memory runs out.
pub(crate) fn put_back(
    directory: &SharedDirectory,
    passes: &mut Vec<DirectoryPass>,
    pass: DirectoryPass,
) -> Option<()>
    requires passes { Every (λ pass. IsPassOf (cell_id directory.now.cell) pass) passes.old.items }
    requires pass { IsPassOf (cell_id directory.now.cell) pass }
    ensures { OnSome result
        (Every (λ pass. IsPassOf (cell_id directory.now.cell) pass) passes.new.items) }
{
    let _ = directory;
    let Ok(()) = passes.push(pass) else {
        return None;
    };
    Some(())
}
