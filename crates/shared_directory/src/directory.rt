//! A directory that many threads write to, search and follow at once.

ghost use Rattle.std.specs.Prelude.{◌≡◌, ◌-◌, ◌<◌, ◌≤◌, ◌↔◌, map, length, IsErr, IfOk, IfErr};
ghost use Rattle.turn_cell.specs.Journals.{Every};
ghost use Rattle.turn_cell.specs.Passes.{view_of};
ghost use Rattle.shared_directory.specs.Desks.{first_held};
ghost use Rattle.shared_directory.specs.Passes.{
  directory_id,
  made_with,
  ports_of,
  port_of,
  view_or,
  IsPassOf,
  AreFirst,
  IsGivenBack,
};

use crate::desk::Desk;
use crate::held::HeldDirectory;
use std::alloc::Global;
use std::sync::Wait;
use sync_provider::{NoMemory, Provider};
use turn_cell::{CloseFault, Pass, TurnCell};

/// A directory that passes take turns with.
pub type DirectoryCell = TurnCell<HeldDirectory>;

/// The right to call at a directory. It can go to another thread.
///
/// Where a pass is dropped its directory goes on, but can't be closed any more.
pub type DirectoryPass = Pass<HeldDirectory>;

/// A directory that many threads write to, search and follow at once, each with a pass of its own.
#[derive(Drop)]
pub struct SharedDirectory {
    pub(crate) cell: DirectoryCell,
}

impl SharedDirectory {
    /// Shares the provider's directory. Its journal goes on from the provider's; the searches that
    /// are open are no pass's. When out of memory, the provider comes back.
    pub fn new(
        alloc: Global,
        provider: Provider,
        seats: u32,
    ) -> Result<(SharedDirectory, Vec<DirectoryPass>), (NoMemory, Provider)>
        requires { (1 ≤ seats) × (seats ≤ 1024) }
        ensures count { IfOk result (λ made.
            (ports_of made.0 ≡ seats) × (length made.1.items ≡ seats)) }
        ensures opened { IfOk result (λ made. made_with made.0 ≡ first_held provider seats) }
        ensures passes { IfOk result (λ made.
            AreFirst (directory_id made.0) seats provider 1 made.1.items) }
        ensures err { IfErr result (λ refused. refused.1 ≡ provider) }
    {
        let held = match HeldDirectory::new(alloc, provider, seats) {
            Ok(held) => held,
            Err(refused) => return Err(refused),
        };
        match TurnCell::new(alloc, held, seats) {
            Ok((cell, passes)) => Ok((SharedDirectory { cell }, passes)),
            Err((fault, held)) => Err((fault, held.into_provider())),
        }
    }

    /// The port of a pass.
    pub fn desk<'a, R: Wait>(&'a self, rt: &'a R, pass: DirectoryPass) -> Desk<'a, R>
        requires { IsPassOf (directory_id self.now) pass }
        ensures home { result.directory.now ≡ self.now }
        ensures port { port_of (view_or result.pass) ≡ port_of (view_of pass) }
    {
        Desk {
            directory: self,
            rt,
            pass: Some(pass),
        }
    }

    /// Gives the provider back, where all passes are given; else directory and passes come back.
    /// Allocates nothing.
    pub fn close(
        self,
        passes: Vec<DirectoryPass>,
    ) -> Result<Provider, (CloseFault, SharedDirectory, Vec<DirectoryPass>)>
        requires { Every (λ pass. IsPassOf (directory_id self) pass) passes.items }
        ensures given { IfOk result (λ provider.
            IsGivenBack self (map view_of passes.items) provider) }
        ensures out { IsErr result ↔ (length passes.items < ports_of self) }
        ensures fault { IfErr result (λ refused.
            refused.0 ≡ CloseFault.PassesOut (ports_of self - length passes.items)) }
        ensures err { IfErr result (λ refused. (refused.1 ≡ self) × (refused.2 ≡ passes)) }
    {
        let SharedDirectory { cell } = self;
        match cell.close(passes) {
            Ok(held) => Ok(held.into_provider()),
            Err((fault, cell, passes)) => Err((fault, SharedDirectory { cell }, passes)),
        }
    }
}
