//! The directory of a drill, and its ports.

ghost use Rattle.std.specs.Prelude.{◌≡◌, ◌≤◌, length, IfOk};
ghost use Rattle.std.specs.List.{AllZip};
ghost use Rattle.drill_plan.specs.Names.{suffix};
ghost use Rattle.shared_directory.specs.Passes.{port_of, view_or};
ghost use Rattle.drill_directory.specs.Ports.{AreNew, IsPortOf};

use dn_names::Dn;
use drill_plan::whole_spec;
use ldap_ber::NoMemory;
use shared_directory::{Desk, DirectoryPass, SharedDirectory};
use std::alloc::{AllocError, Global};
use std::sync::Wait;
use sync_provider::{Kind, Provider};

/// The server id of the directory.
const SERVER: u16 = 1;

/// Its history.
const HISTORY: u128 = 1;

/// A new directory with the suffix of a drill, and the passes of its n ports, 1 to 1,024. It is
/// `NoMemory` where memory runs out.
pub fn new_directory(
    alloc: Global,
    count: u32,
) -> Result<(SharedDirectory, Vec<DirectoryPass>), NoMemory>
    requires { (1 ≤ count) × (count ≤ 1024) }
    ensures count { IfOk result (λ made. length made.1.items ≡ count) }
    ensures new { IfOk result (λ made. AreNew made.0 (length made.1.items) made.1.items) }
{
    let suffix = suffix_name(alloc)?;
    let provider = Provider::new(alloc, suffix, SERVER, HISTORY, Kind::Root)?;
    match SharedDirectory::new(alloc, provider, count) {
        Ok(made) => Ok(made),
        Err(_) => Err(AllocError),
    }
}

/// The name of the suffix, at which a search for all entries has its base.
fn suffix_name(alloc: Global) -> Result<Dn, NoMemory>
    ensures { IfOk result (λ name. name ≡ suffix) }
{
    let spec = whole_spec(alloc)?;
    spec.base.copy()
}

/// The desks of the passes of a new directory. It is `NoMemory` where memory runs out.
pub fn desks_of<'a, R: Wait>(
    rt: &'a R,
    alloc: Global,
    directory: &'a SharedDirectory,
    passes: Vec<DirectoryPass>,
) -> Result<Vec<Desk<'a, R>>, NoMemory>
    requires { AreNew directory.now (length passes.items) passes.items }
    ensures { IfOk result (λ desks. AllZip
        (IsPortOf (λ d. d.directory.now) (λ d. port_of (view_or d.pass)) directory.now)
        passes.items desks.items) }
{
    let mut desks = Vec::with_capacity(alloc, passes.len())?;
    for pass in passes {
        desks.push(directory.desk(rt, pass))?;
    }
    Ok(desks)
}
