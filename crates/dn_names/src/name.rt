//! RDNs with their path key.
ghost use Rattle.std.specs.Prelude.{◌≡◌, IfOk};
ghost use Rattle.std.specs.List.{AllPass};
ghost use Rattle.dn_names.specs.Names.{parent_of};
ghost use Rattle.dn_names.specs.Paths.{path_key, has_small_numbers, IsPathOf, IsPathInParts};

use crate::paths::{append_rdn_path, path_room};
use crate::rdn::Rdn;
use ldap_ber::NoMemory;
use std::alloc::{AllocError, Global};
use std::marker::Model;
use std::sync::Arc;

/// RDNs, the entry's own first, and their path key, which is made once.
#[derive(Drop)]
pub(crate) struct Name {
    rdns: Vec<Rdn>,
    path: Vec<u8>,
    /// How many octets of the path key are that of the parent.
    above: usize,
}

/// Contracts see the RDNs.
impl Model for Name {
    ghost use Rattle.std.specs.Prelude.{List};
    ghost use Rattle.dn_names.specs.Names.{TypeAndValue};
    ghost use Rattle.dn_names.specs.Paths.{IsPathInParts};

    ghost Value = { List (List TypeAndValue) };

    ghost view = { λ n. n.rdns.items };

    ghost invariant = { λ n. IsPathInParts n.rdns.items n.path.items n.above };
}

impl Name {
    /// The RDNs, as names can share them. It is `NoMemory` where memory runs out, and where a
    /// number of the path key has no place in four octets.
    pub(crate) fn shared(alloc: Global, rdns: Vec<Rdn>) -> Result<Arc<Name>, NoMemory>
        ensures value { IfOk result (λ name. name.value ≡ rdns.items) }
        ensures numbers { IfOk result (λ name. AllPass has_small_numbers rdns.items) }
    {
        let (path, above) = path_of(alloc, rdns.as_slice())?;
        Name::with_path(alloc, rdns, path, above)
    }

    /// The same where the path key is made already.
    pub(crate) fn with_path(
        alloc: Global,
        rdns: Vec<Rdn>,
        path: Vec<u8>,
        above: usize,
    ) -> Result<Arc<Name>, NoMemory>
        requires { IsPathInParts rdns.items path.items above }
        ensures value { IfOk result (λ name. name.value ≡ rdns.items) }
        ensures numbers { IfOk result (λ name. AllPass has_small_numbers rdns.items) }
    {
        match Arc::new(alloc, Name { rdns, path, above }) {
            Ok(name) => Ok(name),
            Err(_) => Err(AllocError),
        }
    }

    pub(crate) fn rdns(&self) -> &[Rdn]
        ensures { result.now ≡ self.now }
    {
        self.rdns.as_slice()
    }

    pub(crate) fn path(&self) -> &[u8]
        ensures { result.now ≡ path_key self.now }
    {
        self.path.as_slice()
    }

    /// The path key of the parent, with which that of the name begins.
    pub(crate) fn parent_path(&self) -> &[u8]
        ensures { result.now ≡ path_key (parent_of self.now) }
    {
        let (above, _) = self.path.as_slice().split_at(self.above);
        above
    }
}

/// The path key of the RDNs, and how many octets of it are that of the RDNs above the first.
fn path_of(alloc: Global, rdns: &[Rdn]) -> Result<(Vec<u8>, usize), NoMemory>
    ensures { IfOk result (λ found. IsPathInParts rdns.now found.0.items found.1) }
{
    let Some((own, above)) = rdns.split_first() else {
        return Ok((Vec::new(alloc), 0));
    };
    let mut path = path_of_each(alloc, above, path_room(rdns))?;
    let length = path.len();
    append_rdn_path(alloc, &mut path, own.list())?;
    Ok((path, length))
}

/// The path key of the RDNs, which begins with the last one, in room for this number of octets.
fn path_of_each(alloc: Global, rdns: &[Rdn], room: usize) -> Result<Vec<u8>, NoMemory>
    ensures { IfOk result (λ path. IsPathOf rdns.now path.items) }
{
    let mut path = Vec::with_capacity(alloc, room)?;
    let mut left = rdns;
    while let Some((rdn, below)) = left.split_last() {
        append_rdn_path(alloc, &mut path, rdn.list())?;
        left = below;
    }
    Ok(path)
}
