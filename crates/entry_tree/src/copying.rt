//! Copies of the entries of a directory.
ghost use Rattle.std.specs.Prelude.{◌≡◌, IfOk};

use crate::tree::Tree;
use ldap_ber::NoMemory;

impl Tree {
    /// The same entries a second time, which share what they are made of with these. It is
    /// `NoMemory` where memory runs out.
    pub fn copy(&self) -> Result<Tree, NoMemory>
        ensures { IfOk result (λ copy. copy ≡ self.now) }
    {
        Ok(Tree {
            alloc: self.alloc,
            entries: self.entries.copy()?,
            names: self.names.copy()?,
            weight: self.weight,
            strays: self.strays,
        })
    }
}
