//! Edits of an entry's attributes (RFC 4511, section 4.6).
ghost use Rattle.std.specs.Prelude.{◌≡◌, [], ◌∷◌, ◌++◌, OnOk, OnErr};

use ldap_ber::{NoMemory, OctetsList};
use schema_rules::{AttributeType, How};
use std::alloc::Global;
use std::marker::Model;

/// One change of a Modify: what is done with these values of a type.
#[derive(Drop)]
pub struct Edit {
    pub how: How,
    pub kind: AttributeType,
    pub values: OctetsList,
}

/// Edits, which are made in order.
#[derive(Drop)]
pub struct Edits {
    items: Vec<Edit>,
}

impl Model for Edits {
    ghost use Rattle.std.specs.Prelude.{List};
    ghost use Rattle.entry_writes.specs.declared.edit.Edit.{Edit};

    ghost Value = { List Edit };

    ghost view = { λ e. e.items.items };
}

impl Edits {
    /// Makes a list without edits.
    pub fn new(alloc: Global) -> Edits
        ensures { result ≡ [] }
    {
        Edits {
            items: Vec::new(alloc),
        }
    }

    /// Puts the edit at the end. It is `NoMemory` where memory runs out, and the list is as before.
    pub fn push(&mut self, item: Edit) -> Result<(), NoMemory>
        ensures ok { OnOk result (self.new ≡ self.old ++ item ∷ []) }
        ensures err { OnErr result (self.new ≡ self.old) }
    {
        self.items.push(item)?;
        Ok(())
    }

    /// Lends the edits, in the order in which they are made.
    pub fn list(&self) -> &[Edit]
        ensures { result.now ≡ self.now }
    {
        self.items.as_slice()
    }
}
