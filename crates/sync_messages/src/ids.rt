//! Lists of identities.

ghost use Rattle.std.specs.Prelude.{◌≡◌, [], ◌∷◌, ◌++◌, IfOk, OnOk, OnErr};

use ldap_ber::NoMemory;
use std::alloc::Global;
use std::marker::Model;

/// A list of identities.
#[derive(Drop)]
pub struct IdList {
    items: Vec<u128>,
}

impl Model for IdList {
    ghost use Rattle.std.specs.Prelude.{List, ℕ};

    ghost Value = { List ℕ };

    ghost view = { λ l. l.items.items };
}

impl IdList {
    /// Makes a list without identities.
    pub fn new(alloc: Global) -> IdList
        ensures { result ≡ [] }
    {
        IdList {
            items: Vec::new(alloc),
        }
    }

    /// Makes an empty list with room for n identities. It is `NoMemory` where memory runs out.
    pub fn with_room(alloc: Global, count: usize) -> Result<IdList, NoMemory>
        ensures { IfOk result (λ list. list ≡ []) }
    {
        let items = Vec::with_capacity(alloc, count)?;
        Ok(IdList { items })
    }

    /// Puts the identity at the end. It is `NoMemory` where memory runs out, and the list is as
    /// before.
    pub fn push(&mut self, id: u128) -> Result<(), NoMemory>
        ensures ok { OnOk result (self.new ≡ self.old ++ id ∷ []) }
        ensures err { OnErr result (self.new ≡ self.old) }
    {
        self.items.push(id)?;
        Ok(())
    }

    /// Lends the identities, in their order.
    pub fn list(&self) -> &[u128]
        ensures { result.now ≡ self.now }
    {
        self.items.as_slice()
    }
}
