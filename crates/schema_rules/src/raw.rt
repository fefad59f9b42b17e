//! Writes as they come in, with nothing read of them yet (RFC 4511, sections 4.6 to 4.9).
ghost use Rattle.std.specs.Prelude.{◌≡◌, [], ◌∷◌, ◌++◌, IfOk, OnOk, OnErr};

use ldap_ber::{NoMemory, Octets, OctetsList};
use std::alloc::Global;
use std::marker::Model;

/// An attribute by the name that came, with values as they came.
#[derive(Drop)]
pub struct RawAttribute {
    pub name: Octets,
    pub values: OctetsList,
}

/// What an edit does with its values.
#[derive(Clone, Copy, Debug, PartialEq, Eq)]
pub enum How {
    Add,
    Delete,
    Replace,
}

/// One change of a Modify.
#[derive(Drop)]
pub struct RawEdit {
    pub how: How,
    pub attribute: RawAttribute,
}

/// A write as it comes in. Names are text.
#[derive(Drop)]
pub enum Change {
    /// A name and its attributes.
    Add(Octets, RawList),
    Delete(Octets),
    Modify(Octets, EditList),
    /// A name, its new first part, whether the values of the old one go, and the new superior.
    Rename(Octets, Octets, bool, Option<Octets>),
}

/// A list of attributes as they came.
#[derive(Drop)]
pub struct RawList {
    items: Vec<RawAttribute>,
}

impl Model for RawList {
    ghost use Rattle.std.specs.Prelude.{List};
    ghost use Rattle.schema_rules.specs.declared.raw.RawAttribute.{RawAttribute};

    ghost Value = { List RawAttribute };

    ghost view = { λ l. l.items.items };
}

impl RawList {
    /// Makes a list without attributes.
    pub fn new(alloc: Global) -> RawList
        ensures { result ≡ [] }
    {
        RawList {
            items: Vec::new(alloc),
        }
    }

    /// The list of these attributes, which takes them over, and no memory.
    pub fn of(items: Vec<RawAttribute>) -> RawList
        ensures { result ≡ items.items }
    {
        RawList { items }
    }

    /// Makes an empty list with room for n attributes. It is `NoMemory` where memory runs out.
    pub fn with_room(alloc: Global, count: usize) -> Result<RawList, NoMemory>
        ensures { IfOk result (λ list. list ≡ []) }
    {
        let items = Vec::with_capacity(alloc, count)?;
        Ok(RawList { items })
    }

    /// Puts the attribute at the end. It is `NoMemory` where memory runs out, and the list is as
    /// before.
    pub fn push(&mut self, item: RawAttribute) -> Result<(), NoMemory>
        ensures ok { OnOk result (self.new ≡ self.old ++ item ∷ []) }
        ensures err { OnErr result (self.new ≡ self.old) }
    {
        self.items.push(item)?;
        Ok(())
    }

    /// Lends the attributes, in the order in which they came.
    pub fn list(&self) -> &[RawAttribute]
        ensures { result.now ≡ self.now }
    {
        self.items.as_slice()
    }
}

/// A list of edits.
#[derive(Drop)]
pub struct EditList {
    items: Vec<RawEdit>,
}

impl Model for EditList {
    ghost use Rattle.std.specs.Prelude.{List};
    ghost use Rattle.schema_rules.specs.declared.raw.RawEdit.{RawEdit};

    ghost Value = { List RawEdit };

    ghost view = { λ l. l.items.items };
}

impl EditList {
    /// Makes a list without edits.
    pub fn new(alloc: Global) -> EditList
        ensures { result ≡ [] }
    {
        EditList {
            items: Vec::new(alloc),
        }
    }

    /// Makes an empty list with room for n edits. It is `NoMemory` where memory runs out.
    pub fn with_room(alloc: Global, count: usize) -> Result<EditList, NoMemory>
        ensures { IfOk result (λ list. list ≡ []) }
    {
        let items = Vec::with_capacity(alloc, count)?;
        Ok(EditList { items })
    }

    /// Puts the edit at the end. It is `NoMemory` where memory runs out, and the list is as before.
    pub fn push(&mut self, item: RawEdit) -> Result<(), NoMemory>
        ensures ok { OnOk result (self.new ≡ self.old ++ item ∷ []) }
        ensures err { OnErr result (self.new ≡ self.old) }
    {
        self.items.push(item)?;
        Ok(())
    }

    /// Lends the edits, in the order in which they came.
    pub fn list(&self) -> &[RawEdit]
        ensures { result.now ≡ self.now }
    {
        self.items.as_slice()
    }
}
