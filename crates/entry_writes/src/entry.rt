//! Entries of a directory (RFC 4512, section 2).
ghost use Rattle.std.specs.Prelude.{◌≡◌, [], ◌∷◌, ◌++◌, IfOk, OnOk, OnErr};

use csn_cookie::Csn;
use dn_names::Dn;
use ldap_ber::NoMemory;
use schema_rules::Attrs;
use std::alloc::Global;
use std::marker::Model;

/// An entry: its identity, the CSN of the write that last changed it, its name and its attributes.
pub struct Entry {
    pub uuid: u128,
    pub csn: Csn,
    pub dn: Dn,
    pub attrs: Attrs,
}

/// A call of its own, so that what drops an entry is one step.
impl Drop for Entry {
    fn drop(self) {
        let Entry {
            uuid: _,
            csn: _,
            dn: _dn,
            attrs: _attrs,
        } = self;
    }
}

impl Entry {
    /// Makes the same entry a second time, with its identity and its CSN. It is `NoMemory` where
    /// memory runs out.
    pub fn copy(&self) -> Result<Entry, NoMemory>
        ensures { IfOk result (λ entry. entry ≡ self.now) }
    {
        let uuid = self.uuid;
        let csn = self.csn;
        Ok(Entry {
            uuid,
            csn,
            dn: self.dn.copy()?,
            attrs: self.attrs.copy()?,
        })
    }
}

/// A list of entries.
#[derive(Drop)]
pub struct EntryList {
    items: Vec<Entry>,
}

impl Model for EntryList {
    ghost use Rattle.std.specs.Prelude.{List};
    ghost use Rattle.entry_writes.specs.declared.entry.Entry.{Entry};

    ghost Value = { List Entry };

    ghost view = { λ l. l.items.items };
}

impl EntryList {
    /// Makes a list without entries.
    pub fn new(alloc: Global) -> EntryList
        ensures { result ≡ [] }
    {
        EntryList {
            items: Vec::new(alloc),
        }
    }

    /// Puts the entry at the end. It is `NoMemory` where memory runs out, and the list is as
    /// before.
    pub fn push(&mut self, item: Entry) -> Result<(), NoMemory>
        ensures ok { OnOk result (self.new ≡ self.old ++ item ∷ []) }
        ensures err { OnErr result (self.new ≡ self.old) }
    {
        self.items.push(item)?;
        Ok(())
    }

    /// Gives up the list for its entries, in their order.
    pub fn into_items(self) -> Vec<Entry>
        ensures { result.items ≡ self }
    {
        let EntryList { items } = self;
        items
    }

    /// Lends the entries, in their order.
    pub fn list(&self) -> &[Entry]
        ensures { result.now ≡ self.now }
    {
        self.items.as_slice()
    }
}
