//! Entries by their names, in ascending order of identity.
ghost use Rattle.std.specs.Prelude.{◌≡◌, [], ◌++◌, map, filter, option_copied, IfOk, OnOk};
ghost use Rattle.std.specs.List.{cons_option, filter_map};
ghost use Rattle.dn_names.specs.Names.{is_at_or_below};
ghost use Rattle.entry_tree.specs.NameIndex as index;
ghost use Rattle.entry_tree.specs.Selection.{search_of, select};
ghost use Rattle.entry_writes.specs.State as state;
ghost use Rattle.entry_writes.specs.Touched.{joined};

use crate::after::id_set;
use crate::names::{Names, all_begin, ids_within};
use crate::spec::{Scope, Spec};
use crate::tree::Tree;
use dn_names::Dn;
use entry_writes::Entry;
use ldap_ber::NoMemory;
use std::alloc::Global;

impl Tree {
    /// The entries of that name.
    pub(crate) fn at_name(&self, dn: &Dn) -> Result<Vec<&Entry>, NoMemory>
        ensures { IfOk result (λ entries.
            map (λ e. e.now) entries.items ≡ filter (state.is_named dn.now) self.now) }
    {
        let uuids = ids_in_order(self.alloc, &self.names, dn.path())?;
        self.entries_of(&uuids)
    }

    /// The entries whose name has this path key.
    fn at_path(&self, path: &[u8]) -> Result<Vec<&Entry>, NoMemory>
        ensures { IfOk result (λ entries.
            map (λ e. e.now) entries.items ≡ filter (index.has_path_key path.now) self.now) }
    {
        let uuids = ids_in_order(self.alloc, &self.names, path)?;
        self.entries_of(&uuids)
    }

    /// The entries at or below the name.
    pub(crate) fn at_or_below(&self, dn: &Dn) -> Result<Vec<&Entry>, NoMemory>
        ensures { IfOk result (λ entries.
            map (λ e. e.now) entries.items
            ≡ filter (λ e. is_at_or_below e.dn dn.now) self.now) }
    {
        let _ = self.names.len();
        let uuids = ids_below(self.alloc, &self.names, dn.path())?;
        self.entries_of(&uuids)
    }

    /// The entries that the search may come to. Where all are at or below its base none is looked
    /// up.
    pub(crate) fn reached(&self, spec: &Spec) -> Result<Vec<&Entry>, NoMemory>
        ensures { IfOk result (λ entries.
            select (search_of spec.now) (map (λ e. e.now) entries.items)
            ≡ select (search_of spec.now) self.now) }
    {
        match spec.scope {
            Scope::Base => self.at_name(&spec.base),
            Scope::One => self.reached_below(spec),
            Scope::Sub => self.near(&spec.base),
        }
    }

    /// The same for entries directly below the base: those of one name, where the search comes to
    /// no other.
    fn reached_below(&self, spec: &Spec) -> Result<Vec<&Entry>, NoMemory>
        requires { spec.now.scope ≡ Scope.One }
        ensures { IfOk result (λ entries.
            select (search_of spec.now) (map (λ e. e.now) entries.items)
            ≡ select (search_of spec.now) self.now) }
    {
        match self.pinned_path(spec)? {
            Some(path) => self.at_path(&path),
            None => self.near(&spec.base),
        }
    }

    /// The entries at or below the name, and others where that is simpler.
    fn near(&self, dn: &Dn) -> Result<Vec<&Entry>, NoMemory>
        ensures { IfOk result (λ entries.
            filter (λ e. is_at_or_below e.dn dn.now) (map (λ e. e.now) entries.items)
            ≡ filter (λ e. is_at_or_below e.dn dn.now) self.now) }
    {
        if all_begin(&self.names, dn.path()) {
            return self.entries();
        }
        self.at_or_below(dn)
    }

    /// The entries of these identities, of those that have one.
    fn entries_of(&self, uuids: &[u128]) -> Result<Vec<&Entry>, NoMemory>
        ensures { IfOk result (λ entries.
            map (λ e. e.now) entries.items
            ≡ filter_map (state.entry_at self.now) uuids.now) }
    {
        let mut entries = Vec::new(self.alloc);
        for uuid in uuids {
            push_found(&mut entries, self.get(*uuid))?;
        }
        Ok(entries)
    }
}

/// Puts the entry at the end, where there is one.
fn push_found<'a>(entries: &mut Vec<&'a Entry>, found: Option<&'a Entry>) -> Result<(), NoMemory>
    ensures { OnOk result (map (λ e. e.now) entries.new.items
        ≡ map (λ e. e.now) entries.old.items ++ cons_option (option_copied found.entry) []) }
{
    if let Some(entry) = found {
        entries.push(entry)?;
    }
    Ok(())
}

/// The identities at the path key, in ascending order.
fn ids_in_order(alloc: Global, names: &Names, path: &[u8]) -> Result<Vec<u128>, NoMemory>
    ensures { IfOk result (λ uuids.
        uuids.items ≡ joined [] (index.ids_at names.now path.now)) }
{
    match names.get(path) {
        Some(uuids) => in_order(alloc, uuids),
        None => Ok(Vec::new(alloc)),
    }
}

/// The identities at the path keys that begin with this one, in ascending order.
fn ids_below(alloc: Global, names: &Names, path: &[u8]) -> Result<Vec<u128>, NoMemory>
    ensures { IfOk result (λ uuids.
        uuids.items ≡ joined [] (index.ids_within names.now path.now)) }
{
    let set = ids_within(alloc, names, path)?;
    set.iter().copied().collect(alloc)
}

/// The identities in ascending order, each once.
fn in_order(alloc: Global, uuids: &[u128]) -> Result<Vec<u128>, NoMemory>
    ensures { IfOk result (λ ordered. ordered.items ≡ joined [] uuids.now) }
{
    let set = id_set(alloc, uuids)?;
    set.iter().copied().collect(alloc)
}
