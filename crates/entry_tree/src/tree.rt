//! The entries of a directory.
ghost use Rattle.std.specs.Prelude.{◌≡◌, ◌≤◌, true, None, List, [], length, map, IfOk, OnOk, OnErr, IfErr};
ghost use Rattle.std.specs.Option.{option_copied};
ghost use Rattle.dn_names.specs.Names.{TypeAndValue};
ghost use Rattle.dn_names.specs.Paths.{path_key, HasPath};
ghost use Rattle.entry_writes.specs.Codes.{code_of};
ghost use Rattle.entry_writes.specs.Effects.{effect};
ghost use Rattle.entry_writes.specs.Fault.{HasOpCode};
ghost use Rattle.entry_tree.specs.Fitting.{fits};
ghost use Rattle.entry_tree.specs.Selection.{search_of, select};
ghost use Rattle.entry_writes.specs.Sound.{is_sound_op};
ghost use Rattle.entry_writes.specs.State as state;
ghost use Rattle.entry_writes.specs.Touched.{touched, with_changes, CanBeMade, IsPlan};

use crate::names::{Names, first_at};
use crate::spec::Spec;
use crate::strays::{Strays, no_strays};
use csn_cookie::Csn;
use dn_names::Dn;
use entry_writes::{Entry, EntryList, Op, OpFault, Touched};
use ldap_ber::NoMemory;
use shared_map::SharedMap;
use std::alloc::Global;
use std::marker::Model;

/// Entries at their identities.
pub(crate) type Entries = SharedMap<u128, Entry>;

/// The entries of a directory, with their weight.
#[derive(Drop)]
pub struct Tree {
    pub(crate) alloc: Global,
    pub(crate) entries: Entries,
    /// The index of the entries by their names.
    pub(crate) names: Names,
    pub(crate) weight: u64,
    pub(crate) strays: Strays,
}

/// Contracts see the entries in ascending order of identity.
impl Model for Tree {
    ghost use Rattle.std.specs.Prelude.{List};
    ghost use Rattle.entry_writes.specs.declared.entry.Entry.{Entry};
    ghost use Rattle.std.specs.Map.{values_of};
    ghost use Rattle.entry_tree.specs.NameIndex.{IsTree};

    ghost Value = { List Entry };

    ghost view = { λ t. values_of t.entries };

    ghost invariant = { λ t. IsTree t.entries t.names t.weight t.strays };
}

impl Tree {
    /// Makes a tree without entries.
    pub fn new(alloc: Global) -> Tree
        ensures { result ≡ [] }
    {
        Tree {
            alloc,
            entries: SharedMap::new(alloc),
            names: SharedMap::new(alloc),
            weight: 0,
            strays: no_strays(),
        }
    }

    /// How many entries there are, 200,000 at most.
    pub fn len(&self) -> usize
        ensures value { result ≡ length self.now }
        ensures bound { result ≤ state.most_entries }
    {
        self.entries.len()
    }

    /// What the entries weigh, 256 MiB at most.
    pub fn weight(&self) -> u64
        ensures value { result ≡ state.total_weight self.now }
        ensures bound { result ≤ state.most_weight }
    {
        self.weight
    }

    /// The entries, in ascending order of identity. It is `NoMemory` where memory runs out.
    pub fn entries(&self) -> Result<Vec<&Entry>, NoMemory>
        ensures { IfOk result (λ list. map (λ e. e.now) list.items ≡ self.now) }
    {
        self.entries.values()
    }

    /// The entry of that identity.
    pub fn get(&self, uuid: u128) -> Option<&Entry>
        ensures value { option_copied result ≡ state.entry_at self.now uuid }
        ensures ascends { state.ascends self.now ≡ true }
    {
        self.entries.get(&uuid)
    }

    /// The entry of that name; where there are several, the first by identity.
    pub fn find(&self, dn: &Dn) -> Option<&Entry>
        ensures { option_copied result ≡ state.entry_named self.now dn.now }
    {
        self.find_at(dn.path())
    }

    /// The entry whose name has this path key; where there are several, the first by identity.
    pub(crate) fn find_at(&self, path: &[u8]) -> Option<&Entry>
        ensures { (name : List (List TypeAndValue)) → HasPath name → path.now ≡ path_key name
            → option_copied result ≡ state.entry_named self.now name }
    {
        match first_at(&self.names, path) {
            Some(uuid) => self.get(uuid),
            None => None,
        }
    }

    /// Applies a write to the directory with this suffix, or reports the first code that rejects it
    /// (RFC 4511, sections 4.6 to 4.9). An entry that is added gets the identity, and each entry
    /// that is added or changed the CSN; what a commit puts keeps its own, and `check_commit`
    /// reports whether there is room for it. The answer is what differs, with what was and what is.
    /// A refusal leaves the entries. It is `Code`, or `NoMemory`.
    pub fn apply(&mut self, op: &Op, suffix: &Dn, uuid: u128, csn: Csn) -> Result<Touched, OpFault>
        requires sound { is_sound_op op.now ≡ true }
        requires fits { fits self.old op.now ≡ true }
        ensures accepted { OnOk result (code_of suffix.now self.old op.now ≡ None) }
        ensures effect { OnOk result (self.new ≡ effect self.old op.now uuid csn) }
        ensures touched { IfOk result (λ entry_changes. entry_changes ≡ touched self.old self.new) }
        ensures refused { IfErr result (HasOpCode (code_of suffix.now self.old op.now)) }
        ensures err { OnErr result (self.new ≡ self.old) }
    {
        let entry_changes = self.preview(op, suffix, uuid, csn)?;
        self.put(&entry_changes)?;
        Ok(entry_changes)
    }

    /// What `apply` would answer, which `put` can put in place. The entries stay as they are. It is
    /// `Code`, or `NoMemory`.
    pub fn preview(&self, op: &Op, suffix: &Dn, uuid: u128, csn: Csn) -> Result<Touched, OpFault>
        requires sound { is_sound_op op.now ≡ true }
        requires fits { fits self.now op.now ≡ true }
        ensures accepted { OnOk result (code_of suffix.now self.now op.now ≡ None) }
        ensures touched { IfOk result (λ entry_changes.
            entry_changes ≡ touched self.now (effect self.now op.now uuid csn)) }
        ensures effect { IfOk result (λ entry_changes.
            with_changes self.now entry_changes ≡ effect self.now op.now uuid csn) }
        ensures fit { IfOk result (CanBeMade self.now) }
        ensures refused { IfErr result (HasOpCode (code_of suffix.now self.now op.now)) }
    {
        self.judge(op, suffix, uuid, csn)
    }

    /// What a write changes, or the first code that rejects it.
    fn judge(&self, op: &Op, suffix: &Dn, uuid: u128, csn: Csn) -> Result<Touched, OpFault>
        requires sound { is_sound_op op.now ≡ true }
        requires fits { fits self.now op.now ≡ true }
        ensures accepted { OnOk result (code_of suffix.now self.now op.now ≡ None) }
        ensures plan { IfOk result (IsPlan self.now (effect self.now op.now uuid csn)) }
        ensures refused { IfErr result (HasOpCode (code_of suffix.now self.now op.now)) }
    {
        match op {
            Op::Add(dn, attrs) => self.judge_add(suffix, dn, attrs, uuid, csn),
            Op::Delete(dn) => self.judge_delete(dn),
            Op::Modify(dn, edits) => self.judge_modify(dn, edits, csn),
            Op::Rename(dn, rdn, deletes, superior) => {
                self.judge_rename(suffix, dn, rdn, *deletes, superior, csn)
            }
            Op::Commit(puts, drops) => Ok(self.judge_commit(puts.list(), drops.list())?),
        }
    }

    /// The entries that are wanted, in ascending order of identity (RFC 4511, section 4.5.1). It is
    /// `NoMemory` where memory runs out.
    pub fn select(&self, spec: &Spec) -> Result<EntryList, NoMemory>
        ensures { IfOk result (λ found. found ≡ select (search_of spec.now) self.now) }
    {
        let entries = self.reached(spec)?;
        taken(self.alloc, &entries, spec)
    }
}

/// Those of the entries that the specification selects.
fn taken(alloc: Global, entries: &[&Entry], spec: &Spec) -> Result<EntryList, NoMemory>
    ensures { IfOk result (λ found.
        found ≡ select (search_of spec.now) (map (λ e. e.now) entries.now)) }
{
    let mut found = EntryList::new(alloc);
    for entry in entries {
        if spec.selects(alloc, entry)? {
            found.push(entry.copy()?)?;
        }
    }
    Ok(found)
}
