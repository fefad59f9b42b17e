//! The edit of an entry in its place (RFC 4511, section 4.6).
ghost use Rattle.std.specs.Prelude.{◌≡◌, ◌+◌, ◌≤◌, true, None, Some, [], ◌∷◌, filter, IfOk, IfErr, OnOk};
ghost use Rattle.std.specs.List.{list_all};
ghost use Rattle.schema_rules.specs.Attributes.{weight_of};
ghost use Rattle.entry_writes.specs.Codes as codes;
ghost use Rattle.entry_writes.specs.Effects as effects;
ghost use Rattle.entry_writes.specs.Fault.{HasOpCode};
ghost use Rattle.entry_writes.specs.Sound.{is_sound_edit};
ghost use Rattle.entry_writes.specs.State as state;
ghost use Rattle.entry_writes.specs.Touched.{is_change, IsPlan};

use crate::tree::Tree;
use csn_cookie::Csn;
use dn_names::Dn;
use entry_writes::{Edits, Entry, EntryChange, OpFault, Touched, edited_entry, is_one_entry};
use ldap_ber::NoMemory;
use ldap_constants::NO_SUCH_OBJECT;
use schema_rules::Attrs;
use std::alloc::Global;

impl Tree {
    /// What differs after these edits of the entry of that name, which gets the CSN, or the first
    /// code that rejects them.
    pub(crate) fn judge_modify(&self, dn: &Dn, edits: &Edits, csn: Csn) -> Result<Touched, OpFault>
        requires { list_all is_sound_edit edits.now ≡ true }
        ensures accepted { OnOk result
            (codes.modify_code self.now (state.entry_named self.now dn.now) edits.now ≡ None) }
        ensures plan { IfOk result
            (IsPlan self.now
            (effects.modified self.now (state.entry_named self.now dn.now) edits.now csn)) }
        ensures refused { IfErr result
            (HasOpCode (codes.modify_code self.now (state.entry_named self.now dn.now) edits.now)) }
    {
        let Some(was) = self.find(dn) else {
            return Err(OpFault::Code(NO_SUCH_OBJECT));
        };
        let others = weight_without(self.weight, &was.attrs);
        let entry = edited_entry(self.alloc, was, others, edits, csn)?;
        let entry_changes = difference(self.alloc, was, &entry)?;
        Ok(entry_changes)
    }
}

/// What is left of a weight without that of these attributes, which are part of it.
pub(crate) fn weight_without(total: u64, attrs: &Attrs) -> u64
    requires part { weight_of attrs.now ≤ total }
    ensures { result + weight_of attrs.now ≡ total }
{
    total - attrs.weight()
}

/// What differs where the one entry is in the place of the other.
fn difference(alloc: Global, was: &Entry, now: &Entry) -> Result<Touched, NoMemory>
    ensures { IfOk result (λ entry_changes.
        entry_changes
        ≡ filter is_change
        (record { uuid = was.now.uuid; before = Some was.now; after = Some now.now } ∷ [])) }
{
    let mut entry_changes = Touched::new(alloc);
    if !is_one_entry(was, now) {
        entry_changes.push(EntryChange {
            uuid: was.uuid,
            before: Some(was.copy()?),
            after: Some(now.copy()?),
        })?;
    }
    Ok(entry_changes)
}
