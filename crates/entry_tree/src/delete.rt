//! The removal of an entry (RFC 4511, section 4.8).
ghost use Rattle.std.specs.Prelude.{◌≡◌, not, None, Some, filter, map, IfOk, IfErr, OnOk};
ghost use Rattle.entry_writes.specs.Codes.{delete_code};
ghost use Rattle.entry_writes.specs.Fault.{HasOpCode};
ghost use Rattle.entry_writes.specs.State as state;
ghost use Rattle.entry_writes.specs.Touched.{IsPlan};

use crate::tree::Tree;
use dn_names::Dn;
use entry_writes::{Entry, EntryChange, OpFault, Touched};
use ldap_ber::NoMemory;
use std::alloc::Global;

impl Tree {
    /// What differs without the entry of that name, or the first code that rejects its removal.
    pub(crate) fn judge_delete(&self, dn: &Dn) -> Result<Touched, OpFault>
        ensures accepted { OnOk result (delete_code self.now dn.now ≡ None) }
        ensures plan { IfOk result
            (IsPlan self.now (filter (λ e. not (state.is_named dn.now e)) self.now)) }
        ensures refused { IfErr result (HasOpCode (delete_code self.now dn.now)) }
    {
        let entries = self.at_name(dn)?;
        let named = entries.as_slice();
        self.check_delete(dn, named)?;
        Ok(removals(self.alloc, named)?)
    }
}

/// What differs without these entries.
fn removals(alloc: Global, entries: &[&Entry]) -> Result<Touched, NoMemory>
    ensures { IfOk result (λ entry_changes.
        entry_changes
        ≡ map (λ e. record { uuid = e.uuid; before = Some e; after = None })
        (map (λ e. e.now) entries.now)) }
{
    let mut entry_changes = Touched::new(alloc);
    for entry in entries {
        entry_changes.push(EntryChange {
            uuid: entry.uuid,
            before: Some(entry.copy()?),
            after: None,
        })?;
    }
    Ok(entry_changes)
}
