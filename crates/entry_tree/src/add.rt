//! The addition of an entry (RFC 4511, section 4.7).
ghost use Rattle.std.specs.Prelude.{◌≡◌, None, Some, [], ◌∷◌, filter, IfOk, IfErr, OnOk};
ghost use Rattle.std.specs.Option.{option_copied};
ghost use Rattle.entry_writes.specs.Codes.{add_code, limit_code};
ghost use Rattle.entry_writes.specs.Fault.{HasOpCode};
ghost use Rattle.entry_writes.specs.State as state;
ghost use Rattle.entry_writes.specs.Touched.{is_change, IsPlan};

use crate::tree::Tree;
use csn_cookie::Csn;
use dn_names::Dn;
use entry_writes::{Entry, MOST_ENTRIES, OpFault, Touched, check_naming, check_weight};
use ldap_ber::NoMemory;
use ldap_constants::ADMIN_LIMIT_EXCEEDED;
use schema_rules::{Attrs, check_entry};
use std::alloc::Global;

impl Tree {
    /// What differs after an entry is added to the directory with this suffix, or the first code
    /// that rejects it. An entry that has the identity goes.
    pub(crate) fn judge_add(
        &self,
        suffix: &Dn,
        dn: &Dn,
        attrs: &Attrs,
        uuid: u128,
        csn: Csn,
    ) -> Result<Touched, OpFault>
        ensures accepted { OnOk result (add_code suffix.now self.now dn.now attrs.now ≡ None) }
        ensures plan { IfOk result
            (IsPlan self.now
            (state.put (record { uuid = uuid; csn = csn; dn = dn.now; attrs = attrs.now })
            self.now)) }
        ensures refused { IfErr result (HasOpCode (add_code suffix.now self.now dn.now attrs.now)) }
    {
        let entry = self.new_entry(suffix, dn, attrs, uuid, csn)?;
        let was = self.get(uuid);
        Ok(change(self.alloc, was, &entry)?)
    }

    /// The entry that is to be added, or the first code that rejects it.
    fn new_entry(
        &self,
        suffix: &Dn,
        dn: &Dn,
        attrs: &Attrs,
        uuid: u128,
        csn: Csn,
    ) -> Result<Entry, OpFault>
        ensures accepted { OnOk result (add_code suffix.now self.now dn.now attrs.now ≡ None) }
        ensures value { IfOk result (λ entry.
            entry ≡ record { uuid = uuid; csn = csn; dn = dn.now; attrs = attrs.now }) }
        ensures refused { IfErr result (HasOpCode (add_code suffix.now self.now dn.now attrs.now)) }
    {
        self.check_add(suffix, dn, attrs)?;
        Ok(Entry {
            uuid,
            csn,
            dn: dn.copy()?,
            attrs: attrs.copy()?,
        })
    }

    /// Refuses an Add with the first code against it: noSuchObject (32), entryAlreadyExists (68),
    /// constraintViolation (19), objectClassViolation (65), namingViolation (64) or
    /// adminLimitExceeded (11); or it is `NoMemory`.
    fn check_add(&self, suffix: &Dn, dn: &Dn, attrs: &Attrs) -> Result<(), OpFault>
        ensures ok { OnOk result (add_code suffix.now self.now dn.now attrs.now ≡ None) }
        ensures fault { IfErr result (HasOpCode (add_code suffix.now self.now dn.now attrs.now)) }
    {
        self.check_place(suffix, dn)?;
        check_entry(self.alloc, attrs)?;
        check_naming(self.alloc, dn, attrs)?;
        self.check_room(attrs.weight())
    }

    /// Refuses one more entry of this weight.
    fn check_room(&self, weight: u64) -> Result<(), OpFault>
        ensures ok { OnOk result (limit_code self.now weight ≡ None) }
        ensures fault { IfErr result (HasOpCode (limit_code self.now weight)) }
    {
        if self.len() >= MOST_ENTRIES {
            return Err(OpFault::Code(ADMIN_LIMIT_EXCEEDED));
        }
        check_weight(weight, self.weight())
    }
}

/// What an identity had and its entry, where these differ.
fn change(alloc: Global, was: Option<&Entry>, now: &Entry) -> Result<Touched, NoMemory>
    ensures { IfOk result (λ entry_changes. entry_changes ≡ filter is_change
        (record { uuid = now.now.uuid; before = option_copied was.entry; after = Some now.now }
        ∷ [])) }
{
    let mut entry_changes = Touched::new(alloc);
    entry_changes.push_change(was, now)?;
    Ok(entry_changes)
}
