//! The move of an entry with all below it (RFC 4511, section 4.9).
ghost use Rattle.std.specs.Prelude.{◌≡◌, ◌≤◌, None, Some, IfOk, IfErr, OnOk};
ghost use Rattle.std.specs.Option.{option_or};
ghost use Rattle.schema_rules.specs.Attributes.{entry_code, weight_of};
ghost use Rattle.entry_writes.specs.Codes as codes;
ghost use Rattle.entry_writes.specs.Effects as effects;
ghost use Rattle.entry_writes.specs.Fault.{HasOpCode};
ghost use Rattle.entry_writes.specs.State as state;
ghost use Rattle.entry_writes.specs.Touched.{move_changes, IsPlan};

use crate::modify::weight_without;
use crate::tree::Tree;
use csn_cookie::Csn;
use dn_names::{Dn, Rdn};
use entry_writes::{
    Entry, OpFault, Renamed, Touched, check_weight, moved_entries, name_above, name_below,
    own_pairs, with_new_rdn,
};
use ldap_constants::{ADMIN_LIMIT_EXCEEDED, NO_SUCH_OBJECT};
use schema_rules::check_entry;
use std::alloc::Global;

impl Tree {
    /// What differs after the entry of that name gets another RDN, and another superior where one
    /// is given, or the first code that rejects it. All below it move with it, and each gets the
    /// CSN.
    pub(crate) fn judge_rename(
        &self,
        suffix: &Dn,
        dn: &Dn,
        rdn: &Rdn,
        deletes: bool,
        superior: &Option<Dn>,
        csn: Csn,
    ) -> Result<Touched, OpFault>
        ensures accepted { OnOk result
            (codes.rename_code suffix.now self.now (state.entry_named self.now dn.now) rdn.now
            deletes superior.now
            ≡ None) }
        ensures plan { IfOk result
            (IsPlan self.now
            (effects.renamed self.now (state.entry_named self.now dn.now) rdn.now deletes
            superior.now csn)) }
        ensures refused { IfErr result
            (HasOpCode (codes.rename_code suffix.now self.now (state.entry_named self.now dn.now)
            rdn.now deletes superior.now)) }
    {
        let alloc = self.alloc;
        let Some(top) = self.find(dn) else {
            return Err(OpFault::Code(NO_SUCH_OBJECT));
        };
        let renamed = self.renamed(suffix, top, rdn, deletes, superior)?;
        let moved = moved(alloc, self, top, &renamed, csn)?;
        Ok(moved)
    }

    /// The new name and attributes of an entry of the tree, or the first code against them. That of
    /// the names below is not looked at.
    fn renamed(
        &self,
        suffix: &Dn,
        top: &Entry,
        rdn: &Rdn,
        deletes: bool,
        superior: &Option<Dn>,
    ) -> Result<Renamed, OpFault>
        requires { state.entry_at self.now top.now.uuid ≡ Some top.now }
        ensures name { IfOk result (λ renamed.
            renamed.name ≡ effects.new_name top.now rdn.now superior.now) }
        ensures attrs { IfOk result (λ renamed.
            renamed.attrs ≡ effects.new_attributes top.now rdn.now deletes) }
        ensures light { IfOk result (λ renamed.
            state.weight_with self.now top.now (weight_of renamed.attrs) ≤ state.most_weight) }
        ensures accepted { OnOk result (
            let attrs = effects.new_attributes top.now rdn.now deletes in
            option_or (codes.target_code suffix.now self.now top.now
            (effects.new_name top.now rdn.now superior.now) superior.now)
            (option_or (entry_code attrs)
            (codes.weight_code (weight_of attrs)
            (state.weight_with self.now top.now (weight_of attrs))))
            ≡ None) }
        ensures refused { IfErr result (HasOpCode (codes.moved_code suffix.now self.now top.now
            (effects.new_name top.now rdn.now superior.now)
            (effects.new_attributes top.now rdn.now deletes) superior.now)) }
    {
        let above = name_above(self.alloc, &top.dn, superior)?;
        let name = name_below(&above, rdn)?;
        self.check_target(suffix, top, &name, superior)?;
        let attrs = with_new_rdn(self.alloc, &top.attrs, own_pairs(&top.dn), rdn, deletes)?;
        check_entry(self.alloc, &attrs)?;
        check_weight(attrs.weight(), weight_without(self.weight, &top.attrs))?;
        match name {
            None => Err(OpFault::Code(ADMIN_LIMIT_EXCEEDED)),
            Some(name) => Ok(Renamed { name, attrs }),
        }
    }
}

/// What differs of the tree after the entry is renamed with all below it, or the code of a name
/// that would be too long.
fn moved(
    alloc: Global,
    tree: &Tree,
    top: &Entry,
    renamed: &Renamed,
    csn: Csn,
) -> Result<Touched, OpFault>
    ensures entry_changes { IfOk result (λ entry_changes. entry_changes
        ≡ move_changes tree.now top.now renamed.now.name renamed.now.attrs csn) }
    ensures accepted { OnOk result
        (codes.length_code tree.now top.now renamed.now.name ≡ None) }
    ensures refused { IfErr result
        (HasOpCode (codes.length_code tree.now top.now renamed.now.name)) }
{
    let entries = tree.at_or_below(&top.dn)?;
    moved_entries(alloc, &entries, top, renamed, csn)
}
