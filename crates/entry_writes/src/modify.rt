//! The edit of an entry (RFC 4511, section 4.6).
ghost use Rattle.std.specs.Prelude.{◌≡◌, ◌+◌, ◌≤◌, true, None, IfOk, IfErr, OnOk};
ghost use Rattle.std.specs.List.{list_all};
ghost use Rattle.std.specs.Option.{option_or};
ghost use Rattle.schema_rules.specs.Attributes.{entry_code, weight_of};
ghost use Rattle.entry_writes.specs.Codes as codes;
ghost use Rattle.entry_writes.specs.Edits.{after_edits, edits_code};
ghost use Rattle.entry_writes.specs.Effects as effects;
ghost use Rattle.entry_writes.specs.Fault.{HasOpCode};
ghost use Rattle.entry_writes.specs.Sound.{is_sound_edit};
ghost use Rattle.entry_writes.specs.State as state;

use crate::changing::edited;
use crate::checks::{check_kept, check_weight};
use crate::edit::Edits;
use crate::entry::Entry;
use crate::fault::OpFault;
use csn_cookie::Csn;
use dn_names::Dn;
use schema_rules::{Attrs, check_entry};
use std::alloc::Global;

/// The entry after the edits of a Modify (RFC 4511, section 4.6), with the CSN, beside others
/// that weigh n bytes. Else it reports the first code against them: attributeOrValueExists (20)
/// or noSuchAttribute (16) of the edits in order; then of the attributes after them
/// constraintViolation (19), objectClassViolation (65), notAllowedOnRDN (67) and adminLimitExceeded
/// (11). It is `NoMemory` where memory runs out.
pub fn edited_entry(
    alloc: Global,
    entry: &Entry,
    others: u64,
    edits: &Edits,
    csn: Csn,
) -> Result<Entry, OpFault>
    requires sound { list_all is_sound_edit edits.now ≡ true }
    requires light { others ≤ state.most_weight }
    ensures value { IfOk result (λ after. after ≡ effects.edited entry.now edits.now csn) }
    ensures light { IfOk result (λ after. others + weight_of after.attrs ≤ state.most_weight) }
    ensures accepted { OnOk result (
        let attrs = after_edits entry.now.attrs edits.now in
        option_or (edits_code entry.now.attrs edits.now)
        (option_or (entry_code attrs)
        (option_or (codes.rdn_kept_code entry.now.dn attrs)
        (codes.weight_code (weight_of attrs) (others + weight_of attrs)))) ≡ None) }
    ensures refused { IfErr result (
        let attrs = after_edits entry.now.attrs edits.now in
        HasOpCode
        (option_or (edits_code entry.now.attrs edits.now)
        (option_or (entry_code attrs)
        (option_or (codes.rdn_kept_code entry.now.dn attrs)
        (codes.weight_code (weight_of attrs) (others + weight_of attrs)))))) }
{
    let attrs = edited(alloc, &entry.attrs, edits.list())?;
    check_edited(alloc, &entry.dn, &attrs, others)?;
    Ok(Entry {
        uuid: entry.uuid,
        csn,
        dn: entry.dn.copy()?,
        attrs,
    })
}

/// Refuses attributes for an entry of that name, beside others that weigh so much.
fn check_edited(alloc: Global, dn: &Dn, attrs: &Attrs, others: u64) -> Result<(), OpFault>
    requires { others ≤ state.most_weight }
    ensures light { OnOk result (others + weight_of attrs.now ≤ state.most_weight) }
    ensures accepted { OnOk result (
        option_or (entry_code attrs.now)
        (option_or (codes.rdn_kept_code dn.now attrs.now)
        (codes.weight_code (weight_of attrs.now) (others + weight_of attrs.now))) ≡ None) }
    ensures refused { IfErr result (HasOpCode (
        option_or (entry_code attrs.now)
        (option_or (codes.rdn_kept_code dn.now attrs.now)
        (codes.weight_code (weight_of attrs.now) (others + weight_of attrs.now))))) }
{
    check_entry(alloc, attrs)?;
    check_kept(alloc, dn, attrs)?;
    check_weight(attrs.weight(), others)
}
