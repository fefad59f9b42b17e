//! The move of entries with one of them (RFC 4511, section 4.9).
ghost use Rattle.std.specs.Prelude.{◌≡◌, ◌&&◌, true, false, None, Some, map, length, nat_lt, if◌then◌else◌, IfOk, IfErr, OnOk};
ghost use Rattle.dn_names.specs.Names.{is_at_or_below, moved_name};
ghost use Rattle.dn_names.specs.Sound.{most_rdns};
ghost use Rattle.entry_writes.specs.Codes as codes;
ghost use Rattle.entry_writes.specs.Effects as effects;
ghost use Rattle.entry_writes.specs.Fault.{HasOpCode};
ghost use Rattle.entry_writes.specs.Touched.{move_changes};

use crate::entry::Entry;
use crate::fault::OpFault;
use crate::touched::Touched;
use csn_cookie::Csn;
use dn_names::{Dn, NameFault};
use ldap_constants::ADMIN_LIMIT_EXCEEDED;
use schema_rules::Attrs;
use std::alloc::Global;

/// The new name of an entry, and its new attributes.
#[derive(Drop)]
pub struct Renamed {
    pub name: Dn,
    pub attrs: Attrs,
}

/// What differs of these entries after the one is renamed, or the code of a name that would be too
/// long (RFC 4511, section 4.9). That is adminLimitExceeded (11). It is `NoMemory` where memory
/// runs out.
pub fn moved_entries(
    alloc: Global,
    entries: &[&Entry],
    top: &Entry,
    renamed: &Renamed,
    csn: Csn,
) -> Result<Touched, OpFault>
    ensures entry_changes { IfOk result (λ entry_changes. entry_changes
        ≡ move_changes (map (λ e. e.now) entries.now) top.now renamed.now.name renamed.now.attrs
        csn) }
    ensures accepted { OnOk result
        (codes.length_code (map (λ e. e.now) entries.now) top.now renamed.now.name ≡ None) }
    ensures refused { IfErr result
        (HasOpCode (codes.length_code (map (λ e. e.now) entries.now) top.now renamed.now.name)) }
{
    let mut entry_changes = Touched::new(alloc);
    for entry in entries {
        let now = moved_entry(entry, top, renamed, csn)?;
        entry_changes.push_difference(entry.uuid, Some(*entry), Some(&now))?;
    }
    Ok(entry_changes)
}

/// An entry after the one is renamed, or the code of a name that would be too long.
fn moved_entry(entry: &Entry, top: &Entry, renamed: &Renamed, csn: Csn) -> Result<Entry, OpFault>
    ensures value { IfOk result (λ moved.
        moved ≡ effects.moved top.now renamed.now.name renamed.now.attrs csn entry.now) }
    ensures short { OnOk result (
        (is_at_or_below entry.now.dn top.now.dn
        && nat_lt most_rdns (length (moved_name entry.now.dn top.now.dn renamed.now.name)))
        ≡ false) }
    ensures refused { IfErr result (HasOpCode (
        if is_at_or_below entry.now.dn top.now.dn
        && nat_lt most_rdns (length (moved_name entry.now.dn top.now.dn renamed.now.name))
        then Some ADMIN_LIMIT_EXCEEDED
        else None)) }
{
    if !entry.dn.is_at_or_below(&top.dn) {
        return Ok(entry.copy()?);
    }
    let uuid = entry.uuid;
    let dn = moved_dn(&entry.dn, &top.dn, &renamed.name)?;
    let attrs = if uuid == top.uuid {
        renamed.attrs.copy()?
    } else {
        entry.attrs.copy()?
    };
    Ok(Entry {
        uuid,
        csn,
        dn,
        attrs,
    })
}

/// The name with `to` in place of its suffix that equals `from`, or the code of too long a name.
fn moved_dn(dn: &Dn, from: &Dn, to: &Dn) -> Result<Dn, OpFault>
    requires { is_at_or_below dn.now from.now ≡ true }
    ensures value { IfOk result (λ moved. moved ≡ moved_name dn.now from.now to.now) }
    ensures short { OnOk result
        (nat_lt most_rdns (length (moved_name dn.now from.now to.now)) ≡ false) }
    ensures refused { IfErr result
        (HasOpCode (if nat_lt most_rdns (length (moved_name dn.now from.now to.now))
        then Some ADMIN_LIMIT_EXCEEDED
        else None)) }
{
    match dn.moved(from, to) {
        Ok(moved) => Ok(moved),
        Err(NameFault::NoMemory) => Err(OpFault::NoMemory),
        Err(NameFault::BadName(_) | NameFault::UnknownType(_) | NameFault::TooLong(_)) => {
            Err(OpFault::Code(ADMIN_LIMIT_EXCEEDED))
        }
    }
}
