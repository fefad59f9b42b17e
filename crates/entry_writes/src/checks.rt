//! The codes against a write (RFC 4511, sections 4.6 to 4.9).
ghost use Rattle.std.specs.Prelude.{◌≡◌, ◌+◌, ◌≤◌, None, IfErr, OnOk};
ghost use Rattle.entry_writes.specs.Codes as spec;
ghost use Rattle.entry_writes.specs.Fault.{HasOpCode};
ghost use Rattle.entry_writes.specs.State as state;

use crate::changing::has_own_pairs;
use crate::fault::OpFault;
use dn_names::Dn;
use ldap_constants::{ADMIN_LIMIT_EXCEEDED, NAMING_VIOLATION, NOT_ALLOWED_ON_RDN};
use schema_rules::Attrs;
use std::alloc::Global;

/// The most that an entry weighs.
const MOST_ENTRY_WEIGHT: u64 = 65_536;

/// The most entries of a directory.
pub const MOST_ENTRIES: usize = 200_000;

/// The most that the entries of a directory weigh.
pub const MOST_WEIGHT: u64 = 268_435_456;

/// Refuses an entry of this weight, beside others that weigh so much, in bytes, with
/// adminLimitExceeded (11): where it weighs more than 65,536, or all of them more than 268,435,456.
pub fn check_weight(weight: u64, others: u64) -> Result<(), OpFault>
    requires { others ≤ state.most_weight }
    ensures ok { OnOk result (spec.weight_code weight (others + weight) ≡ None) }
    ensures fault { IfErr result (HasOpCode (spec.weight_code weight (others + weight))) }
{
    if weight > MOST_ENTRY_WEIGHT || others + weight > MOST_WEIGHT {
        return Err(OpFault::Code(ADMIN_LIMIT_EXCEEDED));
    }
    Ok(())
}

/// Refuses attributes without the values of the name's own RDN with namingViolation (64; RFC 4511,
/// section 4.7); or it is `NoMemory`.
pub fn check_naming(alloc: Global, dn: &Dn, attrs: &Attrs) -> Result<(), OpFault>
    ensures ok { OnOk result (spec.naming_code dn.now attrs.now ≡ None) }
    ensures fault { IfErr result (HasOpCode (spec.naming_code dn.now attrs.now)) }
{
    if !has_own_pairs(alloc, attrs.list(), dn)? {
        return Err(OpFault::Code(NAMING_VIOLATION));
    }
    Ok(())
}

/// Refuses attributes of the entry that have lost values of its RDN.
pub(crate) fn check_kept(alloc: Global, dn: &Dn, attrs: &Attrs) -> Result<(), OpFault>
    ensures ok { OnOk result (spec.rdn_kept_code dn.now attrs.now ≡ None) }
    ensures fault { IfErr result (HasOpCode (spec.rdn_kept_code dn.now attrs.now)) }
{
    if !has_own_pairs(alloc, attrs.list(), dn)? {
        return Err(OpFault::Code(NOT_ALLOWED_ON_RDN));
    }
    Ok(())
}
