//! What consumers follow, and what is looked at in the end.
ghost use Rattle.std.specs.Prelude.{◌≡◌, IfOk};
ghost use Rattle.entry_tree.specs.Selection.{search_of};
ghost use Rattle.drill_plan.specs.Ending.{whole, followed_by};

use crate::naming::suffix_name;
use entry_tree::{Scope, Spec};
use ldap_ber::{NoMemory, Octets};
use ldap_filter::{Filter, FilterList};
use std::alloc::Global;

/// All entries. It is `NoMemory` where memory runs out.
pub fn whole_spec(alloc: Global) -> Result<Spec, NoMemory>
    ensures { IfOk result (λ spec. search_of spec ≡ whole) }
{
    Ok(Spec {
        base: suffix_name(alloc)?,
        scope: Scope::Sub,
        filter: Filter::And(FilterList::new(alloc)),
    })
}

/// The entries of the department that this consumer follows. It is `NoMemory` where memory runs
/// out.
pub fn followed_spec(alloc: Global, consumer: u32) -> Result<Spec, NoMemory>
    ensures { IfOk result (λ spec. search_of spec ≡ followed_by consumer) }
{
    let department = format!(in alloc; "{}", consumer % 4)?;
    Ok(Spec {
        base: suffix_name(alloc)?,
        scope: Scope::Sub,
        filter: Filter::equality(
            alloc,
            Octets::from_slice(alloc, b"departmentNumber")?,
            Octets::from_slice(alloc, department.as_bytes())?,
        )?,
    })
}
