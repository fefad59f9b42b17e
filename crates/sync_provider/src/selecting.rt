//! Whether a search wants an entry (RFC 4511, section 4.5.1).

ghost use Rattle.std.specs.Prelude.{◌≡◌, IfOk};
ghost use Rattle.entry_tree.specs.Selection.{is_in_scope, is_selected, search_of};

use crate::NoMemory;
use dn_names::Dn;
use entry_tree::{Entry, Scope, Spec};
use ldap_filter::Truth;
use std::alloc::Global;

/// Whether the entry is in the scope, and the filter is True for it.
pub(crate) fn selects(alloc: Global, spec: &Spec, entry: &Entry) -> Result<bool, NoMemory>
    ensures { IfOk result (λ selects. selects ≡ is_selected (search_of spec.now) entry.now) }
{
    if !reaches(spec.scope, &spec.base, &entry.dn) {
        return Ok(false);
    }
    let truth = spec.filter.value_on(alloc, &entry.attrs)?;
    Ok(matches!(truth, Truth::True))
}

/// Whether a search of this scope from the base comes to the name.
fn reaches(scope: Scope, base: &Dn, name: &Dn) -> bool
    ensures { result ≡ is_in_scope scope base.now name.now }
{
    match scope {
        Scope::Base => name.same(base),
        Scope::One => name.is_child_of(base),
        Scope::Sub => name.is_at_or_below(base),
    }
}
