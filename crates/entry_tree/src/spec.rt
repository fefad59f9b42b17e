//! Which entries a search takes (RFC 4511, section 4.5.1).
ghost use Rattle.std.specs.Prelude.{◌≡◌, IfOk};
ghost use Rattle.entry_tree.specs.Selection.{is_in_scope, is_selected, is_same_scope, is_same_search, search_of};

use dn_names::Dn;
use entry_writes::Entry;
use ldap_ber::NoMemory;
use ldap_filter::{Filter, Truth};
use std::alloc::Global;

/// How far below its base a search goes (RFC 4511, section 4.5.1.2).
#[derive(Clone, Copy, Debug, PartialEq, Eq)]
pub enum Scope {
    /// The base itself.
    Base,
    /// The entries directly below it.
    One,
    /// All entries at or below it.
    Sub,
}

impl Scope {
    fn same(self, other: Scope) -> bool
        ensures { result ≡ is_same_scope self other }
    {
        match self {
            Scope::Base => matches!(other, Scope::Base),
            Scope::One => matches!(other, Scope::One),
            Scope::Sub => matches!(other, Scope::Sub),
        }
    }

    /// Whether a search of this scope from the base comes to the name.
    fn has(self, base: &Dn, name: &Dn) -> bool
        ensures { result ≡ is_in_scope self base.now name.now }
    {
        match self {
            Scope::Base => name.same(base),
            Scope::One => name.is_child_of(base),
            Scope::Sub => name.is_at_or_below(base),
        }
    }
}

/// Which entries are wanted: those in the scope for which the filter is True.
pub struct Spec {
    pub base: Dn,
    pub scope: Scope,
    pub filter: Filter,
}

/// A call of its own, so that what drops a specification is one step, whatever its filter.
impl Drop for Spec {
    fn drop(self) {
        let Spec {
            base: _base,
            scope: _,
            filter: _filter,
        } = self;
    }
}

impl Spec {
    /// Whether the bases are equal, and the scopes and the filters the same.
    pub fn same(&self, other: &Spec) -> bool
        ensures { result ≡ is_same_search (search_of self.now) (search_of other.now) }
    {
        self.base.same(&other.base)
            && self.scope.same(other.scope)
            && self.filter.same(&other.filter)
    }

    /// Whether the specification selects the entry.
    pub(crate) fn selects(&self, alloc: Global, entry: &Entry) -> Result<bool, NoMemory>
        ensures { IfOk result (λ selects. selects ≡ is_selected (search_of self.now) entry.now) }
    {
        if !self.scope.has(&self.base, &entry.dn) {
            return Ok(false);
        }
        let truth = self.filter.value_on(alloc, &entry.attrs)?;
        Ok(matches!(truth, Truth::True))
    }
}
