//! Searches that come to one name alone.
ghost use Rattle.std.specs.Prelude.{◌≡◌, map, IfOk, IfSome};
ghost use Rattle.ldap_filter.specs.FilterTree.{all_of, equal, tree_of, trees};
ghost use Rattle.entry_tree.specs.Pinned.{Pins};

use crate::spec::Spec;
use crate::strays::has_none;
use crate::tree::Tree;
use dn_names::{Dn, Pair};
use ldap_ber::{NoMemory, Octets};
use ldap_filter::Filter;
use schema_rules::AttributeType;

impl Tree {
    /// The path key of the one name that entries directly below the base may have for which the
    /// filter is True: that is an equality of a type which no entry has but as its whole RDN, or an
    /// `and` with such a part. Nothing where it is neither.
    pub(crate) fn pinned_path(&self, spec: &Spec) -> Result<Option<Vec<u8>>, NoMemory>
        ensures { IfOk result (λ found. IfSome found (λ path.
            Pins spec.now.base (tree_of spec.now.filter) self.now path.items)) }
    {
        match parts_of_and(&spec.filter) {
            Some(parts) => self.pinned_by_one(&spec.base, parts),
            None => self.pinned_by(&spec.base, &spec.filter),
        }
    }

    /// The same for an `and` of these parts.
    fn pinned_by_one(&self, base: &Dn, parts: &[Filter]) -> Result<Option<Vec<u8>>, NoMemory>
        ensures { IfOk result (λ found. IfSome found (λ path.
            Pins base.now (all_of (trees (map tree_of parts.now))) self.now path.items)) }
    {
        for part in parts {
            if let Some(path) = self.pinned_by(base, part)? {
                return Ok(Some(path));
            }
        }
        Ok(None)
    }

    /// The same for a filter that is no `and`.
    fn pinned_by(&self, base: &Dn, filter: &Filter) -> Result<Option<Vec<u8>>, NoMemory>
        ensures { IfOk result (λ found. IfSome found (λ path.
            Pins base.now (tree_of filter.now) self.now path.items)) }
    {
        match equality(filter) {
            Some((name, value)) => self.pinned_by_value(base, name, value),
            None => Ok(None),
        }
    }

    /// The same for an equality.
    fn pinned_by_value(
        &self,
        base: &Dn,
        name: &Octets,
        value: &Octets,
    ) -> Result<Option<Vec<u8>>, NoMemory>
        ensures { IfOk result (λ found. IfSome found (λ path.
            Pins base.now (equal name.now value.now) self.now path.items)) }
    {
        let Some(kind) = AttributeType::find(name.as_slice()) else {
            return Ok(None);
        };
        if !has_none(&self.strays, kind) {
            return Ok(None);
        }
        match Pair::of(self.alloc, kind, value.as_slice())? {
            Some(pair) => Ok(Some(base.path_below(&pair)?)),
            None => Ok(None),
        }
    }
}

/// The parts, where the filter is an `and`.
fn parts_of_and(filter: &Filter) -> Option<&[Filter]>
    ensures { IfSome result (λ parts.
        tree_of filter.now ≡ all_of (trees (map tree_of parts.now))) }
{
    match filter {
        Filter::And(parts) => Some(parts.list()),
        _ => None,
    }
}

/// The type and the value, where the filter is an equality.
fn equality(filter: &Filter) -> Option<(&Octets, &Octets)>
    ensures { IfSome result (λ item. tree_of filter.now ≡ equal item.0.now item.1.now) }
{
    match filter {
        Filter::Equal(item) => Some((&item.name, &item.value)),
        _ => None,
    }
}
