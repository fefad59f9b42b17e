//! Copies of filters, and whether two filters are the same.
ghost use Rattle.std.specs.Prelude.{◌≡◌, map, IfOk, bytes_eq};
ghost use Rattle.std.specs.Option.{option_eq};
ghost use Rattle.ldap_filter.specs.Same.{same_name, same_tree, same_trees, same_item};
ghost use Rattle.ldap_filter.specs.FilterTree.{tree_of, trees, parts_of};

use crate::equality::Equality;
use crate::filter::{Filter, FilterList, Pieces};
use crate::matching::AskedKey;
use ldap_ber::{NoMemory, Octets};

impl Filter {
    /// Makes the same filter a second time: its structure, its names of types and its values, byte
    /// for byte. It is `NoMemory` where memory runs out.
    #[cycle(copies)]
    pub fn copy(&self) -> Result<Filter, NoMemory>
        ensures { IfOk result (λ filter. tree_of filter ≡ tree_of self.now) }
    {
        match self {
            Filter::And(parts) => Ok(Filter::And(parts.copy()?)),
            Filter::Or(parts) => Ok(Filter::Or(parts.copy()?)),
            Filter::Not(part) => {
                let copy = part.copy()?;
                Ok(Filter::Not(Box::new(*Box::allocator(part), copy)?))
            }
            Filter::Equal(equality) => Ok(Filter::Equal(equality.copy()?)),
            Filter::Substrings(name, pieces) => {
                Ok(Filter::Substrings(name.copy()?, pieces.copy()?))
            }
            Filter::AtLeast(name, value) => Ok(Filter::AtLeast(name.copy()?, value.copy()?)),
            Filter::AtMost(name, value) => Ok(Filter::AtMost(name.copy()?, value.copy()?)),
            Filter::Present(name) => Ok(Filter::Present(name.copy()?)),
            Filter::Approx(equality) => Ok(Filter::Approx(equality.copy()?)),
            Filter::Extensible(body) => Ok(Filter::Extensible(body.copy()?)),
        }
    }

    /// Whether the filters have the same structure, with names of types that differ in the case of
    /// ASCII letters alone and the same bytes as values. The order in a list counts.
    #[cycle(comparisons)]
    pub fn same(&self, other: &Filter) -> bool
        ensures { result ≡ same_tree (tree_of self.now) (tree_of other.now) }
    {
        match self {
            Filter::And(parts) => matches!(other, Filter::And(others) if parts.same(others)),
            Filter::Or(parts) => matches!(other, Filter::Or(others) if parts.same(others)),
            Filter::Not(part) => matches!(other, Filter::Not(opposed) if part.same(opposed)),
            Filter::Equal(equality) => {
                matches!(other, Filter::Equal(other_equality) if equality.same(other_equality))
            }
            Filter::Substrings(name, pieces) => {
                matches!(other, Filter::Substrings(other_name, others)
                    if is_same_name(name, other_name) && pieces.same(others))
            }
            Filter::AtLeast(name, value) => {
                matches!(other, Filter::AtLeast(other_name, other_value)
                    if is_same_item(name, value, other_name, other_value))
            }
            Filter::AtMost(name, value) => {
                matches!(other, Filter::AtMost(other_name, other_value)
                    if is_same_item(name, value, other_name, other_value))
            }
            Filter::Present(name) => {
                matches!(other, Filter::Present(other_name) if is_same_name(name, other_name))
            }
            Filter::Approx(equality) => {
                matches!(other, Filter::Approx(other_equality) if equality.same(other_equality))
            }
            Filter::Extensible(body) => {
                matches!(other, Filter::Extensible(other_body) if body == other_body)
            }
        }
    }
}

impl FilterList {
    #[cycle(copies)]
    fn copy(&self) -> Result<FilterList, NoMemory>
        ensures { IfOk result (λ list.
            map tree_of (parts_of list) ≡ map tree_of (parts_of self.now)) }
    {
        let mut items = Vec::new(*self.items.allocator());
        for item in &self.items {
            items.push(item.copy()?)?;
        }
        Ok(FilterList { items })
    }

    #[cycle(comparisons)]
    fn same(&self, other: &FilterList) -> bool
        ensures { result
            ≡ same_trees (trees (map tree_of (parts_of self.now)))
            (trees (map tree_of (parts_of other.now))) }
    {
        let mut others = other.list();
        for item in self.list() {
            match others.split_first() {
                Some((first, rest)) if item.same(first) => others = rest,
                _ => return false,
            }
        }
        others.is_empty()
    }
}

impl Equality {
    fn copy(&self) -> Result<Equality, NoMemory>
        ensures name { IfOk result (λ equality. equality.name ≡ self.now.name) }
        ensures value { IfOk result (λ equality. equality.value ≡ self.now.value) }
    {
        let name = self.name.copy()?;
        let value = self.value.copy()?;
        let asked = copy_of_asked(&self.asked)?;
        Ok(Equality { name, value, asked })
    }

    fn same(&self, other: &Equality) -> bool
        ensures { result
            ≡ same_item self.now.name self.now.value other.now.name other.now.value }
    {
        is_same_item(&self.name, &self.value, &other.name, &other.value)
    }
}

impl AskedKey {
    fn copy(&self) -> Result<AskedKey, NoMemory>
        ensures { IfOk result (λ asked. asked ≡ self.now) }
    {
        Ok(AskedKey {
            kind: self.kind,
            key: self.key.copy()?,
        })
    }
}

impl Pieces {
    ghost use Rattle.ldap_filter.specs.Same.{same_pieces};

    fn copy(&self) -> Result<Pieces, NoMemory>
        ensures initial { IfOk result (λ pieces. pieces.initial ≡ self.now.initial) }
        ensures middle { IfOk result (λ pieces. pieces.middle ≡ self.now.middle) }
        ensures last { IfOk result (λ pieces. pieces.last ≡ self.now.last) }
    {
        let initial = copy_of(&self.initial)?;
        let middle = self.middle.copy()?;
        let last = copy_of(&self.last)?;
        Ok(Pieces {
            initial,
            middle,
            last,
        })
    }

    fn same(&self, other: &Pieces) -> bool
        ensures { result
            ≡ same_pieces self.now.initial self.now.middle self.now.last
            other.now.initial other.now.middle other.now.last }
    {
        is_same_piece(&self.initial, &other.initial)
            && self.middle == other.middle
            && is_same_piece(&self.last, &other.last)
    }
}

fn copy_of_asked(asked: &Option<AskedKey>) -> Result<Option<AskedKey>, NoMemory>
    ensures { IfOk result (λ copy. copy ≡ asked.now) }
{
    match asked {
        None => Ok(None),
        Some(asked) => Ok(Some(asked.copy()?)),
    }
}

fn copy_of(piece: &Option<Octets>) -> Result<Option<Octets>, NoMemory>
    ensures { IfOk result (λ copy. copy ≡ piece.now) }
{
    match piece {
        None => Ok(None),
        Some(octets) => Ok(Some(octets.copy()?)),
    }
}

fn is_same_piece(one: &Option<Octets>, other: &Option<Octets>) -> bool
    ensures { result ≡ option_eq bytes_eq one.now other.now }
{
    one == other
}

/// Whether the names of types differ in the case of ASCII letters alone.
fn is_same_name(one: &Octets, other: &Octets) -> bool
    ensures { result ≡ same_name one.now other.now }
{
    one.as_slice().eq_ignore_ascii_case(other.as_slice())
}

fn is_same_item(name: &Octets, value: &Octets, other_name: &Octets, other_value: &Octets) -> bool
    ensures { result ≡ same_item name.now value.now other_name.now other_value.now }
{
    is_same_name(name, other_name) && value == other_value
}
