//! The truth of a filter on a list of attributes (RFC 4511, section 4.5.1.7).
ghost use Rattle.std.specs.Prelude.{◌≡◌, map, IfOk};
ghost use Rattle.ldap_filter.specs.Matching as matching;
ghost use Rattle.ldap_filter.specs.FilterTree.{tree_of, trees, parts_of};
ghost use Rattle.ldap_filter.specs.Truth as spec;

use crate::equality::Equality;
use crate::filter::{Filter, FilterList, Pieces};
use crate::matching::{
    AskedKey, Test, asked_type, at_least_test, at_most_test, has_keyed, has_match, substrings_test,
};
use ldap_ber::{NoMemory, Octets};
use schema_rules::{Attribute, AttributeType, Attrs, has_kind};
use std::alloc::Global;

/// What a filter says of an entry. Undefined selects nothing.
#[derive(Clone, Copy, Debug, PartialEq, Eq)]
pub enum Truth {
    True,
    False,
    Undefined,
}

impl Truth {
    fn opposite(self) -> Truth
        ensures { result ≡ spec.opposite self }
    {
        match self {
            Truth::True => Truth::False,
            Truth::False => Truth::True,
            Truth::Undefined => Truth::Undefined,
        }
    }

    fn decided(holds: bool) -> Truth
        ensures { result ≡ spec.decided holds }
    {
        if holds { Truth::True } else { Truth::False }
    }
}

impl Filter {
    /// The truth of the filter on the attributes of an entry (RFC 4511, section 4.5.1.7). It is
    /// `NoMemory` where memory runs out.
    #[cycle(truths)]
    pub fn value_on(&self, alloc: Global, attrs: &Attrs) -> Result<Truth, NoMemory>
        ensures { IfOk result (λ truth. truth ≡ spec.truth_on attrs.now (tree_of self.now)) }
    {
        match self {
            Filter::And(parts) => parts.conjunction_on(alloc, attrs),
            Filter::Or(parts) => parts.disjunction_on(alloc, attrs),
            Filter::Not(part) => Ok(part.value_on(alloc, attrs)?.opposite()),
            Filter::Equal(equality) | Filter::Approx(equality) => {
                equality_on(alloc, attrs.list(), equality)
            }
            Filter::Substrings(name, pieces) => { substrings_on(alloc, attrs.list(), name, pieces) }
            Filter::AtLeast(name, value) => at_least_on(alloc, attrs.list(), name, value),
            Filter::AtMost(name, value) => at_most_on(alloc, attrs.list(), name, value),
            Filter::Present(name) => Ok(presence_on(attrs.list(), name)),
            Filter::Extensible(_) => Ok(Truth::Undefined),
        }
    }
}

impl FilterList {
    #[cycle(truths)]
    fn conjunction_on(&self, alloc: Global, attrs: &Attrs) -> Result<Truth, NoMemory>
        ensures { IfOk result
            (λ truth.
            truth
            ≡ spec.conjunction
            (spec.truths_on attrs.now (trees (map tree_of (parts_of self.now))))) }
    {
        let mut all = Truth::True;
        for part in self.list() {
            match part.value_on(alloc, attrs)? {
                Truth::True => {}
                Truth::False => return Ok(Truth::False),
                Truth::Undefined => all = Truth::Undefined,
            }
        }
        Ok(all)
    }

    #[cycle(truths)]
    fn disjunction_on(&self, alloc: Global, attrs: &Attrs) -> Result<Truth, NoMemory>
        ensures { IfOk result
            (λ truth.
            truth
            ≡ spec.disjunction
            (spec.truths_on attrs.now (trees (map tree_of (parts_of self.now))))) }
    {
        let mut any = Truth::False;
        for part in self.list() {
            match part.value_on(alloc, attrs)? {
                Truth::True => return Ok(Truth::True),
                Truth::False => {}
                Truth::Undefined => any = Truth::Undefined,
            }
        }
        Ok(any)
    }
}

fn equality_on(
    alloc: Global,
    attributes: &[Attribute],
    equality: &Equality,
) -> Result<Truth, NoMemory>
    ensures { IfOk result (λ truth. truth
        ≡ spec.equality attributes.now
        (matching.asked_key equality.now.name equality.now.value)) }
{
    asked_on(alloc, attributes, &equality.asked)
}

/// An equality that asks for nothing is Undefined.
fn asked_on(
    alloc: Global,
    attributes: &[Attribute],
    asked: &Option<AskedKey>,
) -> Result<Truth, NoMemory>
    ensures { IfOk result (λ truth. truth ≡ spec.equality attributes.now asked.now) }
{
    match asked {
        None => Ok(Truth::Undefined),
        Some(asked) => {
            let found = has_keyed(alloc, attributes, asked.kind, asked.key.as_slice())?;
            Ok(Truth::decided(found))
        }
    }
}

fn at_least_on(
    alloc: Global,
    attributes: &[Attribute],
    name: &Octets,
    value: &Octets,
) -> Result<Truth, NoMemory>
    ensures { IfOk result (λ truth. truth
        ≡ spec.item_truth attributes.now (matching.asked_type name.now) (λ kind.
        matching.at_least_test kind value.now)) }
{
    let Some(kind) = asked_type(name.as_slice()) else {
        return Ok(Truth::Undefined);
    };
    let test = at_least_test(alloc, kind, value.as_slice())?;
    tried_on(alloc, attributes, kind, test)
}

fn at_most_on(
    alloc: Global,
    attributes: &[Attribute],
    name: &Octets,
    value: &Octets,
) -> Result<Truth, NoMemory>
    ensures { IfOk result (λ truth. truth
        ≡ spec.item_truth attributes.now (matching.asked_type name.now) (λ kind.
        matching.at_most_test kind value.now)) }
{
    let Some(kind) = asked_type(name.as_slice()) else {
        return Ok(Truth::Undefined);
    };
    let test = at_most_test(alloc, kind, value.as_slice())?;
    tried_on(alloc, attributes, kind, test)
}

fn substrings_on(
    alloc: Global,
    attributes: &[Attribute],
    name: &Octets,
    pieces: &Pieces,
) -> Result<Truth, NoMemory>
    ensures { IfOk result (λ truth. truth
        ≡ spec.item_truth attributes.now (matching.asked_type name.now)
        (λ kind.
        matching.substrings_test kind pieces.now.initial pieces.now.middle pieces.now.last)) }
{
    let Some(kind) = asked_type(name.as_slice()) else {
        return Ok(Truth::Undefined);
    };
    let test = substrings_test(alloc, kind, pieces)?;
    tried_on(alloc, attributes, kind, test)
}

fn presence_on(attributes: &[Attribute], name: &Octets) -> Truth
    ensures { result ≡ spec.presence attributes.now (matching.asked_type name.now) }
{
    match asked_type(name.as_slice()) {
        None => Truth::Undefined,
        Some(kind) => Truth::decided(has_kind(attributes, kind)),
    }
}

/// With no test an item is Undefined.
fn tried_on(
    alloc: Global,
    attributes: &[Attribute],
    kind: AttributeType,
    test: Option<Test>,
) -> Result<Truth, NoMemory>
    ensures { IfOk result (λ truth. truth ≡ spec.tried attributes.now kind test) }
{
    match test {
        None => Ok(Truth::Undefined),
        Some(test) => Ok(Truth::decided(has_match(alloc, attributes, kind, &test)?)),
    }
}
