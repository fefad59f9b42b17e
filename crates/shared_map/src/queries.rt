//! What a map is asked by.
ghost use Rattle.std.specs.Prelude.{◌≡◌, ◌≤◌, length, drop, IfSome};
ghost use Rattle.std.specs.BTreeMap.Comparable.{le_lt_trans};
ghost use Rattle.std.specs.Ordering.{nat_cmp};
ghost use Rattle.std.specs.Cmp.Lexicographic.{slice_cmp, nat_list_cmp_total};
ghost use Rattle.std.specs.declared.cmp.Ordering.{Ordering};
ghost use Rattle.shared_map.specs.Queries.{BeginsWith, IsQuery};

use std::cmp::Ordering;

/// What stands for a key in a call: it compares to each key as that key would.
pub trait Query<K: Ord>: Copy {
    // What `compare` answers.
    ghost compare: { Self → K → Ordering };

    fn compare(&self, key: &K) -> Ordering
        ensures { result ≡ compare self.now key.now };

    ghost laws: { (query : Self) → IsQuery K.cmp (compare query) };
}

impl<K: Ord> Query<K> for &K {
    ghost compare = { λ query. K.cmp query.now };

    ghost laws = { λ query. record {
      respects = K.total.congr query.now;
      below_greater = le_lt_trans K.total query.now;
    } };

    fn compare(&self, key: &K) -> Ordering {
        (*self).cmp(key)
    }
}

impl Query<Vec<u8>> for &[u8] {
    ghost compare = { λ query key. slice_cmp nat_cmp query.now key.items };

    ghost laws = { λ query. record {
      respects = λ x y. nat_list_cmp_total.congr query.now x.items y.items;
      below_greater = λ x y. le_lt_trans nat_list_cmp_total query.now x.items y.items;
    } };

    fn compare(&self, key: &Vec<u8>) -> Ordering {
        compare_bytes(*self, key.as_slice())
    }
}

/// How one text of octets compares to another. Path keys begin alike, so eight octets of both are
/// compared at once, as numbers with the first octet the highest.
pub(crate) fn compare_bytes<'a>(left: &'a [u8], right: &'a [u8]) -> Ordering
    ensures { result ≡ slice_cmp nat_cmp left.now right.now }
{
    let mut one = left;
    let mut other = right;
    while let Some((number, other_number)) = first_numbers(one, other) {
        if number != other_number {
            return number.cmp(&other_number);
        }
        let rest = after_eight(one);
        let other_rest = after_eight(other);
        one = rest;
        other = other_rest;
    }
    one.cmp(&other)
}

/// The first eight octets of both as numbers, where both have eight.
fn first_numbers(one: &[u8], other: &[u8]) -> Option<(u64, u64)>
    ensures { IfSome result (λ numbers.
        BeginsWith one.now numbers.0 × BeginsWith other.now numbers.1) }
{
    let number = first_eight(one)?;
    let other_number = first_eight(other)?;
    Some((number, other_number))
}

/// The first eight octets as one number, where there are eight.
fn first_eight(octets: &[u8]) -> Option<u64>
    ensures { IfSome result (λ number. BeginsWith octets.now number) }
{
    match octets.first_chunk::<8>() {
        Some(eight) => Some(u64::from_be_bytes(*eight)),
        None => None,
    }
}

/// The octets after the first eight.
fn after_eight(octets: &[u8]) -> &[u8]
    requires { 8 ≤ length octets.now }
    ensures { result.now ≡ drop 8 octets.now }
{
    &octets[8..]
}
