//! The words of a script's lines.
ghost use Rattle.std.specs.Prelude.{◌≡◌, ◌≤◌, true, Some};
ghost use Rattle.std.specs.List.{list_all};
ghost use Rattle.entry_tree.specs.Selection.{search_of};
ghost use Rattle.ldap_filter.specs.FilterTree.{tree_of};
ghost use Rattle.ldif_text.specs.Field.{shown};
ghost use Rattle.ldap_ber.specs.Gives.{Gives};
ghost use Rattle.cascade_script.specs.Fault.{ScriptFails};
ghost use Rattle.cascade_script.specs.Words as spec;

use crate::ScriptFault;
use dn_names::{Dn, NameFault};
use entry_tree::{Scope, Spec};
use ldap_ber::Octets;
use ldap_filter::{Filter, FilterFault};
use ldif_text::cut_at;
use std::alloc::{AllocError, Global};

/// The two sides of the first mark. A line without one is `BadCommand`.
pub fn until_mark(bytes: &[u8], mark: u8, line: u64) -> Result<(&[u8], &[u8]), ScriptFault>
    ensures { Gives (ScriptFails line) (λ x. Some (x.0.now, x.1.now)) result
        (spec.until mark bytes.now) }
{
    match cut_at(bytes, mark) {
        (first_part, Some(back)) => Ok((first_part, back)),
        (_, None) => Err(ScriptFault::bad_command(line)),
    }
}

/// The bytes without this prefix, if they have it.
fn without_prefix<'a>(bytes: &'a [u8], prefix: &[u8]) -> Option<&'a [u8]>
    ensures { shown result ≡ spec.stripped prefix.now bytes.now }
{
    bytes.strip_prefix(prefix)
}

/// What follows the prefix. A line without it is `BadCommand`.
pub fn after_prefix<'a>(bytes: &'a [u8], prefix: &[u8], line: u64) -> Result<&'a [u8], ScriptFault>
    ensures { Gives (ScriptFails line) (λ x. Some x.now) result
        (spec.stripped prefix.now bytes.now) }
{
    without_prefix(bytes, prefix).ok_or(ScriptFault::bad_command(line))
}

/// Goes on where the test holds. Else the line is `BadCommand`.
pub fn only_if(test: bool, line: u64) -> Result<(), ScriptFault>
    ensures { Gives (ScriptFails line) (λ x. Some x) result (spec.guarded test) }
{
    if test {
        Ok(())
    } else {
        Err(ScriptFault::bad_command(line))
    }
}

/// Goes on where the line ends. Else it is `BadCommand`.
#[tactic(auto, unfolding(crate::specs::Words::at_end))]
pub fn at_end(rest: &[u8], line: u64) -> Result<(), ScriptFault>
    ensures { Gives (ScriptFails line) (λ x. Some x) result (spec.at_end rest.now) }
{
    only_if(rest.is_empty(), line)
}

fn all_letters_or_digits(bytes: &[u8]) -> bool
    ensures { result ≡ list_all spec.is_letter_or_digit bytes.now }
{
    bytes.iter().all(|b| b.is_ascii_alphanumeric())
}

/// Whether the bytes are 1 to 32 letters and digits.
pub fn spells_node_name(bytes: &[u8]) -> bool
    ensures { result ≡ spec.is_node_name bytes.now }
{
    !bytes.is_empty() && bytes.len() <= 32 && all_letters_or_digits(bytes)
}

/// The name of a node. Any other text is `BadCommand`, and out of memory it is `NoMemory`.
#[tactic(auto, unfolding(crate::specs::Words::node_name))]
pub fn node_name(alloc: Global, bytes: &[u8], line: u64) -> Result<Octets, ScriptFault>
    ensures { Gives (ScriptFails line) (λ x. Some x) result (spec.node_name bytes.now) }
{
    only_if(spells_node_name(bytes), line)?;
    Ok(Octets::from_slice(alloc, bytes)?)
}

/// The name of a node, and what stands after the space after it. Any other text is `BadCommand`,
/// and out of memory it is `NoMemory`.
#[tactic(auto, unfolding(crate::specs::Words::named))]
pub fn named(alloc: Global, text: &[u8], line: u64) -> Result<(Octets, &[u8]), ScriptFault>
    ensures { Gives (ScriptFails line) (λ x. Some (x.0, x.1.now)) result (spec.named text.now) }
{
    let (word, rest) = until_mark(text, b' ', line)?;
    Ok((node_name(alloc, word, line)?, rest))
}

fn all_digits(text: &[u8]) -> bool
    ensures { result ≡ list_all spec.is_digit text.now }
{
    text.iter().all(|b| b.is_ascii_digit())
}

/// Whether the text is a decimal number without a needless leading zero.
fn spells_number(text: &[u8]) -> bool
    ensures { result ≡ spec.is_number text.now }
{
    if text.is_empty() {
        return false;
    }
    (text.len() == 1 || text[0] != b'0') && all_digits(text)
}

/// A decimal number up to the most, without a needless leading zero. Any other text is
/// `BadCommand`.
#[tactic(auto, unfolding(crate::specs::Words::number))]
pub fn number(text: &[u8], most: u64, line: u64) -> Result<u64, ScriptFault>
    requires { most ≤ spec.greatest_number }
    ensures { Gives (ScriptFails line) (λ x. Some x) result (spec.number most text.now) }
{
    if !spells_number(text) {
        return Err(ScriptFault::bad_command(line));
    }
    value_up_to(text, most).ok_or(ScriptFault::bad_command(line))
}

/// The value of decimal digits, where it is not above the most.
fn value_up_to(digits: &[u8], most: u64) -> Option<u64>
    requires digits { list_all spec.is_digit digits.now ≡ true }
    requires most { most ≤ spec.greatest_number }
    ensures { result ≡ spec.value_up_to most digits.now }
{
    let mut value: u64 = 0;
    for digit in digits {
        value = value * 10 + u64::from(*digit - b'0');
        if value > most {
            return None;
        }
    }
    Some(value)
}

/// What stands between quotation marks, and after them. A text that lacks one is `BadCommand`.
#[tactic(auto, unfolding(crate::specs::Words::quoted))]
pub fn quoted(text: &[u8], line: u64) -> Result<(&[u8], &[u8]), ScriptFault>
    ensures { Gives (ScriptFails line) (λ x. Some (x.0.now, x.1.now)) result
        (spec.quoted text.now) }
{
    let rest = after_prefix(text, b"\"", line)?;
    until_mark(rest, b'"', line)
}

/// The name of an entry (RFC 4514, section 2). Any other text is `BadCommand`, and out of memory it
/// is `NoMemory`.
#[tactic(auto, unfolding(crate::specs::Words::name_in))]
pub fn name_in(alloc: Global, text: &[u8], line: u64) -> Result<Dn, ScriptFault>
    ensures { Gives (ScriptFails line) (λ x. Some x) result (spec.name_in text.now) }
{
    match Dn::parse(alloc, text) {
        Ok(name) => Ok(name),
        Err(NameFault::NoMemory) => Err(ScriptFault::from(AllocError)),
        Err(_) => Err(ScriptFault::bad_command(line)),
    }
}

#[tactic(auto, unfolding(crate::specs::Words::filter_in))]
fn filter_in(alloc: Global, text: &[u8], line: u64) -> Result<Filter, ScriptFault>
    ensures { Gives (ScriptFails line) (λ filter. Some (tree_of filter)) result
        (spec.filter_in text.now) }
{
    match Filter::read_text(alloc, text) {
        Ok(filter) => Ok(filter),
        Err(FilterFault::NoMemory) => Err(ScriptFault::from(AllocError)),
        Err(_) => Err(ScriptFault::bad_command(line)),
    }
}

#[tactic(auto, unfolding(crate::specs::Words::scope_in))]
fn scope_in(word: &[u8], line: u64) -> Result<Scope, ScriptFault>
    ensures { Gives (ScriptFails line) (λ x. Some x) result (spec.scope_in word.now) }
{
    if word == b"base".as_slice() {
        return Ok(Scope::Base);
    }
    if word == b"one".as_slice() {
        return Ok(Scope::One);
    }
    if word == b"sub".as_slice() {
        return Ok(Scope::Sub);
    }
    Err(ScriptFault::bad_command(line))
}

/// `SCOPE "BASE" "FILTER"`, and what stands after it: the base as a name (RFC 4514, section 2), the
/// filter as a text (RFC 4515, section 3). Any other text is `BadCommand`, and out of memory it is
/// `NoMemory`.
#[tactic(auto, unfolding(crate::specs::Words::search_in))]
pub fn search_in(alloc: Global, text: &[u8], line: u64) -> Result<(Spec, &[u8]), ScriptFault>
    ensures { Gives (ScriptFails line) (λ x. Some (search_of x.0, x.1.now)) result
        (spec.search_in text.now) }
{
    let (word, rest) = until_mark(text, b' ', line)?;
    let scope = scope_in(word, line)?;
    let (base, rest) = quoted(rest, line)?;
    let base = name_in(alloc, base, line)?;
    let rest = after_prefix(rest, b" ", line)?;
    let (filter, rest) = quoted(rest, line)?;
    let filter = filter_in(alloc, filter, line)?;
    Ok((
        Spec {
            base,
            scope,
            filter,
        },
        rest,
    ))
}
