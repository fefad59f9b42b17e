//! The words of `search`.

ghost use Rattle.std.specs.Prelude.{◌≡◌, ◌<◌, ℕ, Option, IfNone, IfSome};
ghost use Rattle.syncrepl_tool.specs.Searching.{IsAskedBy, IsCount, IsSearch, SearchAsked, has_dash, scope_text};
ghost use Rattle.syncrepl_tool.specs.SearchWords.{asked_by};

use crate::numbers::number_of;
use entry_tree::Scope;

/// The most stored cookies that a search may wait for.
const MOST_COOKIES: u64 = 1_000;

/// What the words of a search ask for.
#[derive(Clone, Copy)]
pub(crate) struct SearchWords<'a> {
    pub(crate) address: &'a str,
    pub(crate) base: &'a str,
    pub(crate) scope: Scope,
    pub(crate) filter: &'a str,
    /// After how many stored cookies it ends, where it follows what it finds.
    pub(crate) count: Option<u64>,
}

/// What the words ask for, where they are `search ADDRESS BASE SCOPE FILTER [COUNT]`.
pub(crate) fn search_words(words: &[String]) -> Option<SearchWords<'_>>
    ensures some { IfSome result (λ asked. IsSearch words.now (asked_by asked)) }
    ensures none { IfNone result ((asked : SearchAsked) → IsSearch words.now asked → ⊥) }
    ensures count { IfSome result (λ asked. IfSome asked.count (λ wanted. 0 < wanted)) }
{
    match words {
        [word, address, base, scope, filter, more @ ..] => {
            if word.as_str() != "search" {
                return None;
            }
            words_of(
                address.as_str(),
                base.as_str(),
                scope.as_str(),
                filter.as_str(),
                more,
            )
        }
        _ => None,
    }
}

/// What the words after `search` ask for.
fn words_of<'a>(
    address: &'a str,
    base: &'a str,
    scope: &str,
    filter: &'a str,
    more: &[String],
) -> Option<SearchWords<'a>>
    ensures some { IfSome result (λ asked. IsAskedBy
        address.now base.now scope.now filter.now more.now (asked_by asked)) }
    ensures none { IfNone result ((asked : SearchAsked)
        → IsAskedBy address.now base.now scope.now filter.now more.now asked → ⊥) }
    ensures count { IfSome result (λ asked. IfSome asked.count (λ wanted. 0 < wanted)) }
{
    if has_dash(address) {
        return None;
    }
    if has_dash(base) {
        return None;
    }
    if has_dash(filter) {
        return None;
    }
    let Some(scope) = scope_of(scope) else {
        return None;
    };
    let Some(count) = count_of(more) else {
        return None;
    };
    Some(SearchWords {
        address,
        base,
        scope,
        filter,
        count,
    })
}

/// Whether a word begins with `-`.
fn has_dash(word: &str) -> bool
    ensures { result ≡ has_dash word.now }
{
    word.as_bytes().starts_with(b"-")
}

/// The scope that a word names.
fn scope_of(word: &str) -> Option<Scope>
    ensures some { IfSome result (λ scope. word.now ≡ scope_text scope) }
    ensures none { IfNone result ((scope : Scope) → word.now ≡ scope_text scope → ⊥) }
{
    if word == "base" {
        return Some(Scope::Base);
    }
    if word == "one" {
        return Some(Scope::One);
    }
    if word == "sub" {
        return Some(Scope::Sub);
    }
    None
}

/// The number that is given as the last word, or none where there is no more word.
fn count_of(words: &[String]) -> Option<Option<u64>>
    ensures some { IfSome result (IsCount words.now) }
    ensures none { IfNone result ((count : Option ℕ) → IsCount words.now count → ⊥) }
    ensures count { IfSome result (λ found. IfSome found (λ wanted. 0 < wanted)) }
{
    match words {
        [] => Some(None),
        [word] => match number_of(word.as_str(), 1, MOST_COOKIES) {
            Some(number) => Some(Some(number)),
            None => None,
        },
        _ => None,
    }
}
