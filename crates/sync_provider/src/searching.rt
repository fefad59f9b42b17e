//! Plain searches of a provider (RFC 4511, section 4.5).

ghost use Rattle.std.specs.Prelude.{◌≡◌, ◌≢◌, ◌≤◌, length, take, IfOk};
ghost use Rattle.directory_writes.specs.Directory as directory;
ghost use Rattle.sync_provider.specs.Searching as searching;

use crate::NoMemory;
use crate::sync_directory::SyncDirectory;
use entry_tree::{Entry, EntryList, Spec};
use std::alloc::Global;

/// A search without a Sync Request control that is asked for.
#[derive(Drop)]
pub struct PlainSearch {
    pub spec: Spec,
    /// How many entries are given at most (RFC 4511, section 4.5.1.4). 0 is no limit.
    pub size_limit: u32,
}

/// The answer to a plain search.
#[derive(Drop)]
pub enum SearchReply {
    /// The entries that are selected, in ascending order of identity.
    Found(EntryList),
    /// More entries are selected than may be given: the first ones, as many as the limit says
    /// (sizeLimitExceeded).
    Over(EntryList),
    /// No entry has the base's name (noSuchObject).
    NoSuchBase,
    NoMemory,
}

impl SyncDirectory {
    /// The entries that the specification selects after all writes, in ascending order of identity
    /// (RFC 4511, section 4.5). They share their names and attributes with those of the directory.
    #[tactic(auto, using(crate::proofs::PlainSearches::no_base, crate::proofs::PlainSearches::with_base))]
    pub fn search(&self, ask: &PlainSearch) -> SearchReply
        ensures { result ≢ SearchReply.NoMemory
            → result ≡ searching.reply_to (directory.entries_of self.now.directory) ask.now }
    {
        let tree = self.directory.tree();
        let Some(_) = tree.find(&ask.spec.base) else {
            return SearchReply::NoSuchBase;
        };
        match tree.select(&ask.spec) {
            Ok(found) => limited(self.alloc, found, ask.size_limit),
            Err(_) => SearchReply::NoMemory,
        }
    }
}

/// All of these entries, or as many of them as the limit allows.
#[tactic(auto, using(crate::proofs::PlainSearches::within_limit, crate::proofs::PlainSearches::over_limit, crate::proofs::PlainSearches::over_low))]
fn limited(alloc: Global, found: EntryList, limit: u32) -> SearchReply
    ensures { result ≢ SearchReply.NoMemory → result ≡ searching.limited limit found }
{
    if !is_over(limit, found.list()) {
        return SearchReply::Found(found);
    }
    match first_entries(alloc, found.list(), limit as usize) {
        Ok(first) => SearchReply::Over(first),
        Err(_) => SearchReply::NoMemory,
    }
}

/// Whether these are more than the limit allows.
fn is_over(limit: u32, found: &[Entry]) -> bool
    ensures { result ≡ searching.is_over limit found.now }
{
    0 < limit && (limit as usize) < found.len()
}

/// The first n of these entries.
fn first_entries(alloc: Global, entries: &[Entry], count: usize) -> Result<EntryList, NoMemory>
    requires { count ≤ length entries.now }
    ensures { IfOk result (λ first. first ≡ take count entries.now) }
{
    let mut first = EntryList::new(alloc);
    let (front, _) = entries.split_at(count);
    for entry in front {
        first.push(entry.copy()?)?;
    }
    Ok(first)
}
