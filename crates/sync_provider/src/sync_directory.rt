//! A directory with the searches that are open on it.

ghost use Rattle.std.specs.Prelude.{◌≡◌, ◌≤◌, ◌-◌, ◌<◌, ◌^◌, true, length, slice_get, None, Some, IfOk, IfSome};
ghost use Rattle.csn_cookie.specs.Csn as csn_specs;
ghost use Rattle.directory_writes.specs.Directory as directory;
ghost use Rattle.directory_writes.specs.Formed.{AreFormed};
ghost use Rattle.sync_provider.specs.Answering.{HandOutLeaves, DropLeaves};
ghost use Rattle.sync_provider.specs.HandingOut as handing;
ghost use Rattle.sync_provider.specs.Machine as machine;

use crate::NoMemory;
use crate::handed::Handed;
use crate::provider::Kind;
use crate::search_table::SearchTable;
use csn_cookie::Csn;
use directory_writes::Directory;
use dn_names::Dn;
use entry_tree::{Tree, Write};
use ldap_ber::discard;
use std::alloc::Global;
use std::marker::Model;

/// How many messages of later writes a search of a new provider may have pending, or, while pieces
/// of its refresh are left, how many identities that changed.
const FIRST_QUEUE_LIMIT: u64 = 4_096;

/// A directory with the searches that are open on it, by their numbers.
pub struct SyncDirectory {
    pub(crate) alloc: Global,
    pub(crate) kind: Kind,
    pub(crate) directory: Directory,
    pub(crate) searches: SearchTable,
    /// How many messages of later writes each search may have pending, or, while pieces of its
    /// refresh are left, how many identities that changed.
    pub(crate) queue_limit: u64,
}

/// A call of its own, so that what drops a directory is one step.
impl Drop for SyncDirectory {
    fn drop(self) {
        let SyncDirectory {
            alloc: _,
            kind: _,
            directory: _directory,
            searches: _searches,
            queue_limit: _,
        } = self;
    }
}

impl Model for SyncDirectory {
    ghost use Rattle.std.specs.Coded.{codes};
    ghost use Rattle.entry_tree.specs.FilterCode.{tree_code};
    ghost use Rattle.sync_provider.specs.Machine.{ProviderState};
    ghost use Rattle.sync_provider.specs.Staging.{searches_of};

    ghost Value = { ProviderState };

    ghost coded = { Prim.hlevel (codes, tree_code) };

    ghost view = { λ p. record {
      kind = p.kind;
      directory = p.directory.state;
      searches = searches_of p.searches;
      queue_limit = p.queue_limit;
    } };
}

impl SyncDirectory {
    /// A directory without writes and searches. Its number, which its CSNs carry, is below 4096;
    /// its history is what distinguishes its cookies from those of another directory. It is
    /// `NoMemory` where memory runs out.
    pub fn new(
        alloc: Global,
        suffix: Dn,
        sid: u16,
        history: u128,
        kind: Kind,
    ) -> Result<SyncDirectory, NoMemory>
        requires { sid < 4096 }
        ensures { IfOk result (λ provider. provider ≡ machine.fresh suffix sid history kind) }
    {
        let searches = SearchTable::new(alloc)?;
        Ok(SyncDirectory {
            alloc,
            kind,
            directory: Directory::new(alloc, suffix, sid, history),
            searches,
            queue_limit: FIRST_QUEUE_LIMIT,
        })
    }

    /// Where its writes come from.
    pub fn kind(&self) -> Kind
        ensures { result ≡ self.now.kind }
    {
        self.kind
    }

    /// The next message of the search with this number (RFC 4533, sections 3.3 and 3.4). The
    /// pieces of the refresh that it needs are decided now. Where memory runs out the same message
    /// is still pending, and nothing is decided; where there is no message none is asked for.
    #[tactic(auto, using(crate::proofs::Turns::closed_after, crate::proofs::Turns::open_after, crate::proofs::Turns::found_has_message, crate::proofs::Held::turn_found, crate::proofs::Held::search_found, crate::proofs::Held::search_none))]
    pub fn hand_out(&mut self, number: u64) -> Handed
        ensures leaves { HandOutLeaves self.old number result self.new }
        ensures gone { handing.is_closing (handing.turn_of result) ≡ true
            → handing.search_at self.new.searches number ≡ None }
    {
        let Some(mut search) = self.searches.remove(number) else {
            return Handed::NoSuchSearch;
        };
        let handed = search.hand_out(&self.directory);
        if handed.is_end() {
            discard(search);
            return handed;
        }
        self.searches.put(number, search);
        handed
    }

    /// Closes the search with this number. False where none is open.
    #[tactic(auto, using(crate::proofs::Held::held_closed, crate::proofs::Held::search_some, crate::proofs::Held::search_none))]
    pub fn drop_search(&mut self, number: u64) -> bool
        ensures leaves { DropLeaves self.old number result self.new }
        ensures gone { handing.search_at self.new.searches number ≡ None }
    {
        let removed = self.searches.remove(number);
        let was_open = removed.is_some();
        discard(removed);
        was_open
    }

    /// The session log keeps n notes from now on: of each write, one for each entry that it
    /// touched. It takes no memory.
    pub fn set_log_limit(&mut self, limit: u64)
        ensures { self.new ≡ machine.log_limited self.old limit }
    {
        self.directory.set_log_limit(limit);
    }

    /// From the next write on, each search may have n messages of later writes pending, or, while
    /// pieces of its refresh are left, n identities that changed. What is there stays.
    pub fn set_queue_limit(&mut self, limit: u64)
        ensures { self.new ≡ machine.queue_limited self.old limit }
    {
        self.queue_limit = limit;
    }

    /// Lends the suffix, which names the naming context (RFC 4512, section 5.1): each entry that a
    /// client adds is named at or below it. That of a replica is empty.
    pub fn suffix(&self) -> &Dn
        ensures { result.now ≡ self.now.directory.suffix }
    {
        self.directory.suffix()
    }

    /// How many writes were accepted. Each was sound, had nothing against it on the entries before
    /// it, and has a CSN above those before it; each CSN is in range, and what a client asked for is
    /// well formed.
    pub fn writes(&self) -> u64
        ensures value { result ≡ length self.now.directory.writes }
        ensures small { result < 2 ^ 63 }
        ensures accepted { directory.AreAccepted
            self.now.directory.suffix self.now.directory.history self.now.directory.writes }
        ensures rises { directory.CsnsRise self.now.directory.sid self.now.directory.writes }
        ensures formed { AreFormed self.now.directory.writes }
    {
        self.directory.accepted().len() as u64
    }

    /// The accepted write with this number, the first of which is 1.
    pub fn write_at(&self, number: u64) -> &Write
        requires first { 1 ≤ number }
        requires last { number ≤ length self.now.directory.writes }
        ensures { slice_get self.now.directory.writes (number - 1) ≡ Some result.now }
    {
        &self.directory.accepted()[(number - 1) as usize]
    }

    /// The entries after all writes.
    pub fn tree(&self) -> &Tree
        ensures { result.now ≡ directory.entries_of self.now.directory }
    {
        self.directory.tree()
    }

    /// How many accepted writes have a CSN that is not greater than this one.
    pub fn upto(&self, csn: Csn) -> u64
        ensures { result ≡ csn_specs.upto (directory.csns self.now.directory.writes) csn }
    {
        self.directory.upto(csn)
    }

    /// Gives the number that distinguishes the cookies of this directory from those of another.
    pub fn history(&self) -> u128
        ensures { result ≡ self.now.directory.history }
    {
        self.directory.history()
    }
}
