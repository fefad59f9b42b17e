//! A provider: a directory with content synchronisation, and its journal.

ghost use Rattle.std.specs.Prelude.{◌≡◌, ◌≢◌, ◌≤◌, ◌-◌, ◌<◌, ◌^◌, ◌&&◌, nat_le, nat_lt, true, false, length, slice_get, None, Some, IfOk};
ghost use Rattle.std.specs.List.{list_all};
ghost use Rattle.csn_cookie.specs.Csn as csn_specs;
ghost use Rattle.directory_writes.specs.Directory as directory;
ghost use Rattle.directory_writes.specs.Formed.{AreFormed};
ghost use Rattle.entry_tree.specs.Fitting.{is_within_entry_limit};
ghost use Rattle.entry_tree.specs.Selection.{search_of};
ghost use Rattle.entry_tree.specs.Sound.{is_commit, is_sound_op, is_sound_put};
ghost use Rattle.ldap_constants.specs.declared.result_codes.TheConstants as codes;
ghost use Rattle.sync_provider.specs.Answering.{WriteLeaves, CommitLeaves, AcceptLeaves, HandOutLeaves, DropLeaves};
ghost use Rattle.sync_provider.specs.Comparing.{compare_code};
ghost use Rattle.sync_provider.specs.HandingOut as handing;
ghost use Rattle.sync_provider.specs.Journal.{port_state, fresh_port, journal_of, IsJournalled};
ghost use Rattle.sync_provider.specs.Machine as machine;
ghost use Rattle.sync_provider.specs.Ports.{HasItsWrites, WriteReplies, CommitReplies, AcceptReplies, HandOutReplies, DropReplies};
ghost use Rattle.sync_provider.specs.Searching.{reply_to};

use crate::NoMemory;
use crate::handed::Handed;
use crate::journal::Journal;
use crate::journal_note::SearchEvent;
use crate::search_table::MOST_SEARCHES;
use crate::searches::{Accepted, SyncSearch};
use crate::searching::{PlainSearch, SearchReply};
use crate::sync_directory::SyncDirectory;
use crate::writing::{CommitFault, Reply};
use csn_cookie::Csn;
use dn_names::Dn;
use entry_tree::{EntryList, Op, Spec, Tree, Write};
use ldap_ber::discard;
use std::alloc::Global;
use std::marker::Model;
use sync_messages::IdList;

/// Where the writes of a directory come from.
#[derive(Clone, Copy, Debug, PartialEq, Eq)]
pub enum Kind {
    /// From clients.
    Root,
    /// From the provider that it follows, whose content it takes by commits.
    Replica,
}

/// A directory with the searches that are open on it, and its journal: the writes that were
/// accepted, the searches that were opened, and their ends, in order.
pub struct Provider {
    directory: SyncDirectory,
    journal: Journal,
}

/// A call of its own, so that what drops a provider is one step.
impl Drop for Provider {
    fn drop(self) {
        let Provider {
            directory: _directory,
            journal: _journal,
        } = self;
    }
}

impl Model for Provider {
    ghost use Rattle.std.specs.Coded.{codes};
    ghost use Rattle.entry_tree.specs.FilterCode.{tree_code};
    ghost use Rattle.sync_provider.specs.Journal.{JournalledProvider, with_journal, HasJournal};

    ghost Value = { JournalledProvider };

    ghost coded = { Prim.hlevel (codes, tree_code) };

    ghost view = { λ p. with_journal p.directory p.journal };

    ghost invariant = { λ p. HasJournal p.directory p.journal };
}

impl Provider {
    /// A provider without writes and searches. Its number, which its CSNs carry, is below 4096; its
    /// history is what distinguishes its cookies from those of another one. It is `NoMemory` where
    /// memory runs out.
    pub fn new(
        alloc: Global,
        suffix: Dn,
        sid: u16,
        history: u128,
        kind: Kind,
    ) -> Result<Provider, NoMemory>
        requires { sid < 4096 }
        ensures state { IfOk result (λ provider.
            provider.state ≡ machine.fresh suffix sid history kind) }
        ensures journal { IfOk result (λ provider.
            port_state provider ≡ fresh_port suffix sid history kind) }
    {
        let directory = SyncDirectory::new(alloc, suffix, sid, history, kind)?;
        Ok(Provider {
            directory,
            journal: Journal::new(alloc),
        })
    }

    /// Applies a write of a client where the clock shows `now`, in microseconds from the first
    /// moment of 1970 on, and reports it to the searches that go on and whose content it changes
    /// (RFC 4511, sections 4.6 to 4.9). A write that is not accepted leaves all as it was. A
    /// replica accepts none.
    pub fn write(&mut self, op: Op, now: u64) -> Reply
        requires sound { is_sound_op op ≡ true }
        requires asked { is_commit op ≡ false }
        ensures leaves { WriteLeaves self.old.state op now result self.new.state }
        ensures journal { WriteReplies (port_state self.old) op now result (port_state self.new) }
    {
        self.directory.write(op, now)
    }

    /// Adds one write that puts these entries, each in the place of one of its identity, and drops
    /// these identities, where the clock shows `now`. It is reported as a client's write is. The
    /// answer is the number of accepted writes after it. The entries keep their CSNs; the write has
    /// a CSN of this directory. A commit that is refused leaves all as it was. It is `NotAReplica`
    /// at a root, then `LimitReached` with the limit or `DuplicateName` with both identities, or
    /// `NoMemory`.
    pub fn commit(&mut self, puts: EntryList, drops: IdList, now: u64) -> Result<u64, CommitFault>
        requires sound { list_all is_sound_put puts ≡ true }
        requires light { list_all is_within_entry_limit puts ≡ true }
        ensures leaves { CommitLeaves self.old.state puts drops now result self.new.state }
        ensures journal { CommitReplies
            (port_state self.old) puts drops now result (port_state self.new) }
    {
        self.directory.commit(puts, drops, now)
    }

    /// The entries that the specification selects after all writes, in ascending order of identity
    /// (RFC 4511, section 4.5). They share their names and attributes with those of the directory.
    pub fn search(&self, ask: &PlainSearch) -> SearchReply
        ensures { result ≢ SearchReply.NoMemory
            → result ≡ reply_to (directory.entries_of self.now.state.directory) ask.now }
    {
        self.directory.search(ask)
    }

    /// Whether the entry of that name has the value (RFC 4511, section 4.10): compareTrue where a
    /// value of that type matches, compareFalse where none does, or the first code that rejects the
    /// question; other where memory runs out.
    pub fn compare(&self, dn: &Dn, name: &[u8], value: &[u8]) -> u32
        ensures { result ≢ codes.OTHER
            → result ≡ compare_code (directory.entries_of self.now.state.directory)
            dn.now name.now value.now }
    {
        self.directory.compare(dn, name, value)
    }

    /// Opens a search under the smallest free number, or reports the first of the codes against it:
    /// protocolError for a control's value outside its grammar, noSuchObject for a base outside the
    /// suffix, adminLimitExceeded where the 64 numbers are all in use, and e-syncRefreshRequired
    /// for a cookie that is neither blank nor servable, from a client that does not ask to reload
    /// then. The first piece of its refresh is decided, and there is room in the journal for the
    /// end of the search from then on.
    pub fn accept(&mut self, ask: SyncSearch) -> Accepted
        ensures leaves { AcceptLeaves self.old.state ask result self.new.state }
        ensures journal { AcceptReplies (port_state self.old) ask result (port_state self.new) }
    {
        let Ok(spec) = copy_of(&ask.spec) else {
            discard(ask);
            return Accepted::NoMemory;
        };
        let Ok(()) = self.journal.reserve(self.directory.most_open()) else {
            discard(ask);
            discard(spec);
            return Accepted::NoMemory;
        };
        match self.directory.accept(ask) {
            Accepted::Opened(number, writes) => {
                let opened = self.directory.opened(number, spec);
                self.journal.open(writes, opened);
                Accepted::Opened(number, writes)
            }
            Accepted::Refused(code) => {
                discard(spec);
                Accepted::Refused(code)
            }
            Accepted::NoMemory => {
                discard(spec);
                Accepted::NoMemory
            }
        }
    }

    /// The next message of the search with this number (RFC 4533, sections 3.3 and 3.4). The
    /// pieces of the refresh that it needs are decided now. Where memory runs out the same message
    /// is still pending, and nothing is decided; where there is no message none is asked for.
    pub fn hand_out(&mut self, number: u64) -> Handed
        ensures leaves { HandOutLeaves self.old.state number result self.new.state }
        ensures journal { HandOutReplies (port_state self.old) number result (port_state self.new) }
        ensures gone { handing.is_closing (handing.turn_of result) ≡ true
            → handing.search_at self.new.state.searches number ≡ None }
    {
        let handed = self.journal.handed(number);
        if self.directory.has_message(number) && !can_count(number, handed) {
            return Handed::NoMemory;
        }
        let over = self.directory.over_at(number, handed);
        match self.directory.hand_out(number) {
            Handed::Message(message) => {
                self.journal.count(number);
                Handed::Message(message)
            }
            Handed::Ended(code, message) => {
                let writes = self.directory.writes();
                self.journal.end(writes, number, handed + 1, over);
                Handed::Ended(code, message)
            }
            Handed::Nothing => Handed::Nothing,
            Handed::NoSuchSearch => Handed::NoSuchSearch,
            Handed::NoMemory => Handed::NoMemory,
        }
    }

    /// Closes the search with this number. False where none is open.
    pub fn drop_search(&mut self, number: u64) -> bool
        ensures leaves { DropLeaves self.old.state number result self.new.state }
        ensures journal { DropReplies (port_state self.old) number result (port_state self.new) }
        ensures gone { handing.search_at self.new.state.searches number ≡ None }
    {
        let handed = self.journal.handed(number);
        let over = self.directory.over_at(number, handed);
        if !self.directory.drop_search(number) {
            return false;
        }
        let writes = self.directory.writes();
        self.journal.end(writes, number, handed, over);
        true
    }

    /// The session log keeps n notes from now on: of each write, one for each entry that it
    /// touched. It takes no memory.
    pub fn set_log_limit(&mut self, limit: u64)
        ensures { self.new
            ≡ record self.old { state = machine.log_limited self.old.state limit } }
    {
        self.directory.set_log_limit(limit);
    }

    /// From the next write on, each search may have n messages of later writes pending, or, while
    /// pieces of its refresh are left, n identities that changed. What is there stays.
    pub fn set_queue_limit(&mut self, limit: u64)
        ensures { self.new
            ≡ record self.old { state = machine.queue_limited self.old.state limit } }
    {
        self.directory.set_queue_limit(limit);
    }

    /// How many entries its journal has. The writes among them are those of its directory.
    pub fn journal_len(&self) -> u64
        ensures value { result
            ≡ length (journal_of self.now.state.directory.writes self.now.events) }
        ensures journalled { IsJournalled self.now }
        ensures writes { HasItsWrites (port_state self.now) }
    {
        self.directory.writes() + self.journal.events().len() as u64
    }

    /// The searches that were opened and that ended, in order, with the number of writes before
    /// each. With the writes they are its journal.
    pub fn search_events(&self) -> &[SearchEvent]
        ensures { result.now ≡ self.now.events }
    {
        self.journal.events()
    }

    /// Where its writes come from.
    pub fn kind(&self) -> Kind
        ensures { result ≡ self.now.state.kind }
    {
        self.directory.kind()
    }

    /// Lends the suffix, which names the naming context (RFC 4512, section 5.1): each entry that a
    /// client adds is named at or below it. That of a replica is empty.
    pub fn suffix(&self) -> &Dn
        ensures { result.now ≡ self.now.state.directory.suffix }
    {
        self.directory.suffix()
    }

    /// How many writes were accepted. Each was sound, had nothing against it on the entries before
    /// it, and has a CSN above those before it; each CSN is in range, and what a client asked for is
    /// well formed.
    pub fn writes(&self) -> u64
        ensures value { result ≡ length self.now.state.directory.writes }
        ensures small { result < 2 ^ 63 }
        ensures accepted { directory.AreAccepted self.now.state.directory.suffix
            self.now.state.directory.history self.now.state.directory.writes }
        ensures rises { directory.CsnsRise
            self.now.state.directory.sid self.now.state.directory.writes }
        ensures formed { AreFormed self.now.state.directory.writes }
    {
        self.directory.writes()
    }

    /// The accepted write with this number, the first of which is 1.
    pub fn write_at(&self, number: u64) -> &Write
        requires first { 1 ≤ number }
        requires last { number ≤ length self.now.state.directory.writes }
        ensures { slice_get self.now.state.directory.writes (number - 1) ≡ Some result.now }
    {
        self.directory.write_at(number)
    }

    /// The entries after all writes.
    pub fn tree(&self) -> &Tree
        ensures { result.now ≡ directory.entries_of self.now.state.directory }
    {
        self.directory.tree()
    }

    /// How many accepted writes have a CSN that is not greater than this one.
    pub fn upto(&self, csn: Csn) -> u64
        ensures { result ≡ csn_specs.upto (directory.csns self.now.state.directory.writes) csn }
    {
        self.directory.upto(csn)
    }

    /// Gives the number that distinguishes the cookies of this directory from those of another.
    pub fn history(&self) -> u128
        ensures { result ≡ self.now.state.directory.history }
    {
        self.directory.history()
    }
}

/// Whether one more message can be counted under this number, after n messages.
fn can_count(number: u64, handed: u64) -> bool
    ensures { result ≡ (nat_le number 64 && nat_lt handed (2 ^ 64 - 1)) }
{
    number <= MOST_SEARCHES && handed < u64::MAX
}

/// The same specification once more.
fn copy_of(spec: &Spec) -> Result<Spec, NoMemory>
    ensures { IfOk result (λ copy. search_of copy ≡ search_of spec.now) }
{
    Ok(Spec {
        base: spec.base.copy()?,
        scope: spec.scope,
        filter: spec.filter.copy()?,
    })
}
