//! A provider with the numbers of the ports whose calls its journal is of.

ghost use Rattle.std.specs.Prelude.{◌≡◌, ◌<◌, ◌≤◌, ◌++◌, [], ◌∷◌, true, false, length, slice_index, vec_len, vec_capacity};
ghost use Rattle.std.specs.List.{list_all};
ghost use Rattle.entry_tree.specs.Fitting.{is_within_entry_limit};
ghost use Rattle.entry_tree.specs.Sound.{is_commit, is_sound_op, is_sound_put};
ghost use Rattle.sync_provider.specs.Ports.{WriteReplies, CommitReplies, SearchReplies, CompareReplies, AcceptReplies, HandOutReplies, SeveralReplies, DropReplies, WritesReplies};
ghost use Rattle.shared_directory.specs.Desks as desks;
ghost use Rattle.shared_directory.specs.Desks.{first_state, port_journal, IsAnswered};

use dn_names::Dn;
use entry_tree::{EntryList, Op};
use ldap_ber::discard;
use ldap_constants::OTHER;
use ldap_messages::Message;
use std::alloc::Global;
use std::marker::Model;
use sync_messages::IdList;
use sync_provider::{
    Accepted, CommitFault, HandOutStop, Handed, HandedMessages, Kind, PlainSearch, Provider, Reply,
    SearchReply, SyncSearch,
};

/// One more than the greatest number of a search.
const SEARCH_NUMBERS: usize = 65;

/// A provider that ports take turns with, and which of them added each entry of its journal.
///
/// Of an entry since the ports were made the number of its port is kept, four bytes, unless it is
/// the end of a search: that is of the port that opened the search.
pub struct NumberedProvider {
    provider: Provider,
    /// How many entries the journal had when the ports were made.
    first: u64,
    numbers: Vec<u32>,
    /// The port that opened the last search under each number, or 0.
    openers: [u32; SEARCH_NUMBERS],
}

/// A call of its own, so that what drops it is one step.
impl Drop for NumberedProvider {
    fn drop(self) {
        let NumberedProvider {
            provider: _provider,
            first: _,
            numbers: _numbers,
            openers: _,
        } = self;
    }
}

impl Model for NumberedProvider {
    ghost use Rattle.std.specs.Coded.{codes};
    ghost use Rattle.entry_tree.specs.FilterCode.{tree_code};
    ghost use Rattle.shared_directory.specs.Desks.{NumberedState, IsNumbered};

    ghost Value = { NumberedState };

    ghost coded = { Prim.hlevel (codes, tree_code) };

    ghost view = { λ d. record {
      provider = d.provider;
      first = d.first;
      numbers = d.numbers.items;
      openers = d.openers;
    } };

    ghost invariant = { λ d. IsNumbered (record {
      provider = d.provider;
      first = d.first;
      numbers = d.numbers.items;
      openers = d.openers;
    }) };
}

impl NumberedProvider {
    /// No port has called yet.
    pub(crate) fn new(alloc: Global, provider: Provider) -> NumberedProvider
        ensures { result ≡ first_state provider }
    {
        NumberedProvider {
            first: provider.journal_len(),
            numbers: Vec::new(alloc),
            openers: [0; SEARCH_NUMBERS],
            provider,
        }
    }

    pub(crate) fn into_provider(self) -> Provider
        ensures { result ≡ self.provider }
    {
        let NumberedProvider {
            provider,
            first: _,
            numbers: _numbers,
            openers: _,
        } = self;
        provider
    }

    /// How many entries the journal has.
    pub(crate) fn journal_len(&self) -> u64
        ensures { result ≡ length (port_journal self.now) }
    {
        self.provider.journal_len()
    }

    /// Applies a write of a client, for this port.
    pub(crate) fn write(&mut self, number: u32, op: Op, now: u64) -> Reply
        requires sound { is_sound_op op ≡ true }
        requires asked { is_commit op ≡ false }
        ensures { IsAnswered number self.old self.new (λ p q. WriteReplies p op now result q) }
    {
        let before = self.provider.writes();
        let Ok(()) = self.numbers.reserve(1) else {
            discard(op);
            return Reply {
                code: OTHER,
                number: before,
            };
        };
        let reply = self.provider.write(op, now);
        keep(&mut self.numbers, number, before, self.provider.writes());
        reply
    }

    /// Adds one write that puts these entries and drops these identities, for this port.
    pub(crate) fn commit(
        &mut self,
        number: u32,
        puts: EntryList,
        drops: IdList,
        now: u64,
    ) -> Result<u64, CommitFault>
        requires sound { list_all is_sound_put puts ≡ true }
        requires light { list_all is_within_entry_limit puts ≡ true }
        ensures { IsAnswered number self.old self.new
            (λ p q. CommitReplies p puts drops now result q) }
    {
        let before = self.provider.writes();
        let Ok(()) = self.numbers.reserve(1) else {
            discard(puts);
            discard(drops);
            return Err(unmade_fault(self.provider.kind()));
        };
        let result = self.provider.commit(puts, drops, now);
        keep(&mut self.numbers, number, before, self.provider.writes());
        result
    }

    /// The entries that a plain search selects.
    pub(crate) fn search(&self, number: u32, ask: &PlainSearch) -> SearchReply
        ensures { IsAnswered number self.now self.now (λ p q. SearchReplies p ask.now result q) }
    {
        self.provider.search(ask)
    }

    /// The code of a comparison.
    pub(crate) fn compare(&self, number: u32, dn: &Dn, name: &[u8], value: &[u8]) -> u32
        ensures { IsAnswered number self.now self.now
            (λ p q. CompareReplies p dn.now name.now value.now result q) }
    {
        self.provider.compare(dn, name, value)
    }

    /// Opens a search with content synchronisation, which this port follows.
    pub(crate) fn accept(&mut self, number: u32, ask: SyncSearch) -> Accepted
        ensures { IsAnswered number self.old self.new (λ p q. AcceptReplies p ask result q) }
    {
        let Ok(()) = self.numbers.reserve(1) else {
            discard(ask);
            return Accepted::NoMemory;
        };
        match self.provider.accept(ask) {
            Accepted::Opened(search, writes) => {
                self.numbers.push_reserved(number);
                self.openers[search as usize] = number;
                Accepted::Opened(search, writes)
            }
            Accepted::Refused(code) => Accepted::Refused(code),
            Accepted::NoMemory => Accepted::NoMemory,
        }
    }

    /// The next message of a search, where this port opened it.
    pub(crate) fn hand_out(&mut self, number: u32, search: u64) -> Handed
        ensures { IsAnswered number self.old self.new
            (λ p q. HandOutReplies p search result q) }
    {
        if self.opener(search) != number {
            return Handed::NoSuchSearch;
        }
        self.provider.hand_out(search)
    }

    /// The next messages of a search, `most` at most, where this port opened it. They are put into
    /// the room, which has to be empty.
    pub(crate) fn hand_out_several(
        &mut self,
        number: u32,
        search: u64,
        most: usize,
        room: Vec<Message>,
    ) -> HandedMessages
        requires empty { room.items ≡ [] }
        requires fits { most ≤ vec_capacity room }
        ensures { IsAnswered number self.old self.new
            (λ p q. SeveralReplies p search most result q) }
    {
        let mut messages = room;
        for _ in 0..most {
            match self.hand_out(number, search).into_message() {
                Ok(message) => messages.push_reserved(message),
                Err(stop) => return HandedMessages { messages, stop },
            }
        }
        HandedMessages {
            messages,
            stop: HandOutStop::Enough,
        }
    }

    /// Ends a search, where this port opened it.
    pub(crate) fn drop_search(&mut self, number: u32, search: u64) -> bool
        ensures { IsAnswered number self.old self.new (λ p q. DropReplies p search result q) }
    {
        if self.opener(search) != number {
            return false;
        }
        self.provider.drop_search(search)
    }

    /// Does nothing.
    pub(crate) fn look(&self, number: u32)
        ensures { IsAnswered number self.now self.now (λ p q. q ≡ p) }
    {}

    /// How many writes were accepted.
    pub(crate) fn writes(&self, number: u32) -> u64
        ensures { IsAnswered number self.now self.now (λ p q. WritesReplies p result q) }
    {
        self.provider.writes()
    }

    /// The port that opened the last search under this number, or 0.
    fn opener(&self, search: u64) -> u32
        ensures { result ≡ slice_index self.now.openers search }
    {
        match self.openers.get(search as usize) {
            Some(number) => *number,
            None => 0,
        }
    }
}

/// Keeps the number of the port where there is a write more than before.
fn keep(numbers: &mut Vec<u32>, number: u32, before: u64, writes: u64)
    requires { vec_len numbers.old < vec_capacity numbers.old }
    ensures same { writes ≤ before → numbers.new.items ≡ numbers.old.items }
    ensures more { before < writes → numbers.new.items ≡ numbers.old.items ++ number ∷ [] }
{
    if before < writes {
        numbers.push_reserved(number);
    }
}

/// Why a commit is not made where memory runs out: a root makes none in any case.
fn unmade_fault(kind: Kind) -> CommitFault
    ensures { result ≡ desks.unmade_fault kind }
{
    match kind {
        Kind::Root => CommitFault::NotAReplica,
        Kind::Replica => CommitFault::NoMemory,
    }
}
