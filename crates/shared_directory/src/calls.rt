//! What a port asks for in one turn.

ghost use Rattle.std.specs.Prelude.{◌≡◌, ◌≤◌, [], true, false, vec_capacity};
ghost use Rattle.std.specs.List.{list_all};
ghost use Rattle.entry_tree.specs.Fitting.{is_within_entry_limit};
ghost use Rattle.entry_tree.specs.Sound.{is_commit, is_sound_op, is_sound_put};
ghost use Rattle.sync_provider.specs.Ports.{PortState, WriteReplies, CommitReplies, SearchReplies, CompareReplies, AcceptReplies, HandOutReplies, SeveralReplies, DropReplies, WritesReplies};
ghost use Rattle.shared_directory.specs.Desks.{IsAnswered};

use crate::numbered::NumberedProvider;
use dn_names::Dn;
use entry_tree::{EntryList, Op};
use ldap_messages::Message;
use sync_messages::IdList;
use sync_provider::{
    Accepted, CommitFault, Handed, HandedMessages, PlainSearch, Reply, SearchReply, SyncSearch,
};

/// A call of a port.
pub(crate) trait Call {
    type Answer;

    // what its answer says, by what the port knew before it and what it knows after it
    ghost replies: { Self → Self.Answer → PortState → PortState → Type 0 };

    /// Makes the call, for the port with this number.
    fn make(self, number: u32, provider: &mut NumberedProvider) -> Self::Answer
        ensures { IsAnswered number provider.old provider.new (replies self result) };
}

/// Applies a write of a client.
pub(crate) struct WriteCall {
    pub(crate) op: Op,
    pub(crate) now: u64,
    ghost sound: { is_sound_op op ≡ true },
    ghost asked: { is_commit op ≡ false },
}

impl Call for WriteCall {
    type Answer = Reply;

    ghost replies = { λ call answer p q. WriteReplies p call.op call.now answer q };

    fn make(self, number: u32, provider: &mut NumberedProvider) -> Reply {
        let WriteCall { op, now } = self;
        provider.write(number, op, now)
    }
}

/// Adds one write, which puts these entries and drops these identities.
pub(crate) struct CommitCall {
    pub(crate) puts: EntryList,
    pub(crate) drops: IdList,
    pub(crate) now: u64,
    ghost sound: { list_all is_sound_put puts ≡ true },
    ghost light: { list_all is_within_entry_limit puts ≡ true },
}

impl Call for CommitCall {
    type Answer = Result<u64, CommitFault>;

    ghost replies = { λ call answer p q. CommitReplies p call.puts call.drops call.now answer q };

    fn make(self, number: u32, provider: &mut NumberedProvider) -> Result<u64, CommitFault> {
        let CommitCall { puts, drops, now } = self;
        provider.commit(number, puts, drops, now)
    }
}

/// Gives the entries that a plain search selects.
pub(crate) struct SearchCall<'a> {
    pub(crate) ask: &'a PlainSearch,
}

impl Call for SearchCall<'_> {
    type Answer = SearchReply;

    ghost replies = { λ call answer p q. SearchReplies p call.ask.now answer q };

    fn make(self, number: u32, provider: &mut NumberedProvider) -> SearchReply {
        let SearchCall { ask } = self;
        provider.search(number, ask)
    }
}

/// Gives the code of a comparison.
pub(crate) struct CompareCall<'a> {
    pub(crate) dn: &'a Dn,
    pub(crate) name: &'a [u8],
    pub(crate) value: &'a [u8],
}

impl Call for CompareCall<'_> {
    type Answer = u32;

    ghost replies = { λ call answer p q.
        CompareReplies p call.dn.now call.name.now call.value.now answer q };

    fn make(self, number: u32, provider: &mut NumberedProvider) -> u32 {
        let CompareCall { dn, name, value } = self;
        provider.compare(number, dn, name, value)
    }
}

/// Opens a search with content synchronisation.
pub(crate) struct AcceptCall {
    pub(crate) ask: SyncSearch,
}

impl Call for AcceptCall {
    type Answer = Accepted;

    ghost replies = { λ call answer p q. AcceptReplies p call.ask answer q };

    fn make(self, number: u32, provider: &mut NumberedProvider) -> Accepted {
        let AcceptCall { ask } = self;
        provider.accept(number, ask)
    }
}

/// Hands out the next message of the search with this number.
pub(crate) struct HandOutCall {
    pub(crate) search: u64,
}

impl Call for HandOutCall {
    type Answer = Handed;

    ghost replies = { λ call answer p q. HandOutReplies p call.search answer q };

    fn make(self, number: u32, provider: &mut NumberedProvider) -> Handed {
        let HandOutCall { search } = self;
        provider.hand_out(number, search)
    }
}

/// Hands out the next messages of the search with this number, into the room.
pub(crate) struct HandOutSeveralCall {
    pub(crate) search: u64,
    pub(crate) most: usize,
    pub(crate) room: Vec<Message>,
    ghost empty: { room.items ≡ [] },
    ghost fits: { most ≤ vec_capacity room },
}

impl Call for HandOutSeveralCall {
    type Answer = HandedMessages;

    ghost replies = { λ call answer p q. SeveralReplies p call.search call.most answer q };

    fn make(self, number: u32, provider: &mut NumberedProvider) -> HandedMessages {
        let HandOutSeveralCall { search, most, room } = self;
        provider.hand_out_several(number, search, most, room)
    }
}

/// Ends the search with this number.
pub(crate) struct DropCall {
    pub(crate) search: u64,
}

impl Call for DropCall {
    type Answer = bool;

    ghost replies = { λ call answer p q. DropReplies p call.search answer q };

    fn make(self, number: u32, provider: &mut NumberedProvider) -> bool {
        let DropCall { search } = self;
        provider.drop_search(number, search)
    }
}

/// Looks at the directory, and does nothing.
#[derive(Drop)]
pub(crate) struct LookCall;

impl Call for LookCall {
    type Answer = ();

    ghost replies = { λ call answer p q. q ≡ p };

    fn make(self, number: u32, provider: &mut NumberedProvider) {
        provider.look(number)
    }
}

/// Counts the writes.
#[derive(Drop)]
pub(crate) struct WritesCall;

impl Call for WritesCall {
    type Answer = u64;

    ghost replies = { λ call answer p q. WritesReplies p answer q };

    fn make(self, number: u32, provider: &mut NumberedProvider) -> u64 {
        provider.writes(number)
    }
}
