//! A port of a directory: what writes, searches and follows it, whether other ports do so too.

ghost use Rattle.std.specs.Prelude.{◌≡◌, ◌≤◌, [], true, false, vec_capacity};
ghost use Rattle.std.specs.List.{list_all};
ghost use Rattle.entry_tree.specs.Fitting.{is_within_entry_limit};
ghost use Rattle.entry_tree.specs.Sound.{is_commit, is_sound_op, is_sound_put};
ghost use Rattle.sync_provider.specs.Ports.{PortState, CanMeet, IsReplied, WriteReplies, CommitReplies, SearchReplies, CompareReplies, AcceptReplies, HandOutReplies, SeveralReplies, DropReplies, WritesReplies, HasMet};

use crate::handed::Handed;
use crate::handed_messages::HandedMessages;
use crate::searches::{Accepted, SyncSearch};
use crate::searching::{PlainSearch, SearchReply};
use crate::writing::{CommitFault, Reply};
use dn_names::Dn;
use entry_tree::{EntryList, Op};
use ldap_messages::Message;
use sync_messages::IdList;

/// A port of a directory. Entries of other ports come into the directory's journal between two
/// calls. Each reply is the one that a provider of one thread gives at its place in that journal.
///
/// A port follows the searches that it opened itself; any other number names no search at it.
pub trait Port: Drop {
    /// What it is a port of. No value of it is made.
    type Home;

    // what it is a port of
    ghost home: { Self → Self.Home };

    // what it knows: its number, the directory, the journal that it has seen, its own searches
    ghost state: { Self → PortState };

    /// Applies a write of a client where the clock shows `now`, in microseconds from the first
    /// moment of 1970 on. A write that is accepted is the last entry of the journal.
    fn write(&mut self, op: Op, now: u64) -> Reply
        requires sound { is_sound_op op ≡ true }
        requires asked { is_commit op ≡ false }
        ensures home { home self.new ≡ home self.old }
        ensures replies { IsReplied (state self.old)
            (λ p. WriteReplies p op now result (state self.new)) };

    /// Adds one write that puts these entries and drops these identities, where the clock shows
    /// `now`. The answer is the number of accepted writes after it.
    fn commit(&mut self, puts: EntryList, drops: IdList, now: u64) -> Result<u64, CommitFault>
        requires sound { list_all is_sound_put puts ≡ true }
        requires light { list_all is_within_entry_limit puts ≡ true }
        ensures home { home self.new ≡ home self.old }
        ensures replies { IsReplied (state self.old)
            (λ p. CommitReplies p puts drops now result (state self.new)) };

    /// The entries that a plain search selects.
    fn search(&mut self, ask: &PlainSearch) -> SearchReply
        ensures home { home self.new ≡ home self.old }
        ensures replies { IsReplied (state self.old)
            (λ p. SearchReplies p ask.now result (state self.new)) };

    /// The code of a comparison.
    fn compare(&mut self, dn: &Dn, name: &[u8], value: &[u8]) -> u32
        ensures home { home self.new ≡ home self.old }
        ensures replies { IsReplied (state self.old)
            (λ p. CompareReplies p dn.now name.now value.now result (state self.new)) };

    /// Opens a search under the smallest free number, or answers the first code that rejects it.
    fn accept(&mut self, ask: SyncSearch) -> Accepted
        ensures home { home self.new ≡ home self.old }
        ensures replies { IsReplied (state self.old)
            (λ p. AcceptReplies p ask result (state self.new)) };

    /// The next message of the search with this number, for which as many pieces of its refresh are
    /// decided as it needs.
    fn hand_out(&mut self, search: u64) -> Handed
        ensures home { home self.new ≡ home self.old }
        ensures replies { IsReplied (state self.old)
            (λ p. HandOutReplies p search result (state self.new)) };

    /// The next messages of the search with this number, `most` at most, one after the other, with
    /// no entry of another port between them. They are put into the room, which has to be empty.
    fn hand_out_several(&mut self, search: u64, most: usize, room: Vec<Message>) -> HandedMessages
        requires empty { room.items ≡ [] }
        requires fits { most ≤ vec_capacity room }
        ensures home { home self.new ≡ home self.old }
        ensures replies { IsReplied (state self.old)
            (λ p. SeveralReplies p search most result (state self.new)) };

    /// Ends the search with this number. False where this port has none.
    fn drop_search(&mut self, search: u64) -> bool
        ensures home { home self.new ≡ home self.old }
        ensures replies { IsReplied (state self.old)
            (λ p. DropReplies p search result (state self.new)) };

    /// How many writes were accepted. Each was sound, had nothing against it on the entries before
    /// it, and has a CSN above those before it; each CSN is in range, and what a client asked for is
    /// well formed.
    fn writes(&mut self) -> u64
        ensures home { home self.new ≡ home self.old }
        ensures replies { IsReplied (state self.old)
            (λ p. WritesReplies p result (state self.new)) };

    /// Learns of the journal what another port of the same directory has seen. Entries of other
    /// ports come in, and nothing is done.
    fn meet(&mut self, other: &mut Self)
        requires home { home self.old ≡ home other.old }
        requires known { CanMeet (state self.old) (state other.old) }
        ensures home { home self.new ≡ home self.old }
        ensures met { HasMet (state self.old) (state other.old) (state self.new) }
        ensures other_home { home other.new ≡ home other.old }
        ensures other { state other.new ≡ state other.old };
}
