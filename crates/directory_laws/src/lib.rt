//! What holds of a directory after any writes that it accepted: each of its entries is read again
//! as a search sends it (RFC 4511, section 4.5.2), and all of them keep within the limits. There is
//! no code here but the functions that carry the laws, and one that reports what holds of a write.
#![tactic(auto)]

ghost use Rattle.std.specs.Prelude.{◌≡◌, false};
ghost use Rattle.directory_writes.specs.Formed.{IsWellFormed};
ghost use Rattle.directory_laws.specs.Law.{EntriesCanBeSent, WritesKeepEntries, SentIsReadAgain, AcceptedWritesGrow, PrefixesWereAccepted, KeptWritesWereAccepted, StatesAreSmall, StatesAreWithin, DrawnCsnsAreInRange, ReadWritesAreSound};
ghost use Rattle.entry_tree.specs.Sound.{is_commit};

use entry_tree::Op;

/// Each entry of a directory can be sent, after any number of writes that were accepted.
pub fn entries_can_be_sent()
    ensures { EntriesCanBeSent }
{}

/// An accepted write of each kind leaves entries that can be sent, where it found such.
pub fn writes_keep_entries()
    ensures { WritesKeepEntries }
{}

/// The parts of an entry that can be sent are read again as they were written: its name, its CSN
/// and its attributes.
pub fn sent_is_read_again()
    ensures { SentIsReadAgain }
{}

/// Accepted writes and one more, which is accepted after them, are accepted writes.
pub fn accepted_writes_grow()
    ensures { AcceptedWritesGrow }
{}

/// The first of writes that were accepted one after another were accepted.
pub fn prefixes_were_accepted()
    ensures { PrefixesWereAccepted }
{}

/// The writes that a directory keeps were accepted one after another, where none is a commit.
pub fn kept_writes_were_accepted()
    ensures { KeptWritesWereAccepted }
{}

/// Each state of a directory keeps within the limits: it has at most n entries, of at most so much
/// weight, after any number of writes, and no two of one name as long as the identities that writes
/// give do not begin again.
pub fn states_are_within()
    ensures small { StatesAreSmall }
    ensures within { StatesAreWithin }
{}

/// A directory draws CSNs in range alone.
pub fn drawn_csns_are_in_range()
    ensures { DrawnCsnsAreInRange }
{}

/// What a change is read as is a write that the laws speak of.
pub fn read_writes_are_sound()
    ensures { ReadWritesAreSound }
{}

/// Reports of what a client asks for that its names are names, and what it adds is a list of
/// attributes. It does nothing.
pub fn is_well_formed(op: &Op)
    requires { is_commit op.now ≡ false }
    ensures { IsWellFormed op.now }
{
    match op {
        Op::Add(name, attrs) => {
            let _rdns = name.rdns();
            let _list = attrs.list();
        }
        Op::Delete(_) => {}
        Op::Modify(_, _) => {}
        Op::Rename(_, rdn, _, superior) => {
            let _pairs = rdn.list();
            if let Some(above) = superior {
                let _rdns = above.rdns();
            }
        }
        Op::Commit(_, _) => {}
    }
}
