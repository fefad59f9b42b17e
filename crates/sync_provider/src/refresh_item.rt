//! What a refresh is kept by.

ghost use Rattle.std.specs.Prelude.{◌≡◌, ℕ, IfOk};
ghost use Rattle.ldap_messages.specs.Whole.{message_value};
ghost use Rattle.sync_wire.specs.Sending.{sent};
ghost use Rattle.sync_provider.specs.HandingOut.{ended_or_on, turn_of_message};
ghost use Rattle.sync_provider.specs.Search.{message_of};

use crate::NoMemory;
use crate::refresh_end::RefreshEnd;
use entry_tree::Entry;
use ldap_messages::Message;
use std::alloc::Global;
use sync_wire::{entry_message, id_set_message, present_end_message};

/// A message of a refresh (RFC 4533, section 3.3).
#[derive(Drop)]
pub(crate) enum RefreshItem {
    /// An entry that is sent whole.
    Whole(Entry),
    /// The identities of a syncIdSet, 256 at most, and whether they are named as deleted.
    Names(bool, Vec<u128>),
    /// The present phase ends, and a delete phase follows.
    PresentPhaseEnds,
    /// The end.
    Ends(RefreshEnd),
}

impl RefreshItem {
    /// The message of LDAP that it is sent as.
    pub(crate) fn message(&self, alloc: Global, id: u32) -> Result<Message, NoMemory>
        ensures { IfOk result
            (λ message. message_value message ≡ sent id (message_of self.now)) }
    {
        match self {
            RefreshItem::Whole(entry) => entry_message(alloc, id, true, entry, None),
            RefreshItem::Names(deletes, uuids) => id_set_message(alloc, id, *deletes, uuids),
            RefreshItem::PresentPhaseEnds => present_end_message(alloc, id),
            RefreshItem::Ends(end) => end.message(alloc, id),
        }
    }

    /// Whether it ends its search.
    #[tactic(auto, using(crate::proofs::Turns::end_closes))]
    pub(crate) fn closes(&self) -> bool
        ensures { (id : ℕ) → turn_of_message id (message_of self.now)
            ≡ ended_or_on result id (message_of self.now) }
    {
        match self {
            RefreshItem::Whole(_) | RefreshItem::Names(_, _) => false,
            RefreshItem::PresentPhaseEnds => false,
            RefreshItem::Ends(end) => end.closes(),
        }
    }
}
