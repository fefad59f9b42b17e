//! The messages of later writes, to a search that goes on after its refresh (RFC 4533, section
//! 3.4).

ghost use Rattle.std.specs.Prelude.{◌≡◌, ◌<◌, ◌∷◌, [], false, Some, None, IfOk};
ghost use Rattle.csn_cookie.specs.Cookie.{cookie_text};
ghost use Rattle.directory_writes.specs.Weights as spec;
ghost use Rattle.ldap_messages.specs.Whole.{message_value};
ghost use Rattle.sync_model.specs.Incremental.{about};
ghost use Rattle.sync_wire.specs.Sending.{sent};
ghost use Rattle.sync_provider.specs.Search.{is_end};
ghost use Rattle.sync_provider.specs.Staging.{message_of_change, with_cookie, counted_weight};

use crate::NoMemory;
use crate::content_change::ContentChange;
use csn_cookie::Cookie;
use dn_names::Dn;
use ldap_messages::Message;
use persist_queues::Weighs;
use std::alloc::Global;
use std::marker::Model;
use sync_wire::{delete_message, entry_message};

/// What each message weighs beside what it carries.
const MESSAGE_WEIGHT: u64 = 64;

/// A message of a later write.
#[derive(Drop)]
pub(crate) struct PersistMessage {
    alloc: Global,
    change: ContentChange,
    /// The last message of a write has the write's cookie.
    cookie: Option<Cookie>,
}

impl Model for PersistMessage {
    ghost use Rattle.std.specs.Prelude.{option_map};
    ghost use Rattle.csn_cookie.specs.Cookie.{cookie_text};
    ghost use Rattle.sync_model.specs.Message.{SyncMessage};
    ghost use Rattle.sync_provider.specs.Search.{is_end};
    ghost use Rattle.sync_provider.specs.Staging.{message_of_change, HasCookieText};

    ghost Value = { SyncMessage };

    ghost view = { λ l. message_of_change l.change (option_map cookie_text l.cookie) };

    ghost invariant = { λ l. HasCookieText l.cookie };
}

impl Weighs for PersistMessage {
    ghost weight = { counted_weight };

    #[tactic(auto, using(crate::proofs::Saying::change_weight))]
    fn weight(&self) -> u64 {
        weight_of(&self.change)
    }
}

impl PersistMessage {
    /// The message of a change, without a cookie.
    pub(crate) fn new(alloc: Global, change: ContentChange) -> PersistMessage
        ensures { result ≡ message_of_change change None }
    {
        PersistMessage {
            alloc,
            change,
            cookie: None,
        }
    }

    #[tactic(auto, using(crate::proofs::Saying::change_marked))]
    pub(crate) fn with_cookie(self, cookie: Cookie) -> PersistMessage
        requires rid { cookie.rid < 1000 }
        requires sid { cookie.sid < 4096 }
        ensures { result ≡ with_cookie (cookie_text cookie) self }
    {
        PersistMessage {
            alloc: self.alloc,
            change: self.change,
            cookie: Some(cookie),
        }
    }

    pub(crate) fn copy(&self) -> Result<PersistMessage, NoMemory>
        ensures { IfOk result (λ copy. copy ≡ self.now) }
    {
        Ok(PersistMessage {
            alloc: self.alloc,
            change: self.change.copy()?,
            cookie: self.cookie,
        })
    }

    /// The identity that it is about.
    pub(crate) fn uuid(&self) -> u128
        ensures { about self.now ≡ result ∷ [] }
    {
        match &self.change {
            ContentChange::Added(entry) | ContentChange::Modified(entry) => entry.uuid,
            ContentChange::Deleted(uuid, _) => *uuid,
        }
    }

    /// The message of LDAP that it is sent as. The search goes on after it.
    #[tactic(auto, using(crate::proofs::Saying::change_goes))]
    pub(crate) fn message(&self, id: u32) -> Result<Message, NoMemory>
        ensures sent { IfOk result (λ message. message_value message ≡ sent id self.now) }
        ensures goes { is_end self.now ≡ false }
    {
        match &self.change {
            ContentChange::Added(entry) => entry_message(self.alloc, id, true, entry, self.cookie),
            ContentChange::Modified(entry) => entry_message(
                self.alloc,
                id,
                false,
                entry,
                self.cookie,
            ),
            ContentChange::Deleted(uuid, name) => delete_message(
                self.alloc,
                id,
                *uuid,
                name,
                self.cookie,
            ),
        }
    }
}

/// The length of the name as it is written, the weight of the attributes but for the operational
/// ones, and 64. The greatest number stands for all sums above it.
fn weight_of(change: &ContentChange) -> u64
    ensures { result ≡ counted_weight (message_of_change change.now None) }
{
    let carried = match change {
        ContentChange::Added(entry) | ContentChange::Modified(entry) => {
            name_weight(&entry.dn).saturating_add(entry.attrs.weight())
        }
        ContentChange::Deleted(_, name) => name_weight(name),
    };
    carried.saturating_add(MESSAGE_WEIGHT)
}

/// The length of the name as it is written.
fn name_weight(name: &Dn) -> u64
    ensures { result ≡ spec.name_weight name.now }
{
    name.written_len() as u64
}
