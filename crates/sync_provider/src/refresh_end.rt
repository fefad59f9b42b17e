//! The end of a refresh.

ghost use Rattle.std.specs.Prelude.{◌≡◌, ◌<◌, not, IfOk};
ghost use Rattle.csn_cookie.specs.Cookie.{cookie_text};
ghost use Rattle.ldap_messages.specs.Whole.{message_value};
ghost use Rattle.sync_model.specs.Stream.{end_of};
ghost use Rattle.sync_wire.specs.Sending.{sent};
ghost use Rattle.sync_provider.specs.RefreshEnds.{IsEndOf};

use crate::NoMemory;
use csn_cookie::Cookie;
use ldap_messages::Message;
use std::alloc::Global;
use std::marker::Model;
use sync_wire::end_message;

/// The end of a refresh, with the cookie of its content.
#[derive(Drop)]
pub(crate) struct RefreshEnd {
    /// Whether its search goes on.
    persists: bool,
    /// Whether it ends a delete phase, or else a present phase.
    deletes: bool,
    cookie: Cookie,
}

impl Model for RefreshEnd {
    ghost use Rattle.csn_cookie.specs.Cookie.{cookie_text};
    ghost use Rattle.sync_model.specs.Message.{SyncMessage};
    ghost use Rattle.sync_model.specs.Stream.{end_of};
    ghost use Rattle.sync_provider.specs.RefreshEnds.{HasText};

    ghost Value = { SyncMessage };

    ghost view = { λ e. end_of e.persists e.deletes (cookie_text e.cookie) };

    ghost invariant = { λ e. HasText e.cookie };
}

impl RefreshEnd {
    pub(crate) fn new(persists: bool, deletes: bool, cookie: Cookie) -> RefreshEnd
        requires rid { cookie.rid < 1000 }
        requires sid { cookie.sid < 4096 }
        ensures { result ≡ end_of persists deletes (cookie_text cookie) }
    {
        RefreshEnd {
            persists,
            deletes,
            cookie,
        }
    }

    /// The message of LDAP that it is sent as.
    pub(crate) fn message(&self, alloc: Global, id: u32) -> Result<Message, NoMemory>
        ensures { IfOk result (λ message. message_value message ≡ sent id self.now) }
    {
        end_message(alloc, id, self.persists, self.deletes, &self.cookie)
    }

    /// Whether it ends its search.
    pub(crate) fn closes(&self) -> bool
        ensures { IsEndOf (not result) self.now }
    {
        !self.persists
    }
}
