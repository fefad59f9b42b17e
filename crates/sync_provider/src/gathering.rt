//! How what is decided is gathered into messages (RFC 4533, section 3.3.2).

ghost use Rattle.std.specs.Prelude.{◌≡◌, ◌<◌, ◌∷◌, [], OnOk};
ghost use Rattle.csn_cookie.specs.Cookie.{cookie_text};
ghost use Rattle.sync_model.specs.Stream.WalkDecision.{Sends, Names};
ghost use Rattle.sync_model.specs.Stream.{end_of, rest_of};
ghost use Rattle.sync_provider.specs.Gathering.{Gathers, Adds, TurnsToDeletes};
ghost use Rattle.sync_provider.specs.Search.{messages_of};

use crate::NoMemory;
use crate::refresh_end::RefreshEnd;
use crate::refresh_item::RefreshItem;
use csn_cookie::Cookie;
use entry_tree::Entry;
use std::alloc::Global;
use std::marker::Model;
use std::mem;

/// The most identities of a syncIdSet.
const MOST_NAMES: usize = 256;

/// The messages so far, and the names that wait for a set to be full.
#[derive(Drop)]
pub(crate) struct Gathering {
    alloc: Global,
    /// Whether names are those of deleted entries, or else of present ones.
    deletes: bool,
    parts: Vec<RefreshItem>,
    names: Vec<u128>,
}

impl Model for Gathering {
    ghost use Rattle.sync_provider.specs.Gathering.{Gathered};
    ghost use Rattle.sync_provider.specs.Search.{messages_of};

    ghost Value = { Gathered };

    ghost view = { λ g. record {
      deletes = g.deletes;
      messages = messages_of g.parts.items;
      names = g.names.items;
    } };
}

impl Gathering {
    /// Nothing yet, but for these names.
    pub(crate) fn new(alloc: Global, deletes: bool, names: Vec<u128>) -> Gathering
        ensures { result ≡ record { deletes = deletes; messages = []; names = names.items } }
    {
        Gathering {
            alloc,
            deletes,
            parts: Vec::new(alloc),
            names,
        }
    }

    /// What it takes memory from.
    pub(crate) fn allocator(&self) -> Global {
        self.alloc
    }

    /// The entry is sent whole.
    pub(crate) fn send(&mut self, entry: Entry) -> Result<(), NoMemory>
        ensures { OnOk result (Gathers (Sends entry ∷ []) self.old self.new) }
    {
        self.parts.push(RefreshItem::Whole(entry))?;
        Ok(())
    }

    /// The identity is named. A set that is full goes at once.
    pub(crate) fn name(&mut self, uuid: u128) -> Result<(), NoMemory>
        ensures { OnOk result (Gathers (Names uuid ∷ []) self.old self.new) }
    {
        self.names.push(uuid)?;
        if self.names.len() >= MOST_NAMES {
            let full = mem::replace(&mut self.names, Vec::new(self.alloc));
            self.parts.push(RefreshItem::Names(self.deletes, full))?;
        }
        Ok(())
    }

    /// The rest of the names goes.
    pub(crate) fn send_names(&mut self) -> Result<(), NoMemory>
        ensures { OnOk result
            (Adds (rest_of self.old.deletes self.old.names) self.old self.new) }
    {
        if self.names.is_empty() {
            return Ok(());
        }
        let rest = mem::replace(&mut self.names, Vec::new(self.alloc));
        self.parts.push(RefreshItem::Names(self.deletes, rest))?;
        Ok(())
    }

    /// Names are those of deleted entries from then on. A present phase ends before that.
    pub(crate) fn turn_to_deletes(&mut self) -> Result<(), NoMemory>
        requires { self.old.names ≡ [] }
        ensures { OnOk result (TurnsToDeletes self.old self.new) }
    {
        if self.deletes {
            return Ok(());
        }
        self.parts.push(RefreshItem::PresentPhaseEnds)?;
        self.deletes = true;
        Ok(())
    }

    /// The refresh ends, in the phase that it is in, with this cookie.
    pub(crate) fn end(&mut self, persists: bool, cookie: Cookie) -> Result<(), NoMemory>
        requires rid { cookie.rid < 1000 }
        requires sid { cookie.sid < 4096 }
        requires names { self.old.names ≡ [] }
        ensures { OnOk result
            (Adds (end_of persists self.old.deletes (cookie_text cookie) ∷ [])
            self.old self.new) }
    {
        let end = RefreshEnd::new(persists, self.deletes, cookie);
        self.parts.push(RefreshItem::Ends(end))?;
        Ok(())
    }

    /// The messages, and the names that are left.
    pub(crate) fn into_parts(self) -> (Vec<RefreshItem>, Vec<u128>)
        ensures messages { messages_of result.0.items ≡ self.messages }
        ensures names { result.1.items ≡ self.names }
    {
        let Gathering { parts, names, .. } = self;
        (parts, names)
    }
}
