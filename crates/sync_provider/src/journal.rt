//! The events of the searches of a provider, which are kept beside the writes of its directory.

ghost use Rattle.std.specs.Prelude.{◌≡◌, ◌≢◌, ℕ, ◌≤◌, ◌<◌, ◌+◌, ◌-◌, ◌^◌, [], OnOk};
ghost use Rattle.sync_provider.specs.Journal as kept;
ghost use Rattle.sync_provider.specs.Journal.{handed_at};

use crate::NoMemory;
use crate::journal_note::{ClosedSearch, SearchChange, SearchEvent};
use crate::opened_search::OpenedSearch;
use std::alloc::{AllocError, Global};
use std::marker::Model;

/// The searches that were opened and that ended, in order, each with the number of writes before
/// it. With the writes of the directory this is its journal.
#[derive(Drop)]
pub(crate) struct Journal {
    events: Vec<SearchEvent>,
    /// How many messages were handed out of the search that is open under each number.
    handed: [u64; 65],
}

impl Model for Journal {
    ghost use Rattle.std.specs.Prelude.{◌≡◌, ◌-◌, length, vec_len, vec_capacity};
    ghost use Rattle.std.specs.Coded.{codes};
    ghost use Rattle.entry_tree.specs.FilterCode.{tree_code};
    ghost use Rattle.sync_provider.specs.Journal.{JournalState};

    ghost Value = { JournalState };

    ghost coded = { Prim.hlevel (codes, tree_code) };

    ghost view = { λ j. record {
      events = j.events.items;
      handed = j.handed;
      spare = vec_capacity j.events - vec_len j.events;
    } };

    ghost invariant = { λ j. length j.handed ≡ 65 };
}

impl Journal {
    pub(crate) fn new(alloc: Global) -> Journal
        ensures { result.events ≡ [] }
    {
        Journal {
            events: Vec::new(alloc),
            handed: [0; 65],
        }
    }

    /// The events, in order.
    pub(crate) fn events(&self) -> &[SearchEvent]
        ensures { result.now ≡ self.now.events }
    {
        self.events.as_slice()
    }

    /// Makes room for one more search and its end, beside the ends of n that may be open.
    pub(crate) fn reserve(&mut self, most_open: usize) -> Result<(), NoMemory>
        ensures same { kept.IsRoomier self.old self.new }
        ensures room { OnOk result (most_open + 2 ≤ self.new.spare) }
    {
        let Some(events) = most_open.checked_add(2) else {
            return Err(AllocError);
        };
        self.events.reserve(events)
    }

    /// A search is opened after n writes. Nothing was handed out of it.
    pub(crate) fn open(&mut self, writes: u64, opened: OpenedSearch)
        requires { 0 < self.old.spare }
        ensures { kept.IsOpened self.old writes opened self.new }
    {
        self.begin(opened.number());
        self.events.push_reserved(SearchEvent {
            writes,
            change: SearchChange::Opened(opened),
        });
    }

    /// No message is handed out yet under this number.
    fn begin(&mut self, number: u64)
        ensures events { self.new.events ≡ self.old.events }
        ensures own { handed_at self.new.handed number ≡ 0 }
        ensures others { (n : ℕ) → n ≢ number
            → handed_at self.new.handed n ≡ handed_at self.old.handed n }
        ensures spare { self.new.spare ≡ self.old.spare }
    {
        let place = number as usize;
        let Some(_) = self.handed.get(place) else {
            return;
        };
        self.handed[place] = 0;
    }

    /// The search with this number ended after n writes: how many messages were handed out, its end
    /// included, and, where a write was too much for it, how many before that.
    pub(crate) fn end(&mut self, writes: u64, number: u64, handed: u64, over: Option<u64>)
        requires { 0 < self.old.spare }
        ensures { kept.IsEnded self.old writes
            (record { number = number; handed = handed; over = over }) self.new }
    {
        self.events.push_reserved(SearchEvent {
            writes,
            change: SearchChange::Closed(ClosedSearch {
                number,
                handed,
                over,
            }),
        });
    }

    /// How many messages were handed out of the search with this number.
    pub(crate) fn handed(&self, number: u64) -> u64
        ensures { result ≡ handed_at self.now.handed number }
    {
        match self.handed.get(number as usize) {
            Some(count) => *count,
            None => 0,
        }
    }

    /// One message more was handed out of it.
    pub(crate) fn count(&mut self, number: u64)
        requires number { number ≤ 64 }
        requires count { handed_at self.old.handed number < 2 ^ 64 - 1 }
        ensures { kept.IsCounted self.old number self.new }
    {
        self.handed[number as usize] += 1;
    }
}
