//! A search of a provider as it stood at an earlier moment.

ghost use Rattle.std.specs.Prelude.{◌≡◌, IfOk, IfSome};
ghost use Rattle.sync_provider.specs.Placing.{ComesBack, IsSearchNumber, put_back};
ghost use Rattle.sync_provider.specs.Returning.{snapshot_of, HasNoWriteSince};

use crate::NoMemory;
use crate::open_search::OpenSearch;
use crate::sync_directory::SyncDirectory;
use csn_cookie::Cookie;
use dn_names::Dn;
use std::marker::Model;

/// The search that had a number at one moment, if one had, with the suffix, the number of writes
/// and the cookie of the content at that moment.
#[derive(Drop)]
pub struct SearchSnapshot {
    suffix: Dn,
    writes: u64,
    cookie: Cookie,
    number: u64,
    search: Option<OpenSearch>,
}

impl Model for SearchSnapshot {
    ghost use Rattle.std.specs.Prelude.{IfSome};
    ghost use Rattle.std.specs.Coded.{codes};
    ghost use Rattle.entry_tree.specs.FilterCode.{tree_code};
    ghost use Rattle.sync_provider.specs.Placing.{IsSearchNumber, shown};
    ghost use Rattle.sync_provider.specs.Returning.{KeptSearch};

    ghost Value = { KeptSearch };

    ghost coded = { Prim.hlevel (codes, tree_code) };

    ghost view = { λ s. record {
      suffix = s.suffix;
      writes = s.writes;
      cookie = s.cookie;
      number = s.number;
      search = shown s.search;
    } };

    ghost invariant = { λ s. IfSome s.search (λ search. IsSearchNumber s.number) };
}

impl SyncDirectory {
    /// The search with this number as it stands now, for a later return to this moment. It is
    /// `NoMemory` where memory runs out.
    #[tactic(auto, using(crate::proofs::Held::search_back, crate::proofs::Held::search_held))]
    pub fn search_snapshot(&self, number: u64) -> Result<SearchSnapshot, NoMemory>
        ensures value { IfOk result (λ snapshot. snapshot ≡ snapshot_of self.now number) }
        ensures back { ComesBack self.now.searches number }
    {
        let search = self.searches.copy_at(number)?;
        let suffix = self.suffix().copy()?;
        Ok(SearchSnapshot {
            suffix,
            writes: self.writes(),
            cookie: self.directory.cookie(),
            number,
            search,
        })
    }

    /// Returns the search of this number to a moment with the suffix, the number of writes and the
    /// cookie of now, so one of this provider since which no write came, where no two providers
    /// have one number and one history. All else stays as it is. It takes no memory.
    #[tactic(auto, using(crate::proofs::Held::held_put_back))]
    pub fn return_to_search(&mut self, snapshot: SearchSnapshot)
        requires { HasNoWriteSince self.old.directory snapshot }
        ensures { self.new ≡ record self.old {
          searches = put_back self.old.searches snapshot.number snapshot.search;
        } }
    {
        let number = snapshot.number;
        self.searches.put_back(number, snapshot.search);
    }
}
