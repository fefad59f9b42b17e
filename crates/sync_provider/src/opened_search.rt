//! A search with content synchronisation as it was opened.

ghost use Rattle.std.specs.Prelude.{◌≡◌};
ghost use Rattle.directory_writes.specs.Starting.{start_of};
ghost use Rattle.entry_tree.specs.Selection.{search_of};

use directory_writes::Start;
use entry_tree::Spec;
use std::marker::Model;

/// A search with content synchronisation as it was opened (RFC 4533, section 3.1).
#[derive(Drop)]
pub struct OpenedSearch {
    pub(crate) number: u64,
    pub(crate) id: u32,
    pub(crate) spec: Spec,
    pub(crate) start: Start,
    pub(crate) accepted: u64,
    pub(crate) persists: bool,
}

impl Model for OpenedSearch {
    ghost use Rattle.std.specs.Coded.{codes};
    ghost use Rattle.directory_writes.specs.Starting.{start_of};
    ghost use Rattle.entry_tree.specs.FilterCode.{tree_code};
    ghost use Rattle.entry_tree.specs.Selection.{search_of};
    ghost use Rattle.sync_provider.specs.Opened.{SearchOpening};

    ghost Value = { SearchOpening };

    ghost coded = { Prim.hlevel (codes, tree_code) };

    ghost view = { λ s. record {
      number = s.number;
      id = s.id;
      spec = search_of s.spec;
      start = start_of s.start;
      accepted = s.accepted;
      persists = s.persists;
    } };
}

impl OpenedSearch {
    /// The number under which it was opened, from 1 to 64.
    pub fn number(&self) -> u64
        ensures { result ≡ self.now.number }
    {
        self.number
    }

    /// The message ID of its messages.
    pub fn id(&self) -> u32
        ensures { result ≡ self.now.id }
    {
        self.id
    }

    /// Lends its specification: base, scope and filter.
    pub fn spec(&self) -> &Spec
        ensures { search_of result.now ≡ self.now.spec }
    {
        &self.spec
    }

    /// Where it begins.
    pub fn start(&self) -> Start
        ensures { start_of result ≡ self.now.start }
    {
        self.start
    }

    /// How many writes the directory had.
    pub fn accepted(&self) -> u64
        ensures { result ≡ self.now.accepted }
    {
        self.accepted
    }

    /// Whether it goes on after its refresh (refreshAndPersist).
    pub fn persists(&self) -> bool
        ensures { result ≡ self.now.persists }
    {
        self.persists
    }
}
