//! What is known of the open searches of a directory, by their numbers.

ghost use Rattle.std.specs.Prelude.{◌≡◌, ◌≤◌, true, cond, length, is_some, option_map, Some, None, IfSome};
ghost use Rattle.entry_tree.specs.Selection.{search_of};
ghost use Rattle.sync_provider.specs.HandingOut.{has_message, search_at, turn_at};
ghost use Rattle.sync_provider.specs.Law.{over_of};
ghost use Rattle.sync_provider.specs.Opened.{opening_of_search};

use crate::opened_search::OpenedSearch;
use crate::sync_directory::SyncDirectory;
use entry_tree::Spec;

impl SyncDirectory {
    /// How many searches can be open at most.
    #[tactic(auto, using(crate::proofs::Held::as_many))]
    pub(crate) fn most_open(&self) -> usize
        ensures { length self.now.searches ≤ result }
    {
        self.searches.most_open()
    }

    /// Whether a message of the search with this number is pending.
    #[tactic(auto, using(crate::proofs::Held::turn_found, crate::proofs::Held::search_none))]
    pub(crate) fn has_message(&self, number: u64) -> bool
        ensures { result ≡ has_message
            (turn_at self.now.directory self.now.searches number) }
    {
        match self.searches.get(number) {
            Some(search) => search.has_message(),
            None => false,
        }
    }

    /// Whether a write was too much for the search with this number.
    #[tactic(auto, using(crate::proofs::Held::search_found, crate::proofs::Held::search_none))]
    pub(crate) fn is_over(&self, number: u64) -> bool
        ensures { result ≡ over_of (search_at self.now.searches number) }
    {
        match self.searches.get(number) {
            Some(search) => search.is_over(),
            None => false,
        }
    }

    /// Where a write was too much for the search with this number, how many messages were handed
    /// out of it.
    pub(crate) fn over_at(&self, number: u64, handed: u64) -> Option<u64>
        ensures { result
            ≡ cond (over_of (search_at self.now.searches number)) (Some handed) None }
    {
        self.is_over(number).then_some(handed)
    }

    /// How the search with this number was opened, with its specification once more.
    #[tactic(auto, using(crate::proofs::Held::search_found, crate::proofs::Held::search_none))]
    pub(crate) fn opened(&self, number: u64, spec: Spec) -> OpenedSearch
        requires is_open { is_some (search_at self.now.searches number) ≡ true }
        requires spec { IfSome (search_at self.now.searches number)
            (λ s. search_of spec ≡ s.spec) }
        ensures { Some result
            ≡ option_map (opening_of_search number) (search_at self.now.searches number) }
    {
        match self.searches.get(number) {
            Some(search) => search.opened(number, spec),
            None => unreachable!(),
        }
    }
}
