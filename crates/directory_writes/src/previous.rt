//! What was kept before the last write.

ghost use Rattle.std.specs.Prelude.{◌≡◌, List, Some, IfOk};
ghost use Rattle.entry_tree.specs.Touched.{with_changes, CanBeMade};
ghost use Rattle.entry_tree.specs.declared.entry.Entry.{Entry};
ghost use Rattle.directory_writes.specs.Standing.{IsPrevious};
ghost use Rattle.directory_writes.specs.Touches as spec;

use crate::NoMemory;
use crate::touches::{Numbers, renewed};
use entry_tree::{Touched, Tree};

/// The most changes of a write after which the entries before it are kept, with their numbers.
const MOST_CHANGES: usize = 8;

/// The entries before the last write with their numbers, and what it changed. The nodes of their
/// maps are not shared with those after it, so that they are brought up to date where they stand.
#[derive(Drop)]
pub(crate) struct Previous {
    pub(crate) tree: Tree,
    pub(crate) numbers: Numbers,
    pub(crate) changes: Touched,
    /// Whether the last write was a commit.
    pub(crate) commits: bool,
    /// The number of the last write.
    pub(crate) number: u64,
}

impl Previous {
    /// The entries after the last write, which share with these, where they are the same, what that
    /// write brought; and their numbers. Without memory both are lost.
    pub(crate) fn caught_up(self, like: &Tree) -> Result<(Tree, Numbers), NoMemory>
        requires { CanBeMade self.tree self.changes }
        ensures tree { IfOk result (λ found. found.0 ≡ with_changes self.tree self.changes) }
        ensures numbers { IfOk result (λ found. found.1
            ≡ spec.renewed self.commits self.number self.numbers self.changes) }
    {
        let Previous {
            tree,
            numbers,
            changes,
            commits,
            number,
        } = self;
        let tree = tree.changed_as(like, &changes)?;
        let numbers = renewed(numbers, commits, number, changes.list())?;
        Ok((tree, numbers))
    }

    /// What is kept of it: nothing where the changes are many.
    pub(crate) fn if_few(self) -> Option<Previous>
        ensures { (entries : List Entry) (numbers : spec.Numbers)
            → IsPrevious (Some self) entries numbers → IsPrevious result entries numbers }
    {
        if self.changes.list().len() > MOST_CHANGES {
            return None;
        }
        Some(self)
    }
}
