//! Why a commit is refused.

ghost use Rattle.std.specs.Prelude.{◌≡◌, List};
ghost use Rattle.entry_tree.specs.Fitting as fitting;
ghost use Rattle.entry_tree.specs.declared.entry.Entry.{Entry};
ghost use Rattle.directory_writes.specs.Commits.{held_refusal, Rejects};
ghost use Rattle.directory_writes.specs.declared.commit.DirectoryCommitFault.TheVariants.{NoMemory};

use entry_tree::CommitRefusal;
use std::alloc::AllocError;

/// The most entries of a directory.
const MOST_ENTRIES: u64 = 200_000;

/// The most that the entries of a directory weigh, 256 MiB.
const MOST_WEIGHT: u64 = 268_435_456;

/// Why a directory refuses a commit of a replica.
#[derive(Clone, Copy, Debug, PartialEq, Eq)]
pub enum DirectoryCommitFault {
    /// A limit would be passed: n writes are kept, so much the kept writes may weigh, so high
    /// the counts of CSNs go, n entries there may be, or so much they may weigh.
    LimitReached(u64),
    /// These two entries would have one name: the first whose name a later one has, and the first
    /// such.
    DuplicateName(u128, u128),
    NoMemory,
}

impl From<AllocError> for DirectoryCommitFault {
    ghost from_gives = { λ _ fault. fault ≡ NoMemory };

    fn from(_error: AllocError) -> DirectoryCommitFault {
        DirectoryCommitFault::NoMemory
    }
}

/// The fault reports the same of the entries.
impl From<CommitRefusal> for DirectoryCommitFault {
    ghost from_gives = { λ given fault. (entries : List Entry)
        → fitting.IsCauseOf entries given → Rejects (held_refusal entries) fault };

    #[tactic(auto, using(crate::proofs::Commits::held_opposed))]
    fn from(refusal: CommitRefusal) -> DirectoryCommitFault {
        match refusal {
            CommitRefusal::TooMany => DirectoryCommitFault::LimitReached(MOST_ENTRIES),
            CommitRefusal::TooHeavy => DirectoryCommitFault::LimitReached(MOST_WEIGHT),
            CommitRefusal::SameName(one, other) => DirectoryCommitFault::DuplicateName(one, other),
            CommitRefusal::NoMemory => DirectoryCommitFault::NoMemory,
        }
    }
}
