//! What a replica commits to its own directory at the end of an event (RFC 4533, section 3.3).
ghost use Rattle.std.specs.Prelude.{◌≡◌, ◌∷◌, ◌++◌, [], true, map, IfOk, OnOk, OnErr};
ghost use Rattle.std.specs.List.{list_all};
ghost use Rattle.entry_tree.specs.Fitting.{is_within_entry_limit};
ghost use Rattle.entry_tree.specs.Selection.{search_of};
ghost use Rattle.entry_tree.specs.Sound.{is_sound_put};
ghost use Rattle.sync_consumer.specs.Taking.{AreFit};
ghost use Rattle.cascade_nodes.specs.Commits as spec;
ghost use Rattle.cascade_nodes.specs.Commits.{CanCommit, IsLimit, IsCauseOf, Leaves};

use crate::node::{ProviderNode, copy_wanted};
use cascade_report::{CommitOrigin, StoredStage};
use cascade_script::Cause;
use entry_tree::Spec;
use ldap_ber::NoMemory;
use sync_provider::{CommitFault, StagedCommit};

impl ProviderNode {
    /// Commits these stages of what is wanted one after another, all or none, and keeps a note of
    /// each, where the clock shows `now`, in microseconds from the first moment of 1970 on. It is
    /// `LimitReached` or `NoMemory`, and then the node is as before: nothing but a limit of its
    /// writes can reject one of them.
    #[tactic(auto, using(crate::proofs::Commits::noted, crate::proofs::Commits::all_committed, crate::proofs::Commits::none_committed, crate::proofs::Commits::only_a_limit))]
    pub fn commit_all(
        &mut self,
        wanted: &Spec,
        stages: Vec<StoredStage>,
        now: u64,
    ) -> Result<(), Cause>
        requires can { CanCommit self.old stages.items }
        ensures does { Leaves (spec.commits_all now (search_of wanted.now) self.old stages.items)
            self.new result }
        ensures err { OnErr result (self.new ≡ self.old) }
    {
        let Staged { commits, notes } = Staged::of(wanted, stages)?;
        let count = self.notes.len();
        self.notes.append(notes)?;
        match self.provider.commit_each(commits, now) {
            Ok(_) => Ok(()),
            Err(fault) => {
                self.notes.truncate(count);
                Err(cause_of(fault))
            }
        }
    }
}

/// What the fault of commits comes to in an event, where nothing but a limit rejects them.
fn cause_of(fault: CommitFault) -> Cause
    requires { IsLimit fault }
    ensures { IsCauseOf fault result }
{
    match fault {
        CommitFault::LimitReached(limit) => Cause::LimitReached(limit),
        CommitFault::NoMemory => Cause::NoMemory,
        CommitFault::DuplicateName(_, _) => unreachable!(),
        CommitFault::NotAReplica => unreachable!(),
    }
}

/// The commits of some stages, and a note of each.
#[derive(Drop)]
struct Staged {
    commits: Vec<StagedCommit>,
    notes: Vec<CommitOrigin>,
}

impl Staged {
    /// Those of a replica that wants this.
    fn of(wanted: &Spec, stages: Vec<StoredStage>) -> Result<Staged, NoMemory>
        ensures commits { IfOk result (λ staged.
            staged.commits.items ≡ map spec.commit_of stages.items) }
        ensures notes { IfOk result (λ staged.
            staged.notes.items ≡ map (spec.note_of (search_of wanted.now)) stages.items) }
        ensures sound { IfOk result (λ staged.
            list_all (λ commit. list_all is_sound_put commit.puts) staged.commits.items ≡ true) }
        ensures light { IfOk result (λ staged.
            list_all (λ commit. list_all is_within_entry_limit commit.puts) staged.commits.items
            ≡ true) }
    {
        let alloc = *stages.allocator();
        let mut staged = Staged {
            commits: Vec::new(alloc),
            notes: Vec::new(alloc),
        };
        for stage in stages {
            staged.add(wanted, stage)?;
        }
        Ok(staged)
    }

    /// One more, which is fit for a commit.
    fn add(&mut self, wanted: &Spec, stage: StoredStage) -> Result<(), NoMemory>
        ensures commits { OnOk result
            (self.new.commits.items ≡ self.old.commits.items ++ spec.commit_of stage ∷ []) }
        ensures notes { OnOk result
            (self.new.notes.items
            ≡ self.old.notes.items ++ spec.note_of (search_of wanted.now) stage ∷ []) }
        ensures fit { OnOk result (AreFit stage.puts) }
    {
        let (puts, drops, origin) = stage.parts();
        let wanted = copy_wanted(wanted)?;
        self.commits.push(StagedCommit { puts, drops })?;
        self.notes.push(CommitOrigin { wanted, origin })?;
        Ok(())
    }
}
