//! Commits that are staged, all or none (RFC 4533, section 3.3).

ghost use Rattle.std.specs.Prelude.{◌≡◌, ◌<◌, ◌+◌, ◌↔◌, true, length, None, IfOk, IfErr, OnOk, OnErr, IsErrOf};
ghost use Rattle.std.specs.List.{list_all};
ghost use Rattle.directory_writes.specs.Commits.{Rejects};
ghost use Rattle.entry_tree.specs.Fitting.{is_within_entry_limit};
ghost use Rattle.entry_tree.specs.Sound.{is_sound_put};
ghost use Rattle.sync_provider.specs.Answering.{CommitsLeave};
ghost use Rattle.sync_provider.specs.Committing.{first_refusal};
ghost use Rattle.sync_provider.specs.Machine as machine;
ghost use Rattle.sync_provider.specs.declared.writing.CommitFault.TheVariants as faults;

use crate::provider::Kind;
use crate::ready_commit::{make_each_ready, put_each_in_place};
use crate::sync_directory::SyncDirectory;
use crate::writing::CommitFault;
use directory_writes::DirectoryCommitFault;
use entry_tree::EntryList;
use ldap_ber::discard;
use sync_messages::IdList;

/// A commit that is staged: the entries that it puts, each in the place of one of its identity, and
/// the identities that it drops.
#[derive(Drop)]
pub struct StagedCommit {
    pub puts: EntryList,
    pub drops: IdList,
}

impl SyncDirectory {
    /// Adds one write for each of these commits, in their order, where the clock shows `now`, as
    /// `commit` does: all of them or none. Each is judged on what the ones before it left. The
    /// answer is the number of accepted writes after them, or the first cause against one of them,
    /// which leaves all as it was. A root with a commit to make is reported so, whether there is
    /// memory or not.
    #[tactic(auto, using(crate::proofs::Rooted::root_refuses, crate::proofs::Rooted::only_root, crate::proofs::Rooted::none_refused, crate::proofs::Rooted::none_committed, crate::proofs::CommittedEach::replica_unopposed, crate::proofs::CommittedEach::replica_opposed))]
    pub fn commit_each(&mut self, commits: Vec<StagedCommit>, now: u64) -> Result<u64, CommitFault>
        requires sound { list_all (λ commit. list_all is_sound_put commit.puts) commits.items
            ≡ true }
        requires light { list_all
            (λ commit. list_all is_within_entry_limit commit.puts) commits.items ≡ true }
        ensures leaves { CommitsLeave self.old commits.items now result self.new }
        ensures root { IsErrOf result faults.NotAReplica
            ↔ (self.old.kind ≡ Kind.Root) × (0 < length commits.items) }
        ensures count { IfOk result (λ number.
            number ≡ length self.old.directory.writes + length commits.items) }
    {
        match self.kind {
            Kind::Root if !commits.is_empty() => {
                discard(commits);
                Err(CommitFault::NotAReplica)
            }
            Kind::Root => {
                discard(commits);
                Ok(self.writes())
            }
            Kind::Replica => Ok(self.take_each(commits, now)?),
        }
    }

    /// The same at a replica. Each commit is judged once, all that takes memory is made first, and
    /// nothing after that can fail.
    fn take_each(
        &mut self,
        commits: Vec<StagedCommit>,
        now: u64,
    ) -> Result<u64, DirectoryCommitFault>
        requires sound { list_all (λ commit. list_all is_sound_put commit.puts) commits.items
            ≡ true }
        requires light { list_all
            (λ commit. list_all is_within_entry_limit commit.puts) commits.items ≡ true }
        requires replica { self.old.kind ≡ Kind.Replica }
        ensures accepted { OnOk result
            (first_refusal self.old.directory commits.items now ≡ None) }
        ensures refused { IfErr result
            (Rejects (first_refusal self.old.directory commits.items now)) }
        ensures state { OnOk result (self.new ≡ machine.committed_each self.old commits.items now) }
        ensures err { OnErr result (self.new ≡ self.old) }
        ensures number { IfOk result (λ number. number ≡ length self.new.directory.writes) }
        ensures count { IfOk result (λ number.
            number ≡ length self.old.directory.writes + length commits.items) }
    {
        let limit = self.queue_limit;
        let each = make_each_ready(&mut self.directory, &mut self.searches, commits, now)?;
        put_each_in_place(&mut self.directory, &mut self.searches, limit, each);
        Ok(self.writes())
    }
}
