//! How a provider comes to its writes: a root by those of clients (RFC 4511, sections 4.6 to 4.9),
//! a replica by commits of what it took from the provider that it follows (RFC 4533, section 3.3).

ghost use Rattle.std.specs.Prelude.{◌≡◌, ◌+◌, true, false, length, None, Ok, IfOk, IfErr, OnOk, OnErr};
ghost use Rattle.std.specs.List.{list_all};
ghost use Rattle.directory_writes.specs.Commits as commits;
ghost use Rattle.directory_writes.specs.Directory as directory;
ghost use Rattle.entry_tree.specs.Fitting.{fits, is_within_entry_limit};
ghost use Rattle.entry_tree.specs.Sound.{is_commit, is_sound_op, is_sound_put};
ghost use Rattle.sync_provider.specs.Answering.{WriteLeaves, CommitLeaves};
ghost use Rattle.sync_provider.specs.Committing.{fault_of};
ghost use Rattle.sync_provider.specs.Machine as machine;

use crate::NoMemory;
use crate::provider::Kind;
use crate::staging::{make_ready, put_in_place};
use crate::sync_directory::SyncDirectory;
use directory_writes::{DirectoryCommitFault, Preview};
use entry_tree::{EntryList, Op, OpFault};
use ldap_ber::discard;
use ldap_constants::{OTHER, SUCCESS, UNWILLING_TO_PERFORM};
use std::alloc::AllocError;
use sync_messages::IdList;

/// The answer to a write.
#[derive(Clone, Copy, Debug, PartialEq, Eq)]
pub struct Reply {
    /// success where the write was accepted, unwillingToPerform at a replica, and other where
    /// memory ran out.
    pub code: u32,
    /// How many writes are accepted after it.
    pub number: u64,
}

/// Why a commit is refused.
#[derive(Clone, Copy, Debug, PartialEq, Eq)]
pub enum CommitFault {
    /// Two entries would have one name.
    DuplicateName(u128, u128),
    /// More would be kept than this limit allows.
    LimitReached(u64),
    NoMemory,
    /// A root takes its writes from clients.
    NotAReplica,
}

impl From<DirectoryCommitFault> for CommitFault {
    ghost from_gives = { λ cause fault. fault ≡ fault_of cause };

    fn from(cause: DirectoryCommitFault) -> CommitFault {
        match cause {
            DirectoryCommitFault::DuplicateName(one, other) => {
                CommitFault::DuplicateName(one, other)
            }
            DirectoryCommitFault::LimitReached(limit) => CommitFault::LimitReached(limit),
            DirectoryCommitFault::NoMemory => CommitFault::NoMemory,
        }
    }
}

impl SyncDirectory {
    /// Applies a write of a client where the clock shows `now`, in microseconds from the first
    /// moment of 1970 on, and reports it to the searches that go on and whose content it changes
    /// (RFC 4511, sections 4.6 to 4.9). A write that is not accepted leaves all as it was. A
    /// replica accepts none.
    #[tactic(auto, using(crate::proofs::Delivery::unwritten_all))]
    pub fn write(&mut self, op: Op, now: u64) -> Reply
        requires sound { is_sound_op op ≡ true }
        requires asked { is_commit op ≡ false }
        ensures leaves { WriteLeaves self.old op now result self.new }
    {
        let code = match self.take_write(op, now) {
            Ok(code) => code,
            Err(_) => OTHER,
        };
        Reply {
            code,
            number: self.writes(),
        }
    }

    /// The code of a client's write.
    #[tactic(auto, using(directory_writes::proofs::Commits::plain_fits))]
    fn take_write(&mut self, op: Op, now: u64) -> Result<u32, NoMemory>
        requires sound { is_sound_op op ≡ true }
        requires asked { is_commit op ≡ false }
        ensures code { IfOk result (λ code. code ≡ machine.write_code self.old op now) }
        ensures state { OnOk result (self.new ≡ machine.wrote self.old op now) }
        ensures err { OnErr result (self.new ≡ self.old) }
    {
        match self.kind {
            Kind::Root => self.write_and_notify(op, now),
            Kind::Replica => {
                discard(op);
                Ok(UNWILLING_TO_PERFORM)
            }
        }
    }

    /// Adds one write that puts these entries, each in the place of one of its identity, and drops
    /// these identities, where the clock shows `now`. It is reported as a client's write is. The
    /// answer is the number of accepted writes after it. The entries keep their CSNs; the write has
    /// a CSN of this directory. A commit that is refused leaves all as it was. It is `NotAReplica`
    /// at a root, then `LimitReached` with the limit or `DuplicateName` with both identities, or
    /// `NoMemory`.
    pub fn commit(&mut self, puts: EntryList, drops: IdList, now: u64) -> Result<u64, CommitFault>
        requires sound { list_all is_sound_put puts ≡ true }
        requires light { list_all is_within_entry_limit puts ≡ true }
        ensures leaves { CommitLeaves self.old puts drops now result self.new }
    {
        match self.kind {
            Kind::Root => Err(CommitFault::NotAReplica),
            Kind::Replica => Ok(self.take_commit(puts, drops, now)?),
        }
    }

    /// The same at a replica. The commit is judged once.
    #[tactic(auto, using(crate::proofs::Delivery::judged_good))]
    fn take_commit(
        &mut self,
        puts: EntryList,
        drops: IdList,
        now: u64,
    ) -> Result<u64, DirectoryCommitFault>
        requires sound { list_all is_sound_put puts ≡ true }
        requires light { list_all is_within_entry_limit puts ≡ true }
        ensures accepted { OnOk result
            (commits.commit_refusal self.old.directory puts drops now ≡ None) }
        ensures refused { IfErr result
            (commits.Rejects (commits.commit_refusal self.old.directory puts drops now)) }
        ensures state { OnOk result (self.new ≡ machine.after_judged self.old
            (directory.judged self.old.directory (Op.Commit puts drops) now)) }
        ensures err { OnErr result (self.new ≡ self.old) }
        ensures number { IfOk result (λ number. number ≡ length self.new.directory.writes) }
        ensures one { IfOk result (λ number. number ≡ length self.old.directory.writes + 1) }
    {
        let preview = self
            .directory
            .preview_commit(puts.list(), drops.list(), now)?;
        self.put_and_notify(Op::Commit(puts, drops), preview)?;
        Ok(self.writes())
    }

    /// Applies a write of a client, and reports it. The answer is its code.
    #[tactic(auto, using(crate::proofs::Delivery::judged_good, directory_writes::proofs::Judged::code_good))]
    fn write_and_notify(&mut self, op: Op, now: u64) -> Result<u32, NoMemory>
        requires sound { is_sound_op op ≡ true }
        requires fits { fits (directory.entries_of self.old.directory) op ≡ true }
        ensures code { IfOk result (λ code. code ≡ directory.write_code self.old.directory op now) }
        ensures state { OnOk result
            (self.new
            ≡ machine.after_judged self.old (directory.judged self.old.directory op now)) }
        ensures err { OnErr result (self.new ≡ self.old) }
    {
        match self.directory.preview(&op, now) {
            Ok(preview) => {
                self.put_and_notify(op, preview)?;
                Ok(SUCCESS)
            }
            Err(fault) => {
                discard(op);
                code_of(fault)
            }
        }
    }

    /// Makes a write that was previewed, and reports it. All that takes memory is made first, and
    /// nothing after that can fail.
    fn put_and_notify(&mut self, op: Op, preview: Preview) -> Result<(), NoMemory>
        requires { directory.IsPreview self.old.directory op preview }
        ensures ok { OnOk result (self.new
            ≡ machine.after_judged self.old (Ok (record { csn = preview.csn; op = op }))) }
        ensures err { OnErr result (self.new ≡ self.old) }
    {
        let limit = self.queue_limit;
        match make_ready(&mut self.directory, &mut self.searches, &op, preview) {
            Ok(ready) => {
                put_in_place(&mut self.directory, &mut self.searches, limit, op, ready);
                Ok(())
            }
            Err(full) => {
                discard(op);
                Err(full)
            }
        }
    }
}

/// The code that a fault reports.
fn code_of(fault: OpFault) -> Result<u32, NoMemory>
    ensures { IfOk result (λ code. fault ≡ OpFault.Code code) }
{
    match fault {
        OpFault::Code(code) => Ok(code),
        OpFault::NoMemory => Err(AllocError),
    }
}
