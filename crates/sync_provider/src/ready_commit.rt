//! Commits that are made ready in turn, and put in place together (RFC 4533, section 3.3).
//!
//! What is kept beside the writes of a directory shares with what is kept after one more what did
//! not change. So each commit is judged by what those before it leave, though none of them is in
//! place, and its messages are made after theirs. Where all are ready no memory is left to take.

ghost use Rattle.std.specs.Prelude.{◌≡◌, ◌≤◌, ◌++◌, ◌∷◌, [], true, length, sum_by, IfOk, IfErr, OnOk};
ghost use Rattle.std.specs.List.{list_all};
ghost use Rattle.csn_cookie.specs.Cookie.{cookie_text};
ghost use Rattle.directory_writes.specs.Commits.{refusal_beside, IsCommitPreview, Rejects};
ghost use Rattle.directory_writes.specs.Directory.{cookie_at, IsStanding};
ghost use Rattle.directory_writes.specs.Standing.{standing_after};
ghost use Rattle.entry_tree.specs.Fitting.{is_within_entry_limit};
ghost use Rattle.entry_tree.specs.Sound.{is_sound_put};
ghost use Rattle.sync_provider.specs.Committing.{first_refusal};
ghost use Rattle.sync_provider.specs.ReadyCommits.{after_each, all_staged, note_count, AreReady, AreReadyCommits};
ghost use Rattle.sync_provider.specs.Staging.{searches_of, each_pushed, each_staged, each_unstaged};

use crate::NoMemory;
use crate::committing::StagedCommit;
use crate::search_table::SearchTable;
use crate::staging::stage_write;
use directory_writes::{Directory, DirectoryCommitFault, Ready, Standing};
use entry_tree::Op;
use std::alloc::AllocError;

/// A commit that only has to be put in place.
#[derive(Drop)]
pub(crate) struct ReadyCommit {
    pub(crate) op: Op,
    pub(crate) ready: Ready,
}

/// Makes all that takes memory for these commits, each on what the ones before it leave, where the
/// clock shows `now`. It is the first cause against one of them, or `NoMemory`.
pub(crate) fn make_each_ready(
    directory: &mut Directory,
    searches: &mut SearchTable,
    commits: Vec<StagedCommit>,
    now: u64,
) -> Result<Vec<ReadyCommit>, DirectoryCommitFault>
    requires sound { list_all (λ commit. list_all is_sound_put commit.puts) commits.items ≡ true }
    requires light { list_all (λ commit. list_all is_within_entry_limit commit.puts) commits.items
        ≡ true }
    ensures state { directory.new.state ≡ directory.old.state }
    ensures searches { searches_of searches.new ≡ searches_of searches.old }
    ensures ready { IfOk result (λ each.
        AreReadyCommits now directory.old.state each.items commits.items) }
    ensures staged { IfOk result (λ each. searches.new
        ≡ all_staged directory.old.state.sid directory.old.state.history each.items
        (each_unstaged searches.old)) }
    ensures room { IfOk result (λ each. length each.items ≤ directory.new.room) }
    ensures spare { IfOk result (λ each. sum_by note_count each.items ≤ directory.new.spare) }
    ensures refused { IfErr result
        (Rejects (first_refusal directory.old.state commits.items now)) }
{
    searches.unstage_each();
    let each = judge_each(directory, searches, commits, now)?;
    let notes = notes_of_each(each.as_slice())?;
    directory.make_room(each.len(), notes)?;
    Ok(each)
}

/// Puts commits that are ready in place, one after another, and what they report into the searches,
/// each of which may keep n messages or identities. It takes no memory, and can't fail.
pub(crate) fn put_each_in_place(
    directory: &mut Directory,
    searches: &mut SearchTable,
    limit: u64,
    each: Vec<ReadyCommit>,
)
    requires ready { AreReady directory.old.state each.items }
    requires room { length each.items ≤ directory.old.room }
    requires spare { sum_by note_count each.items ≤ directory.old.spare }
    ensures state { directory.new.state ≡ after_each directory.old.state each.items }
    ensures searches { searches_of searches.new ≡ each_pushed limit searches.old }
{
    install_each(directory, each);
    searches.push_each(limit);
}

/// Puts these commits in place of the directory alone.
fn install_each(directory: &mut Directory, each: Vec<ReadyCommit>)
    requires ready { AreReady directory.old.state each.items }
    requires room { length each.items ≤ directory.old.room }
    requires spare { sum_by note_count each.items ≤ directory.old.spare }
    ensures { directory.new.state ≡ after_each directory.old.state each.items }
{
    for commit in each {
        directory.install(commit.op, commit.ready);
    }
}

/// Judges these commits one after another, and makes what is kept after each and its messages.
fn judge_each(
    directory: &Directory,
    searches: &mut SearchTable,
    commits: Vec<StagedCommit>,
    now: u64,
) -> Result<Vec<ReadyCommit>, DirectoryCommitFault>
    requires sound { list_all (λ commit. list_all is_sound_put commit.puts) commits.items ≡ true }
    requires light { list_all (λ commit. list_all is_within_entry_limit commit.puts) commits.items
        ≡ true }
    ensures searches { searches_of searches.new ≡ searches_of searches.old }
    ensures ready { IfOk result (λ each.
        AreReadyCommits now directory.now.state each.items commits.items) }
    ensures staged { IfOk result (λ each. searches.new
        ≡ all_staged directory.now.state.sid directory.now.state.history each.items searches.old) }
    ensures refused { IfErr result
        (Rejects (first_refusal directory.now.state commits.items now)) }
{
    let mut each = Vec::new(*commits.allocator());
    for staged in commits {
        let standing = last_standing(directory, each.as_slice());
        let commit = make_commit_ready(directory, searches, standing, staged, now)?;
        push_commit(&mut each, commit)?;
    }
    Ok(each)
}

/// What is kept beside the writes after these commits.
fn last_standing<'a>(directory: &'a Directory, each: &'a [ReadyCommit]) -> &'a Standing
    requires { AreReady directory.now.state each.now }
    ensures { IsStanding (after_each directory.now.state each.now) result.now }
{
    match each.split_last() {
        Some((last, _)) => &last.ready.after,
        None => directory.standing(),
    }
}

/// Judges a commit by what is kept beside the writes before it, and makes what is kept after it and
/// its messages.
fn make_commit_ready(
    directory: &Directory,
    searches: &mut SearchTable,
    standing: &Standing,
    staged: StagedCommit,
    now: u64,
) -> Result<ReadyCommit, DirectoryCommitFault>
    ensures searches { searches_of searches.new ≡ searches_of searches.old }
    ensures planned { IfOk result (λ commit.
        IsCommitPreview standing.now staged.puts staged.drops now commit.ready.preview) }
    ensures op { IfOk result (λ commit. commit.op ≡ Op.Commit staged.puts staged.drops) }
    ensures after { IfOk result (λ commit.
        commit.ready.after ≡ standing_after standing.now commit.op commit.ready.preview) }
    ensures staged { IfOk result (λ commit. searches.new
        ≡ each_staged commit.ready.preview.touched
        (cookie_text (cookie_at directory.now.state.sid directory.now.state.history
        commit.ready.preview.csn)) searches.old) }
    ensures refused { IfErr result
        (Rejects (refusal_beside standing.now staged.puts staged.drops now)) }
{
    let puts = staged.puts.list();
    let drops = staged.drops.list();
    let preview = standing.preview_commit(puts, drops, now)?;
    stage_write(searches, directory, &preview)?;
    let op = Op::Commit(staged.puts, staged.drops);
    let ready = standing.ready(&op, preview)?;
    Ok(ReadyCommit { op, ready })
}

/// One more of them.
fn push_commit(each: &mut Vec<ReadyCommit>, commit: ReadyCommit) -> Result<(), NoMemory>
    ensures { OnOk result (each.new.items ≡ each.old.items ++ commit ∷ []) }
{
    each.push(commit)?;
    Ok(())
}

/// How many notes they get.
fn notes_of_each(each: &[ReadyCommit]) -> Result<usize, NoMemory>
    ensures { IfOk result (λ notes. notes ≡ sum_by note_count each.now) }
{
    let mut notes: usize = 0;
    for commit in each {
        notes = notes.checked_add(note_count(commit)).ok_or(AllocError)?;
    }
    Ok(notes)
}

fn note_count(commit: &ReadyCommit) -> usize
    ensures { result ≡ note_count commit.now }
{
    commit.ready.preview.touched.list().len()
}
