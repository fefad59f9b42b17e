//! Stages that took effect.

ghost use Rattle.std.specs.Prelude.{◌≡◌, ◌++◌, IfOk, OnOk};
ghost use Rattle.sync_model.specs.Copy as model;
ghost use Rattle.sync_consumer.specs.Staging.{changes_in, put_alone, dropped_alone};
ghost use Rattle.sync_consumer.specs.Taking.{taken_commit};

use crate::stage::{Stage, StagedChange};
use entry_tree::EntryList;
use ldap_ber::{NoMemory, Octets};
use std::alloc::Global;
use sync_messages::IdList;

/// What a stage changed, and the cookie that came with it.
#[derive(Drop)]
pub struct Commit {
    /// The entries that were added or modified, in ascending order of identity.
    pub puts: EntryList,
    /// The identities that have no entry now, in ascending order.
    pub drops: IdList,
    pub cookie: Option<Octets>,
}

impl Commit {
    /// What the stage changes where it takes effect.
    pub(crate) fn of(
        alloc: Global,
        stage: &Stage,
        cookie: Option<Octets>,
    ) -> Result<Commit, NoMemory>
        ensures { IfOk result
            (λ commit. commit ≡ taken_commit (model.commit_of stage.now cookie)) }
    {
        let changes = stage.list()?;
        let (puts, drops) = parts_of(alloc, &changes)?;
        Ok(Commit {
            puts,
            drops,
            cookie,
        })
    }
}

/// Copies of the entries that are put, and the identities that have none.
fn parts_of(alloc: Global, changes: &[&StagedChange]) -> Result<(EntryList, IdList), NoMemory>
    ensures puts { IfOk result (λ parts. parts.0 ≡ model.puts_of (changes_in changes.now)) }
    ensures drops { IfOk result (λ parts. parts.1 ≡ model.drops_of (changes_in changes.now)) }
{
    let mut puts = EntryList::new(alloc);
    let mut drops = IdList::new(alloc);
    for change in changes {
        note(change, &mut puts, &mut drops)?;
    }
    Ok((puts, drops))
}

/// Puts a copy of the change at the end of its list.
fn note(change: &StagedChange, puts: &mut EntryList, drops: &mut IdList) -> Result<(), NoMemory>
    ensures puts { OnOk result (puts.new ≡ puts.old ++ put_alone change.now) }
    ensures drops { OnOk result (drops.new ≡ drops.old ++ dropped_alone change.now) }
{
    match change {
        StagedChange::AddOrModify(entry) => puts.push(entry.copy()?)?,
        StagedChange::Delete(uuid) => drops.push(*uuid)?,
    }
    Ok(())
}
