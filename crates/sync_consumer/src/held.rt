//! What a consumer holds between its searches.

ghost use Rattle.std.specs.Prelude.{◌≡◌, [], None, Some, not, find, IfOk, IfErr, OnOk, OnErr};
ghost use Rattle.std.specs.Option.{option_or};
ghost use Rattle.sync_model.specs.Copy as model;
ghost use Rattle.sync_model.specs.Within.{against};
ghost use Rattle.sync_consumer.specs.SyncSession.{RefusesBy};
ghost use Rattle.sync_consumer.specs.Taking.{taken_commit};

use crate::commit::Commit;
use crate::entry_map::EntryMap;
use crate::fault::Refusal;
use crate::named::Named;
use crate::stage::Stage;
use ldap_ber::{NoMemory, Octets};
use std::alloc::Global;

/// The entries, and the cookie of the content that they are.
pub(crate) struct HeldContent {
    pub(crate) entries: EntryMap,
    pub(crate) cookie: Option<Octets>,
}

/// A call of its own, so that what drops a copy is one step.
impl Drop for HeldContent {
    fn drop(self) {
        let HeldContent {
            entries: _entries,
            cookie: _cookie,
        } = self;
    }
}

impl HeldContent {
    pub(crate) fn new(alloc: Global) -> HeldContent
        ensures entries { result.entries ≡ [] }
        ensures cookie { result.cookie ≡ None }
    {
        HeldContent {
            entries: EntryMap::new(alloc),
            cookie: None,
        }
    }

    pub(crate) fn copy(&self) -> Result<HeldContent, NoMemory>
        ensures { IfOk result (λ copy. copy ≡ self.now) }
    {
        Ok(HeldContent {
            entries: self.entries.copy()?,
            cookie: copy_of(&self.cookie)?,
        })
    }

    /// Brings the stage into effect, with the cookie where one came. A refusal leaves all as it
    /// was.
    pub(crate) fn commit_stage(
        &mut self,
        stage: &Stage,
        cookie: Option<Octets>,
    ) -> Result<Commit, Refusal>
        ensures commit { IfOk result (λ commit.
            commit ≡ taken_commit (model.commit_of stage.now cookie)) }
        ensures entries { OnOk result
            (self.new.entries ≡ model.effected self.old.entries stage.now) }
        ensures cookie { OnOk result (self.new.cookie ≡ option_or cookie self.old.cookie) }
        ensures within { OnOk result (against (model.effected self.old.entries stage.now) ≡ None) }
        ensures fault { IfErr result
            (RefusesBy (against (model.effected self.old.entries stage.now))) }
        ensures err { OnErr result (self.new ≡ self.old) }
    {
        let kept = copy_of(&cookie)?;
        let commit = Commit::of(self.entries.allocator(), stage, cookie)?;
        self.entries.take_effect(stage)?;
        if kept.is_some() {
            self.cookie = kept;
        }
        Ok(commit)
    }

    /// The first of the identities that is neither held nor staged with an entry.
    pub(crate) fn unknown(&self, stage: &Stage, uuids: &[u128]) -> Option<u128>
        ensures { result
            ≡ find (λ uuid. not (model.is_known self.now.entries stage.now uuid)) uuids.now }
    {
        for uuid in uuids {
            if !self.knows(stage, *uuid) {
                return Some(*uuid);
            }
        }
        None
    }

    /// Whether the identity is held, or staged with an entry.
    #[tactic(auto, using(crate::proofs::Stages::found_is))]
    fn knows(&self, stage: &Stage, uuid: u128) -> bool
        ensures { result ≡ model.is_known self.now.entries stage.now uuid }
    {
        self.entries.get(uuid).is_some() || stage.has_entry(uuid)
    }

    /// The identities that are held, and were neither named nor sent.
    pub(crate) fn unmentioned(&self, named: &Named, stage: &Stage) -> Result<Vec<u128>, NoMemory>
        ensures { IfOk result (λ uuids.
            uuids.items ≡ model.unmentioned named.now stage.now self.now.entries) }
    {
        let mut uuids = Vec::new(self.entries.allocator());
        let entries = self.entries.list()?;
        for entry in &entries {
            if !named.has(entry.uuid) && !stage.has_entry(entry.uuid) {
                uuids.push(entry.uuid)?;
            }
        }
        Ok(uuids)
    }
}

pub(crate) fn copy_of(cookie: &Option<Octets>) -> Result<Option<Octets>, NoMemory>
    ensures { IfOk result (λ copy. copy ≡ cookie.now) }
{
    match cookie {
        Some(cookie) => Ok(Some(cookie.copy()?)),
        None => Ok(None),
    }
}
