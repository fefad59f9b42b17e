//! A search that runs.

ghost use Rattle.std.specs.Prelude.{◌≡◌, [], true, false, None, Some, IfOk};
ghost use Rattle.sync_model.specs.Copy as model;
ghost use Rattle.sync_model.specs.Message.SyncMessage.{AddOrModify, IdSet};
ghost use Rattle.sync_wire.specs.Requesting.{persists};
ghost use Rattle.sync_consumer.specs.SyncSession.{session_of, copy_with, within, message_of, taken_by_search, StepsTo, StepsOn};

use crate::consumer::Taken;
use crate::fault::{PeerFault, Refusal};
use crate::held::HeldContent;
use crate::named::Named;
use crate::stage::Stage;
use entry_tree::Entry;
use ldap_ber::{NoMemory, Octets};
use ldap_messages::Message;
use std::alloc::Global;
use sync_messages::Mode;
use sync_wire::{SyncEvent, decode_beside};

/// A search that runs: at first its refresh, and where it persists what comes after that.
pub(crate) struct SyncSession {
    /// The ID of its messages.
    pub(crate) id: u32,
    pub(crate) mode: Mode,
    /// Whether the refresh is over.
    pub(crate) persisting: bool,
    /// Whether the present phase of the refresh is over.
    pub(crate) ended: bool,
    /// What was named as present.
    pub(crate) named: Named,
    pub(crate) stage: Stage,
}

/// A call of its own, so that what drops a search is one step.
impl Drop for SyncSession {
    fn drop(self) {
        let SyncSession {
            id: _,
            mode: _,
            persisting: _,
            ended: _,
            named: _named,
            stage: _stage,
        } = self;
    }
}

/// What a message leads to.
#[derive(Drop)]
pub(crate) enum SearchStep {
    /// The search goes on.
    Goes(Taken),
    /// The search is at its end.
    Ends(Taken),
}

impl SyncSession {
    pub(crate) fn new(alloc: Global, id: u32, mode: Mode) -> SyncSession
        ensures { Some (session_of result)
            ≡ (model.asked id (persists mode)
            (record { held = []; cookie = None; session = None })).session }
    {
        SyncSession {
            id,
            mode,
            persisting: false,
            ended: false,
            named: Named::new(alloc),
            stage: Stage::new(alloc),
        }
    }

    pub(crate) fn copy(&self) -> Result<SyncSession, NoMemory>
        ensures { IfOk result (λ copy. copy ≡ self.now) }
    {
        Ok(SyncSession {
            id: self.id,
            mode: self.mode,
            persisting: self.persisting,
            ended: self.ended,
            named: self.named.copy()?,
            stage: self.stage.copy()?,
        })
    }

    pub(crate) fn persists(&self) -> bool
        ensures { result ≡ persists self.now.mode }
    {
        matches!(self.mode, Mode::RefreshAndPersist)
    }

    /// Takes a message. Where memory ran out all is as before.
    pub(crate) fn take(
        &mut self,
        held: &mut HeldContent,
        message: &Message,
    ) -> Result<SearchStep, Refusal>
        ensures { taken_by_search held.old self.old held.new self.new result message.now }
    {
        if message.id != self.id {
            return Err(Refusal::OutOfPlace);
        }
        let entries = &held.entries;
        let decoded = decode_beside(entries.allocator(), message, self.persisting, entries)?;
        self.take_decoded(held, decoded)
    }

    /// Takes what a message says.
    fn take_decoded(
        &mut self,
        held: &mut HeldContent,
        decoded: SyncEvent,
    ) -> Result<SearchStep, Refusal>
        ensures { StepsOn held.old self.old held.new self.new result (message_of decoded) }
    {
        match decoded {
            SyncEvent::AddOrModify(entry, cookie) => self.put(held, entry, cookie),
            SyncEvent::Delete(uuid, cookie) => self.drop_each(held, &[uuid], cookie),
            SyncEvent::Present(uuid) => self.name(held, &[uuid]),
            SyncEvent::IdSet {
                deletes,
                uuids,
                cookie,
            } => {
                if deletes {
                    self.drop_each(held, uuids.list(), cookie)
                } else {
                    self.name(held, uuids.list())
                }
            }
            SyncEvent::NewCookie(cookie) => {
                let stage = self.stage.copy()?;
                self.take_stage(held, stage, Some(cookie))
            }
            SyncEvent::RefreshDelete { done, cookie } => self.end_phase(held, true, done, cookie),
            SyncEvent::RefreshPresent { done, cookie } => self.end_phase(held, false, done, cookie),
            SyncEvent::Done { code, control } => self.end_search(held, code, control),
            SyncEvent::Ignored => Ok(SearchStep::Goes(Taken::Staged)),
        }
    }

    /// Stages an entry. Before the end of the refresh it goes into the stage as it stands.
    fn put(
        &mut self,
        held: &mut HeldContent,
        entry: Entry,
        cookie: Option<Octets>,
    ) -> Result<SearchStep, Refusal>
        ensures { StepsOn held.old self.old held.new self.new result
            (AddOrModify true entry cookie) }
    {
        if !self.stage.has_room(&entry) {
            return Err(Refusal::Fault(PeerFault::StageFull));
        }
        if self.persisting {
            let stage = self.stage.with_entry(entry)?;
            return self.take_stage(held, stage, cookie);
        }
        self.stage.put(entry)?;
        Ok(SearchStep::Goes(Taken::Staged))
    }

    /// Stages that these identities have no entry.
    fn drop_each(
        &mut self,
        held: &mut HeldContent,
        uuids: &[u128],
        cookie: Option<Octets>,
    ) -> Result<SearchStep, Refusal>
        ensures { StepsOn held.old self.old held.new self.new result (IdSet true uuids.now cookie) }
    {
        let stage = self.stage.without_each(uuids)?;
        self.take_stage(held, stage, cookie)
    }

    /// Notes that these identities have an entry as before.
    fn name(&mut self, held: &HeldContent, uuids: &[u128]) -> Result<SearchStep, Refusal>
        ensures { StepsOn held.now self.old held.now self.new result (IdSet false uuids.now None) }
    {
        if self.persisting {
            return Err(Refusal::OutOfPlace);
        }
        match held.unknown(&self.stage, uuids) {
            Some(uuid) => Err(Refusal::Fault(PeerFault::PresentUnknown(uuid))),
            None => {
                self.named.add(uuids)?;
                Ok(SearchStep::Goes(Taken::Staged))
            }
        }
    }

    /// Takes this for what is staged. After the refresh a cookie brings it into effect; before its
    /// end the cookie is not kept. A refusal leaves what was staged.
    fn take_stage(
        &mut self,
        held: &mut HeldContent,
        stage: Stage,
        cookie: Option<Octets>,
    ) -> Result<SearchStep, Refusal>
        ensures { StepsTo held.old self.old held.new self.new result
            (within false held.old self.old (model.with_cookie (copy_with held.old self.old)
            (record (session_of self.old) { stage = stage }) cookie)) }
    {
        if !self.persisting {
            self.stage = stage;
            return Ok(SearchStep::Goes(Taken::Staged));
        }
        let Some(cookie) = cookie else {
            self.stage = stage;
            return Ok(SearchStep::Goes(Taken::Staged));
        };
        let commit = held.commit_stage(&stage, Some(cookie))?;
        self.named.clear();
        self.stage.clear();
        Ok(SearchStep::Goes(Taken::Stored(commit)))
    }
}
