//! A copy of what a search selects, in whole lists (RFC 4533, sections 3.3 and 3.4).
use entry_tree::Entry;
use ldap_ber::{NoMemory, Octets, discard};
use ldap_constants::{E_SYNC_REFRESH_REQUIRED, SUCCESS};
use ldap_messages::Message;
use std::alloc::{AllocError, Global};
use std::mem;
use sync_messages::SyncDone;
use sync_wire::{DecodeFault, SyncEvent, decode};

/// The name of the entry, as it is written.
pub fn name_of(entry: &Entry) -> Result<Octets, NoMemory> {
    entry.dn.write()
}

fn slice_of(cookie: &Option<Octets>) -> Option<&[u8]> {
    match cookie {
        Some(cookie) => Some(cookie.as_slice()),
        None => None,
    }
}

/// What came of a message.
#[derive(Clone, Copy, Debug, PartialEq, Eq)]
pub enum Answer {
    Staged,
    Stored,
    Copied,
    Over(i64),
    Refused,
}

/// Entries by their names, a cookie, and a search that may run.
#[derive(Clone, Drop)]
pub struct PlainCopy {
    pub held: Vec<(u128, Vec<u8>)>,
    cookie: Option<Vec<u8>>,
    /// The ID of the search that runs.
    pub session: Option<u32>,
    persists: bool,
    /// Whether the refresh is over, and whether its present phase is.
    refreshed: bool,
    ended: bool,
    named: Vec<u128>,
    /// Identities with their entries or without one, as they came.
    stage: Vec<(u128, Option<Vec<u8>>)>,
}

impl PlainCopy {
    pub fn new(alloc: Global) -> PlainCopy {
        PlainCopy {
            held: Vec::new(alloc),
            cookie: None,
            session: None,
            persists: false,
            refreshed: false,
            ended: false,
            named: Vec::new(alloc),
            stage: Vec::new(alloc),
        }
    }

    /// Begins a search.
    pub fn ask(&mut self, id: u32, persists: bool) {
        self.session = Some(id);
        self.persists = persists;
        self.refreshed = false;
        self.ended = false;
        self.named.clear();
        self.stage.clear();
    }

    pub fn holds(&self, uuid: u128, text: &[u8]) -> bool {
        self.held.iter().any(|(other, entry)| *other == uuid && entry.as_slice() == text)
    }

    pub fn has_cookie(&self, cookie: Option<&[u8]>) -> bool {
        match (&self.cookie, cookie) {
            (Some(one), Some(other)) => one.as_slice() == other,
            (None, None) => true,
            _ => false,
        }
    }

    /// Takes a message. One that is refused, and the end of a search, leave none after.
    pub fn take(&mut self, alloc: Global, message: &Message) -> Result<Answer, NoMemory> {
        let mut answer = Answer::Refused;
        if self.session == Some(message.id) {
            match decode(alloc, message, self.refreshed) {
                Ok(decoded) => {
                    let taken = self.take_decoded(alloc, &decoded);
                    discard(decoded);
                    answer = taken?;
                }
                Err(DecodeFault::NoMemory) => return Err(AllocError),
                Err(_) => {}
            }
        }
        if matches!(answer, Answer::Over(_) | Answer::Refused) {
            self.session = None;
        }
        Ok(answer)
    }

    fn take_decoded(&mut self, alloc: Global, decoded: &SyncEvent) -> Result<Answer, NoMemory> {
        match decoded {
            SyncEvent::AddOrModify(entry, cookie) => {
                self.put(alloc, entry)?;
                self.changed(alloc, slice_of(cookie))
            }
            SyncEvent::Delete(uuid, cookie) => {
                self.drop_each(&[*uuid])?;
                self.changed(alloc, slice_of(cookie))
            }
            SyncEvent::Present(uuid) => self.name(&[*uuid]),
            SyncEvent::IdSet {
                deletes,
                uuids,
                cookie,
            } => self.take_set(alloc, *deletes, uuids.list(), slice_of(cookie)),
            SyncEvent::NewCookie(cookie) => self.changed(alloc, Some(cookie.as_slice())),
            SyncEvent::RefreshDelete { done, cookie } => {
                self.end_phase(alloc, true, *done, slice_of(cookie))
            }
            SyncEvent::RefreshPresent { done, cookie } => {
                self.end_phase(alloc, false, *done, slice_of(cookie))
            }
            SyncEvent::Done { code, control } => self.end_search(alloc, *code, control),
            SyncEvent::Ignored => Ok(Answer::Staged),
        }
    }

    /// Takes a set of identities that are deleted, or else present.
    fn take_set(
        &mut self,
        alloc: Global,
        deletes: bool,
        uuids: &[u128],
        cookie: Option<&[u8]>,
    ) -> Result<Answer, NoMemory> {
        if !deletes {
            return self.name(uuids);
        }
        self.drop_each(uuids)?;
        self.changed(alloc, cookie)
    }

    fn put(&mut self, alloc: Global, entry: &Entry) -> Result<(), NoMemory> {
        let name = Vec::from_slice(alloc, name_of(entry)?.as_slice())?;
        self.stage.push((entry.uuid, Some(name)))?;
        Ok(())
    }

    fn drop_each(&mut self, uuids: &[u128]) -> Result<(), NoMemory> {
        for uuid in uuids {
            self.stage.push((*uuid, None))?;
        }
        Ok(())
    }

    /// After the refresh a cookie ends a group of changes; before its end it is of no use.
    fn changed(&mut self, alloc: Global, cookie: Option<&[u8]>) -> Result<Answer, NoMemory> {
        if !self.refreshed || cookie.is_none() {
            return Ok(Answer::Staged);
        }
        self.store(alloc, cookie)
    }

    /// Brings each change into effect, one after another.
    fn store(&mut self, alloc: Global, cookie: Option<&[u8]>) -> Result<Answer, NoMemory> {
        for (uuid, entry) in mem::replace(&mut self.stage, Vec::new(alloc)) {
            self.effect(uuid, entry)?;
        }
        let Some(cookie) = cookie else {
            return Ok(Answer::Copied);
        };
        self.cookie = Some(Vec::from_slice(alloc, cookie)?);
        Ok(Answer::Stored)
    }

    fn effect(&mut self, uuid: u128, entry: Option<Vec<u8>>) -> Result<(), NoMemory> {
        self.held.retain(|(other, _)| *other != uuid);
        if let Some(text) = entry {
            self.held.push((uuid, text))?;
        }
        Ok(())
    }

    /// Whether the last change of the identity puts an entry.
    fn is_put(&self, uuid: u128) -> bool {
        let mut is_put = false;
        for (other, entry) in &self.stage {
            if *other == uuid {
                is_put = entry.is_some();
            }
        }
        is_put
    }

    /// Notes identities as present, each of which is held or was put.
    fn name(&mut self, uuids: &[u128]) -> Result<Answer, NoMemory> {
        for uuid in uuids {
            let is_held = self.held.iter().any(|(other, _)| other == uuid);
            if !is_held && !self.is_put(*uuid) {
                return Ok(Answer::Refused);
            }
            self.named.push(*uuid)?;
        }
        if self.refreshed {
            Ok(Answer::Refused)
        } else {
            Ok(Answer::Staged)
        }
    }

    /// What is held and was neither named nor put.
    fn unmentioned(&self, alloc: Global) -> Result<Vec<u128>, NoMemory> {
        let mut unmentioned = Vec::new(alloc);
        for (uuid, _) in &self.held {
            if !self.named.contains(uuid) && !self.is_put(*uuid) {
                unmentioned.push(*uuid)?;
            }
        }
        Ok(unmentioned)
    }

    /// Ends a phase, if it may end. What a present phase did not speak of is gone.
    fn ends(&mut self, alloc: Global, deletes: bool) -> Result<bool, NoMemory> {
        if deletes || self.ended {
            return Ok(deletes);
        }
        self.ended = true;
        let unmentioned = self.unmentioned(alloc)?;
        self.drop_each(unmentioned.as_slice())?;
        Ok(true)
    }

    fn end_phase(
        &mut self,
        alloc: Global,
        deletes: bool,
        done: bool,
        cookie: Option<&[u8]>,
    ) -> Result<Answer, NoMemory> {
        if self.refreshed || done && !self.persists || !self.ends(alloc, deletes)? {
            return Ok(Answer::Refused);
        }
        if !done {
            return Ok(Answer::Staged);
        }
        self.refreshed = true;
        self.store(alloc, cookie)
    }

    fn end_search(
        &mut self,
        alloc: Global,
        code: i64,
        control: &Option<SyncDone>,
    ) -> Result<Answer, NoMemory> {
        if code == i64::from(E_SYNC_REFRESH_REQUIRED) {
            self.cookie = None;
        }
        if code != i64::from(SUCCESS) || self.persists {
            return Ok(Answer::Over(code));
        }
        let Some(control) = control else {
            return Ok(Answer::Refused);
        };
        if !self.ends(alloc, control.refresh_deletes)? {
            return Ok(Answer::Refused);
        }
        self.session = None;
        self.store(alloc, slice_of(&control.cookie))
    }
}
