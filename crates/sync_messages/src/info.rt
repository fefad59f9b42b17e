//! The value of the Sync Info message (RFC 4533, section 2.5).
//!
//! ```text
//! syncInfoValue ::= CHOICE {
//!     newcookie      [0] syncCookie,
//!     refreshDelete  [1] SEQUENCE {
//!         cookie         syncCookie OPTIONAL,
//!         refreshDone    BOOLEAN DEFAULT TRUE
//!     },
//!     refreshPresent [2] SEQUENCE {
//!         cookie         syncCookie OPTIONAL,
//!         refreshDone    BOOLEAN DEFAULT TRUE
//!     },
//!     syncIdSet      [3] SEQUENCE {
//!         cookie         syncCookie OPTIONAL,
//!         refreshDeletes BOOLEAN DEFAULT FALSE,
//!         syncUUIDs      SET OF syncUUID
//!     }
//! }
//! ```

ghost use Rattle.std.specs.Prelude.{◌≡◌, ◌<◌, ◌^◌, [], Ok, IfOk, OnOk};
ghost use Rattle.std.specs.List.{flat_map, AllByRecursion};
ghost use Rattle.ldap_ber.specs.Reading.{many_at};
ghost use Rattle.ldap_ber.specs.Writer.{after_bytes, IsSmall};
ghost use Rattle.ldap_ber.specs.Gives.{Gives};
ghost use Rattle.sync_messages.specs.Faults.{SyncFails};
ghost use Rattle.sync_messages.specs.Parts.{uuid_at, uuid_octets};
ghost use Rattle.sync_messages.specs.Info.{refresh_at, uuids_at, set_at, info_at, uuids_octets, InfoForm, info_of, info_octets, IsInRange};

use crate::fault::SyncFault;
use crate::ids::IdList;
use crate::parts::{cookie_of, put_refresh, put_uuid, uuid_of};
use ldap_ber::{NoMemory, Octets, Reader, Writer};
use std::alloc::Global;

/// The value of a Sync Info message (RFC 4533, section 2.5).
#[derive(Drop)]
pub enum SyncInfo {
    NewCookie(Octets),
    /// A cookie, and whether the refresh is done.
    RefreshDelete(Option<Octets>, bool),
    /// A cookie, and whether the refresh is done.
    RefreshPresent(Option<Octets>, bool),
    /// A cookie, whether these entries are deleted and not present, and their identities.
    IdSet(Option<Octets>, bool, IdList),
}

impl SyncInfo {
    ghost use Rattle.sync_messages.specs.declared.info.SyncInfo.{SyncInfo};

    /// Reads the value that all of the bytes spell (RFC 4533, section 2.5). Where they spell none
    /// it is the first fault from left to right, or `NoMemory`.
    #[tactic(auto, using(crate::proofs::InfoLemmas::info_found))]
    pub fn read(alloc: Global, value: &[u8]) -> Result<SyncInfo, SyncFault>
        ensures exact { Gives SyncFails (λ info. Ok info) result (info_of value.now) }
        ensures found { IfOk result (λ info. InfoForm value.now info []) }
        ensures only { (info : SyncInfo) → InfoForm value.now info []
            → Gives SyncFails (λ read. Ok read) result (Ok info) }
    {
        info_of(alloc, value)
    }

    /// Writes the canonical spelling, which is read again as the same value (RFC 4533, section
    /// 2.5). It is `NoMemory` where memory runs out.
    #[tactic(auto, using(crate::proofs::InfoLemmas::info_spelled, crate::proofs::InfoLemmas::info_read_again))]
    pub fn write(&self, alloc: Global) -> Result<Octets, NoMemory>
        ensures canonical { IfOk result (λ octets. octets ≡ info_octets self.now) }
        ensures spelled { IfOk result (λ octets. InfoForm octets self.now []) }
        ensures read_again { IfOk result (λ octets. info_of octets ≡ Ok self.now) }
    {
        self.spelling(alloc)
    }

    fn spelling(&self, alloc: Global) -> Result<Octets, NoMemory>
        ensures canonical { IfOk result (λ octets. octets ≡ info_octets self.now) }
        ensures small { IfOk result IsSmall }
        ensures in_range { IfOk result (λ octets. IsInRange self.now) }
    {
        let mut writer = Writer::new(alloc);
        put_info(&mut writer, self)?;
        Ok(writer.finish())
    }
}

#[tactic(auto, unfolding(crate::specs::Info::info_of))]
fn info_of(alloc: Global, value: &[u8]) -> Result<SyncInfo, SyncFault>
    ensures { Gives SyncFails (λ info. Ok info) result (info_of value.now) }
{
    let mut reader = Reader::new(value);
    let info = info_at(alloc, &mut reader)?;
    reader.end()?;
    Ok(info)
}

/// The value that comes next.
fn info_at(alloc: Global, reader: &mut Reader) -> Result<SyncInfo, SyncFault>
    ensures exact { Gives SyncFails (λ info. Ok (info, reader.new.left)) result
        (info_at reader.old.stop reader.old.left) }
    ensures stop { reader.new.stop ≡ reader.old.stop }
{
    if reader.has(0x80) {
        let cookie = reader.octets(0x80)?;
        return Ok(SyncInfo::NewCookie(Octets::from_slice(alloc, cookie)?));
    }
    if reader.has(0xA1) {
        let (cookie, refresh_done) = refresh_at(alloc, reader, 0xA1)?;
        return Ok(SyncInfo::RefreshDelete(cookie, refresh_done));
    }
    if reader.has(0xA2) {
        let (cookie, refresh_done) = refresh_at(alloc, reader, 0xA2)?;
        return Ok(SyncInfo::RefreshPresent(cookie, refresh_done));
    }
    let (cookie, refresh_deletes, ids) = set_at(alloc, reader)?;
    Ok(SyncInfo::IdSet(cookie, refresh_deletes, ids))
}

/// The element with this tag that comes next: a cookie, and whether the refresh is done.
fn refresh_at(
    alloc: Global,
    reader: &mut Reader,
    tag: u8,
) -> Result<(Option<Octets>, bool), SyncFault>
    ensures exact { Gives SyncFails (λ refresh. Ok (refresh, reader.new.left)) result
        (refresh_at tag reader.old.stop reader.old.left) }
    ensures stop { reader.new.stop ≡ reader.old.stop }
{
    let whole = reader.expect(tag)?;
    let mut inner = Reader::inside(&whole);
    let cookie = cookie_of(alloc, &mut inner)?;
    let refresh_done = inner.boolean_or(0x01, true)?;
    inner.skip()?;
    Ok((cookie, refresh_done))
}

/// The `syncIdSet` that comes next.
fn set_at(alloc: Global, reader: &mut Reader) -> Result<(Option<Octets>, bool, IdList), SyncFault>
    ensures exact { Gives SyncFails (λ set. Ok ((set.0, (set.1, set.2)), reader.new.left)) result
        (set_at reader.old.stop reader.old.left) }
    ensures stop { reader.new.stop ≡ reader.old.stop }
{
    let whole = reader.expect(0xA3)?;
    let mut inner = Reader::inside(&whole);
    let cookie = cookie_of(alloc, &mut inner)?;
    let refresh_deletes = inner.boolean_or(0x01, false)?;
    let ids = uuids_at(alloc, &mut inner)?;
    inner.skip()?;
    Ok((cookie, refresh_deletes, ids))
}

/// The set of identities that comes next.
fn uuids_at(alloc: Global, reader: &mut Reader) -> Result<IdList, SyncFault>
    ensures exact { Gives SyncFails (λ ids. Ok (ids, reader.new.left)) result
        (uuids_at reader.old.stop reader.old.left) }
    ensures stop { reader.new.stop ≡ reader.old.stop }
{
    let set = reader.expect(0x31)?;
    let mut inner = Reader::inside(&set);
    uuids_in(alloc, &mut inner)
}

/// The identities that are left.
#[tactic(auto, using(crate::proofs::UuidLemmas::uuids_go_on, crate::proofs::UuidLemmas::uuids_fail, crate::proofs::UuidLemmas::uuids_end))]
fn uuids_in(alloc: Global, reader: &mut Reader) -> Result<IdList, SyncFault>
    ensures { Gives SyncFails (λ ids. Ok ids) result
        (many_at uuid_at reader.old.stop reader.old.left) }
{
    let room = reader.count().unwrap_or(0);
    let mut ids = IdList::with_room(alloc, room)?;
    while !reader.is_empty() {
        let id = uuid_of(reader)?;
        ids.push(id)?;
    }
    Ok(ids)
}

#[tactic(auto, unfolding(crate::specs::Info::info_octets))]
fn put_info(writer: &mut Writer, info: &SyncInfo) -> Result<(), NoMemory>
    ensures ok { OnOk result (writer.new ≡ after_bytes writer.old (info_octets info.now)) }
    ensures small { OnOk result (IsSmall (info_octets info.now)) }
    ensures in_range { OnOk result (IsInRange info.now) }
{
    match info {
        SyncInfo::NewCookie(cookie) => writer.octets(0x80, cookie.as_slice()),
        SyncInfo::RefreshDelete(cookie, refresh_done) => {
            writer.begin(0xA1)?;
            put_refresh(writer, cookie, true, *refresh_done)?;
            writer.end()
        }
        SyncInfo::RefreshPresent(cookie, refresh_done) => {
            writer.begin(0xA2)?;
            put_refresh(writer, cookie, true, *refresh_done)?;
            writer.end()
        }
        SyncInfo::IdSet(cookie, refresh_deletes, ids) => {
            writer.begin(0xA3)?;
            put_refresh(writer, cookie, false, *refresh_deletes)?;
            put_uuids(writer, ids.list())?;
            writer.end()
        }
    }
}

fn put_uuids(writer: &mut Writer, ids: &[u128]) -> Result<(), NoMemory>
    ensures ok { OnOk result (writer.new ≡ after_bytes writer.old (uuids_octets ids.now)) }
    ensures in_range { AllByRecursion (λ id. id < 2 ^ 128) ids.now }
{
    writer.begin(0x31)?;
    put_each(writer, ids)?;
    writer.end()
}

fn put_each(writer: &mut Writer, ids: &[u128]) -> Result<(), NoMemory>
    ensures ok { OnOk result
        (writer.new ≡ after_bytes writer.old (flat_map uuid_octets ids.now)) }
    ensures in_range { AllByRecursion (λ id. id < 2 ^ 128) ids.now }
{
    for id in ids {
        put_uuid(writer, *id)?;
    }
    Ok(())
}
