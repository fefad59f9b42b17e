//! The value of the Sync State control (RFC 4533, section 2.3).
//!
//! ```text
//! syncStateValue ::= SEQUENCE {
//!     state ENUMERATED {
//!         present (0),
//!         add (1),
//!         modify (2),
//!         delete (3)
//!     },
//!     entryUUID syncUUID,
//!     cookie    syncCookie OPTIONAL
//! }
//! ```

ghost use Rattle.std.specs.Prelude.{◌≡◌, ◌<◌, ◌^◌, [], Ok, IfOk, OnOk};
ghost use Rattle.ldap_ber.specs.Writer.{after_bytes, IsSmall};
ghost use Rattle.ldap_ber.specs.Gives.{Gives};
ghost use Rattle.sync_messages.specs.Faults.{SyncFails};
ghost use Rattle.sync_messages.specs.State.{kind_of, kind_number, kind_at, StateForm, state_of, parts_octets, state_octets};

use crate::fault::SyncFault;
use crate::parts::{cookie_of, put_cookie, put_uuid, uuid_of};
use ldap_ber::{NoMemory, Octets, Reader, Writer};
use std::alloc::Global;

/// What became of an entry.
#[derive(Clone, Copy, Debug, PartialEq, Eq)]
pub enum State {
    Present,
    Add,
    Modify,
    Delete,
}

/// The value of a Sync State control (RFC 4533, section 2.3).
#[derive(Drop)]
pub struct SyncState {
    pub state: State,
    /// The entry's identity.
    pub uuid: u128,
    pub cookie: Option<Octets>,
}

impl SyncState {
    ghost use Rattle.sync_messages.specs.declared.state.SyncState.{SyncState};

    /// Reads the value that all of the bytes spell (RFC 4533, section 2.3). Where they spell none
    /// it is the first fault from left to right, or `NoMemory`.
    #[tactic(auto, using(crate::proofs::StateLemmas::state_found))]
    pub fn read(alloc: Global, value: &[u8]) -> Result<SyncState, SyncFault>
        ensures exact { Gives SyncFails (λ state. Ok state) result (state_of value.now) }
        ensures found { IfOk result (λ state. StateForm value.now state []) }
        ensures only { (state : SyncState) → StateForm value.now state []
            → Gives SyncFails (λ read. Ok read) result (Ok state) }
    {
        state_of(alloc, value)
    }

    /// Writes the canonical spelling, which is read again as the same value (RFC 4533, section
    /// 2.3). It is `NoMemory` where memory runs out.
    #[tactic(auto, using(crate::proofs::StateLemmas::state_spelled, crate::proofs::StateLemmas::state_read_again))]
    pub fn write(&self, alloc: Global) -> Result<Octets, NoMemory>
        ensures canonical { IfOk result (λ octets. octets ≡ state_octets self.now) }
        ensures spelled { IfOk result (λ octets. StateForm octets self.now []) }
        ensures read_again { IfOk result (λ octets. state_of octets ≡ Ok self.now) }
    {
        self.spelling(alloc)
    }

    #[tactic(auto, unfolding(crate::specs::State::state_octets))]
    fn spelling(&self, alloc: Global) -> Result<Octets, NoMemory>
        ensures canonical { IfOk result (λ octets. octets ≡ state_octets self.now) }
        ensures small { IfOk result IsSmall }
        ensures in_range { IfOk result (λ octets. self.now.uuid < 2 ^ 128) }
    {
        let mut writer = Writer::new(alloc);
        writer.begin(0x30)?;
        put_parts(&mut writer, self)?;
        writer.end()?;
        Ok(writer.finish())
    }
}

fn put_parts(writer: &mut Writer, state: &SyncState) -> Result<(), NoMemory>
    ensures ok { OnOk result (writer.new ≡ after_bytes writer.old (parts_octets state.now)) }
    ensures in_range { OnOk result (state.now.uuid < 2 ^ 128) }
{
    writer.integer(0x0A, kind_number(state.state))?;
    put_uuid(writer, state.uuid)?;
    put_cookie(writer, &state.cookie)
}

#[tactic(auto, unfolding(crate::specs::State::state_of))]
fn state_of(alloc: Global, value: &[u8]) -> Result<SyncState, SyncFault>
    ensures { Gives SyncFails (λ state. Ok state) result (state_of value.now) }
{
    let mut outer = Reader::new(value);
    let whole = outer.expect(0x30)?;
    let mut inner = Reader::inside(&whole);
    let state = kind_at(&mut inner)?;
    let uuid = uuid_of(&mut inner)?;
    let cookie = cookie_of(alloc, &mut inner)?;
    inner.skip()?;
    outer.end()?;
    Ok(SyncState {
        state,
        uuid,
        cookie,
    })
}

/// The state that comes next.
fn kind_at(reader: &mut Reader) -> Result<State, SyncFault>
    ensures exact { Gives SyncFails (λ state. Ok (state, reader.new.left)) result
        (kind_at reader.old.stop reader.old.left) }
    ensures stop { reader.new.stop ≡ reader.old.stop }
{
    let number = reader.integer(0x0A)?;
    kind_of(number)
}

/// The state of this number.
fn kind_of(number: i64) -> Result<State, SyncFault>
    ensures { Gives SyncFails (λ state. Ok state) result (kind_of number) }
{
    match number {
        0 => Ok(State::Present),
        1 => Ok(State::Add),
        2 => Ok(State::Modify),
        3 => Ok(State::Delete),
        _ => Err(SyncFault::BadState(number)),
    }
}

fn kind_number(state: State) -> i64
    ensures { result ≡ kind_number state }
{
    match state {
        State::Present => 0,
        State::Add => 1,
        State::Modify => 2,
        State::Delete => 3,
    }
}
