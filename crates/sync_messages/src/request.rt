//! The value of the Sync Request control (RFC 4533, section 2.2).
//!
//! ```text
//! syncRequestValue ::= SEQUENCE {
//!     mode ENUMERATED {
//!         -- 0 unused
//!         refreshOnly       (1),
//!         -- 2 reserved
//!         refreshAndPersist (3)
//!     },
//!     cookie     syncCookie OPTIONAL,
//!     reloadHint BOOLEAN DEFAULT FALSE
//! }
//! ```

ghost use Rattle.std.specs.Prelude.{◌≡◌, [], Ok, IfOk};
ghost use Rattle.ldap_ber.specs.Writer.{IsSmall};
ghost use Rattle.ldap_ber.specs.Gives.{Gives};
ghost use Rattle.sync_messages.specs.Faults.{SyncFails};
ghost use Rattle.sync_messages.specs.Request.{mode_of, mode_number, mode_at, RequestForm, request_of, request_octets};

use crate::fault::SyncFault;
use crate::parts::{cookie_of, put_refresh};
use ldap_ber::{NoMemory, Octets, Reader, Writer};
use std::alloc::Global;

/// Whether a search ends with its refresh or goes on with each change.
#[derive(Clone, Copy, Debug, PartialEq, Eq)]
pub enum Mode {
    RefreshOnly,
    RefreshAndPersist,
}

/// The value of a Sync Request control (RFC 4533, section 2.2).
#[derive(Drop)]
pub struct SyncRequest {
    pub mode: Mode,
    pub cookie: Option<Octets>,
    /// Whether the client takes its content as new where the cookie does not serve.
    pub reload_hint: bool,
}

impl SyncRequest {
    ghost use Rattle.sync_messages.specs.declared.request.SyncRequest.{SyncRequest};

    /// Reads the value that all of the bytes spell (RFC 4533, section 2.2). Where they spell none
    /// it is the first fault from left to right, or `NoMemory`.
    #[tactic(auto, using(crate::proofs::RequestLemmas::request_found))]
    pub fn read(alloc: Global, value: &[u8]) -> Result<SyncRequest, SyncFault>
        ensures exact { Gives SyncFails (λ request. Ok request) result (request_of value.now) }
        ensures found { IfOk result (λ request. RequestForm value.now request []) }
        ensures only { (request : SyncRequest) → RequestForm value.now request []
            → Gives SyncFails (λ read. Ok read) result (Ok request) }
    {
        request_of(alloc, value)
    }

    /// Writes the canonical spelling, which is read again as the same value (RFC 4533, section
    /// 2.2). It is `NoMemory` where memory runs out.
    #[tactic(auto, using(crate::proofs::RequestLemmas::request_spelled, crate::proofs::RequestLemmas::request_read_again))]
    pub fn write(&self, alloc: Global) -> Result<Octets, NoMemory>
        ensures canonical { IfOk result (λ octets. octets ≡ request_octets self.now) }
        ensures spelled { IfOk result (λ octets. RequestForm octets self.now []) }
        ensures read_again { IfOk result (λ octets. request_of octets ≡ Ok self.now) }
    {
        self.spelling(alloc)
    }

    #[tactic(auto, unfolding(crate::specs::Request::request_octets))]
    fn spelling(&self, alloc: Global) -> Result<Octets, NoMemory>
        ensures canonical { IfOk result (λ octets. octets ≡ request_octets self.now) }
        ensures small { IfOk result IsSmall }
    {
        let mut writer = Writer::new(alloc);
        writer.begin(0x30)?;
        writer.integer(0x0A, mode_number(self.mode))?;
        put_refresh(&mut writer, &self.cookie, false, self.reload_hint)?;
        writer.end()?;
        Ok(writer.finish())
    }
}

#[tactic(auto, unfolding(crate::specs::Request::request_of))]
fn request_of(alloc: Global, value: &[u8]) -> Result<SyncRequest, SyncFault>
    ensures { Gives SyncFails (λ request. Ok request) result (request_of value.now) }
{
    let mut outer = Reader::new(value);
    let whole = outer.expect(0x30)?;
    let mut inner = Reader::inside(&whole);
    let mode = mode_at(&mut inner)?;
    let cookie = cookie_of(alloc, &mut inner)?;
    let reload_hint = inner.boolean_or(0x01, false)?;
    inner.skip()?;
    outer.end()?;
    Ok(SyncRequest {
        mode,
        cookie,
        reload_hint,
    })
}

/// The mode that comes next.
fn mode_at(reader: &mut Reader) -> Result<Mode, SyncFault>
    ensures exact { Gives SyncFails (λ mode. Ok (mode, reader.new.left)) result
        (mode_at reader.old.stop reader.old.left) }
    ensures stop { reader.new.stop ≡ reader.old.stop }
{
    let number = reader.integer(0x0A)?;
    mode_of(number)
}

/// The mode of this number.
fn mode_of(number: i64) -> Result<Mode, SyncFault>
    ensures { Gives SyncFails (λ mode. Ok mode) result (mode_of number) }
{
    match number {
        1 => Ok(Mode::RefreshOnly),
        3 => Ok(Mode::RefreshAndPersist),
        _ => Err(SyncFault::BadMode(number)),
    }
}

fn mode_number(mode: Mode) -> i64
    ensures { result ≡ mode_number mode }
{
    match mode {
        Mode::RefreshOnly => 1,
        Mode::RefreshAndPersist => 3,
    }
}
