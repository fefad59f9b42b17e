//! The value of the Sync Done control (RFC 4533, section 2.4).
//!
//! ```text
//! syncDoneValue ::= SEQUENCE {
//!     cookie          syncCookie OPTIONAL,
//!     refreshDeletes  BOOLEAN DEFAULT FALSE
//! }
//! ```

ghost use Rattle.std.specs.Prelude.{◌≡◌, [], Ok, IfOk};
ghost use Rattle.ldap_ber.specs.Writer.{IsSmall};
ghost use Rattle.ldap_ber.specs.Gives.{Gives};
ghost use Rattle.sync_messages.specs.Faults.{SyncFails};
ghost use Rattle.sync_messages.specs.Done.{DoneForm, done_of, done_octets};

use crate::fault::SyncFault;
use crate::parts::{cookie_of, put_refresh};
use ldap_ber::{NoMemory, Octets, Reader, Writer};
use std::alloc::Global;

/// The value of a Sync Done control (RFC 4533, section 2.4).
#[derive(Drop)]
pub struct SyncDone {
    pub cookie: Option<Octets>,
    /// Whether the refresh reported what is deleted, and not what is present.
    pub refresh_deletes: bool,
}

impl SyncDone {
    ghost use Rattle.sync_messages.specs.declared.done.SyncDone.{SyncDone};

    /// Reads the value that all of the bytes spell (RFC 4533, section 2.4). Where they spell none
    /// it is the first fault from left to right, or `NoMemory`.
    #[tactic(auto, using(crate::proofs::DoneLemmas::done_found))]
    pub fn read(alloc: Global, value: &[u8]) -> Result<SyncDone, SyncFault>
        ensures exact { Gives SyncFails (λ done. Ok done) result (done_of value.now) }
        ensures found { IfOk result (λ done. DoneForm value.now done []) }
        ensures only { (done : SyncDone) → DoneForm value.now done []
            → Gives SyncFails (λ read. Ok read) result (Ok done) }
    {
        done_of(alloc, value)
    }

    /// Writes the canonical spelling, which is read again as the same value (RFC 4533, section
    /// 2.4). It is `NoMemory` where memory runs out.
    #[tactic(auto, using(crate::proofs::DoneLemmas::done_spelled, crate::proofs::DoneLemmas::done_read_again))]
    pub fn write(&self, alloc: Global) -> Result<Octets, NoMemory>
        ensures canonical { IfOk result (λ octets. octets ≡ done_octets self.now) }
        ensures spelled { IfOk result (λ octets. DoneForm octets self.now []) }
        ensures read_again { IfOk result (λ octets. done_of octets ≡ Ok self.now) }
    {
        self.spelling(alloc)
    }

    #[tactic(auto, unfolding(crate::specs::Done::done_octets))]
    fn spelling(&self, alloc: Global) -> Result<Octets, NoMemory>
        ensures canonical { IfOk result (λ octets. octets ≡ done_octets self.now) }
        ensures small { IfOk result IsSmall }
    {
        let mut writer = Writer::new(alloc);
        writer.begin(0x30)?;
        put_refresh(&mut writer, &self.cookie, false, self.refresh_deletes)?;
        writer.end()?;
        Ok(writer.finish())
    }
}

#[tactic(auto, unfolding(crate::specs::Done::done_of))]
fn done_of(alloc: Global, value: &[u8]) -> Result<SyncDone, SyncFault>
    ensures { Gives SyncFails (λ done. Ok done) result (done_of value.now) }
{
    let mut outer = Reader::new(value);
    let whole = outer.expect(0x30)?;
    let mut inner = Reader::inside(&whole);
    let cookie = cookie_of(alloc, &mut inner)?;
    let refresh_deletes = inner.boolean_or(0x01, false)?;
    inner.skip()?;
    outer.end()?;
    Ok(SyncDone {
        cookie,
        refresh_deletes,
    })
}
