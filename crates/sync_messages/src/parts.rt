//! Components of several values (RFC 4533, section 2.1), and the cookie with the flag after it.
//!
//! ```text
//! syncUUID ::= OCTET STRING (SIZE(16))
//!
//! syncCookie ::= OCTET STRING
//! ```

ghost use Rattle.std.specs.Prelude.{◌≡◌, ◌<◌, ◌^◌, length, Ok, OnOk};
ghost use Rattle.ldap_ber.specs.Writer.{after_bytes};
ghost use Rattle.ldap_ber.specs.Gives.{Gives};
ghost use Rattle.sync_messages.specs.Faults.{SyncFails};
ghost use Rattle.sync_messages.specs.Parts.{cookie_at, uuid_at, cookie_octets, uuid_octets, refresh_octets};

use crate::fault::SyncFault;
use ldap_ber::{NoMemory, Octets, Reader, Writer};
use std::alloc::Global;

/// The cookie, where one comes next.
pub(crate) fn cookie_of(alloc: Global, reader: &mut Reader) -> Result<Option<Octets>, SyncFault>
    ensures exact { Gives SyncFails (λ cookie. Ok (cookie, reader.new.left)) result
        (cookie_at reader.old.stop reader.old.left) }
    ensures stop { reader.new.stop ≡ reader.old.stop }
{
    if reader.has(0x04) {
        let octets = reader.octets(0x04)?;
        return Ok(Some(Octets::from_slice(alloc, octets)?));
    }
    Ok(None)
}

/// The identity that comes next.
pub(crate) fn uuid_of(reader: &mut Reader) -> Result<u128, SyncFault>
    ensures exact { Gives SyncFails (λ uuid. Ok (uuid, reader.new.left)) result
        (uuid_at reader.old.stop reader.old.left) }
    ensures stop { reader.new.stop ≡ reader.old.stop }
    ensures shorter { OnOk result (length reader.new.left < length reader.old.left) }
{
    let octets = reader.octets(0x04)?;
    if octets.len() != 16 {
        return Err(SyncFault::BadUuidLength(octets.len()));
    }
    let mut word = [0; 16];
    word.copy_from_slice(octets);
    Ok(u128::from_be_bytes(word))
}

pub(crate) fn put_cookie(writer: &mut Writer, cookie: &Option<Octets>) -> Result<(), NoMemory>
    ensures { OnOk result (writer.new ≡ after_bytes writer.old (cookie_octets cookie.now)) }
{
    match cookie {
        Some(cookie) => writer.octets(0x04, cookie.as_slice()),
        None => Ok(()),
    }
}

pub(crate) fn put_uuid(writer: &mut Writer, uuid: u128) -> Result<(), NoMemory>
    ensures ok { OnOk result (writer.new ≡ after_bytes writer.old (uuid_octets uuid)) }
    ensures in_range { uuid < 2 ^ 128 }
{
    writer.octets(0x04, &uuid.to_be_bytes())
}

/// Writes a cookie, and a flag where it is not the usual one.
pub(crate) fn put_refresh(
    writer: &mut Writer,
    cookie: &Option<Octets>,
    usual: bool,
    flag: bool,
) -> Result<(), NoMemory>
    ensures { OnOk result
        (writer.new ≡ after_bytes writer.old (refresh_octets usual (cookie.now, flag))) }
{
    put_cookie(writer, cookie)?;
    writer.boolean_unless(0x01, usual, flag)
}
