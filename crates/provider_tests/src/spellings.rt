//! Messages as they are spelled, put together from RFC 4511, RFC 4533 and ITU-T X.690 element by
//! element, apart from this program.
ghost use Rattle.std.specs.Prelude.{◌≡◌, IsTrue};
ghost use Rattle.ldap_messages.specs.Operation.{IsOfGrammar, operation_of};
ghost use Rattle.ldap_messages.specs.LdapResult.{HasReferral};

use crate::rows::{number, push_word};
use ldap_ber::discard;
use ldap_constants::BUSY;
use ldap_messages::{LdapResult, Message, Protocol};
use std::alloc::Global;
use std::test::Fail;
use sync_provider::{Handed, SyncDirectory, done_message};

/// Spellings by their names. The message ID of each is 7.
const SPELLINGS: [(&str, &[u8]); 4] = [
    // The end of a refresh of a directory without writes.
    (
        "empty-end",
        b"0\x81\x93\x02\x01\x07e\x07\x0a\x01\0\x04\0\x04\0\xa0\x81\x840\x81\x81\x04\
    \x181.3.6.1.4.1.4203.1.9.1.3\x04e0c\x04arid=000,sid=001,csn=19700101000000.000000Z#000000#001#\
    000000,gen=00000000000000000000000000000001",
    ),
    // The entry that the first write adds.
    (
        "entry",
        b"0\x81\xf1\x02\x01\x07d\x81\xb4\x04\x04dc=x0\x81\xab0'\x04\x0bobjectClass1\x18\
    \x04\x0corganization\x04\x08dcObject0\x08\x04\x01o1\x03\x04\x01X0\x09\x04\x02dc1\x03\x04\x01x0\
    3\x04\x09entryUUID1&\x04$00000000-0001-8000-8000-00000000000106\x04\x08entryCSN1*\x04(197001010\
    00000.000000Z#000001#001#000000\xa0503\x04\x181.3.6.1.4.1.4203.1.9.1.2\x04\x170\x15\x0a\x01\x01\
    \x04\x10\0\0\0\0\0\x01\x80\0\x80\0\0\0\0\0\0\x01",
    ),
    // The end of a refresh after the first write.
    (
        "entry-end",
        b"0\x81\x93\x02\x01\x07e\x07\x0a\x01\0\x04\0\x04\0\xa0\x81\x840\x81\x81\x04\
    \x181.3.6.1.4.1.4203.1.9.1.3\x04e0c\x04arid=000,sid=001,csn=19700101000000.000000Z#000001#001#\
    000000,gen=00000000000000000000000000000001",
    ),
    // The end of a search that was too much.
    ("busy-end", b"0\x0c\x02\x01\x07e\x07\x0a\x013\x04\0\x04\0"),
];

/// Reports the name of the spelling of the next message.
pub(crate) fn spell(
    alloc: Global,
    provider: &mut SyncDirectory,
    search: &str,
    text: &mut String,
) -> Result<(), Fail>
    ensures { provider.new.directory ≡ provider.old.directory }
{
    let handed = provider.hand_out(number(search));
    let name = name_of_handed(alloc, &handed);
    discard(handed);
    push_word(text, &name?)
}

/// Reports the name of the spelling of the end with busy.
pub(crate) fn spell_busy(alloc: Global, text: &mut String) -> Result<(), Fail> {
    let message = done_message(alloc, 7, BUSY)?;
    let name = name_of(alloc, &message);
    discard(message);
    push_word(text, &name?)
}

fn name_of_handed(alloc: Global, handed: &Handed) -> Result<String, Fail> {
    match handed {
        Handed::Message(message) | Handed::Ended(0, message) => name_of(alloc, message),
        Handed::NoSuchSearch => Ok("none".to_string(alloc)?),
        _ => Err(Fail::from("no message")),
    }
}

/// The name of the spelling of an entry or of a search's end without a referral.
fn name_of(alloc: Global, message: &Message) -> Result<String, Fail> {
    if message.id > 2_147_483_647 || !is_entry_or_end(&message.op) {
        return Err(Fail::from("another message"));
    }
    let bytes = message.write(alloc)?;
    for (name, spelling) in &SPELLINGS {
        if bytes.as_slice() == *spelling {
            return Ok(name.to_string(alloc)?);
        }
    }
    Ok("other".to_string(alloc)?)
}

/// Whether it is an entry, or a search's end without a referral, which each have a spelling.
fn is_entry_or_end(operation: &Protocol) -> bool
    ensures { IsTrue result → IsOfGrammar (operation_of operation.now) }
{
    match operation {
        Protocol::SearchResultEntry { .. } => true,
        Protocol::SearchResultDone(outcome) => has_no_referral(outcome),
        _ => false,
    }
}

fn has_no_referral(outcome: &LdapResult) -> bool
    ensures { IsTrue result → HasReferral outcome.now }
{
    match &outcome.referral {
        None => true,
        Some(_) => false,
    }
}
