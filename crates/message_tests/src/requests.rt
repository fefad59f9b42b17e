//! Requests as they are spelled: RFC 4533, section 2.2, by the grammar of RFC 4511, section 4.5.1.
ghost use Rattle.std.specs.Prelude.{◌≡◌, ◌≤◌, IsTrue};
ghost use Rattle.ldap_filter.specs.FilterTree.{tree_of, depth};
ghost use Rattle.ldap_messages.specs.Operation.{IsOfGrammar, operation_of};

use ldap_ber::discard;
use ldap_filter::Filter;
use ldap_messages::{Message, Protocol};
use std::alloc::Global;
use std::test::Fail;
use sync_consumer::Consumer;
use sync_messages::Mode;

/// Requests with the message ID 7 in the mode refreshOnly, by their names: for all below `o=x` with
/// the cookie c1, and with those that the rows call `''`, odd and long; and for what is right below
/// `ou=a,o=x`, without one.
const REQUESTS: [(&str, &[u8]); 5] = [
    (
        "c1",
        b"\x30\x5a\x02\x01\x07\x63\x29\x04\x03o=x\x0a\x01\x02\x0a\x01\x00\x02\x01\x00\x02\x01\x00\x01\x01\x00\x87\x0bobjectClass\x30\x06\x04\x01*\x04\x01+\xa0\x2a\x30\x28\x04\x181.3.6.1.4.1.4203.1.9.1.1\x01\x01\xff\x04\x09\x30\x07\x0a\x01\x01\x04\x02c1",
    ),
    (
        "other",
        b"\x30\x5b\x02\x01\x07\x63\x2e\x04\x08ou=a,o=x\x0a\x01\x01\x0a\x01\x00\x02\x01\x00\x02\x01\x00\x01\x01\x00\x87\x0bobjectClass\x30\x06\x04\x01*\x04\x01+\xa0\x26\x30\x24\x04\x181.3.6.1.4.1.4203.1.9.1.1\x01\x01\xff\x04\x05\x30\x03\x0a\x01\x01",
    ),
    (
        "''",
        b"\x30\x58\x02\x01\x07\x63\x29\x04\x03o=x\x0a\x01\x02\x0a\x01\x00\x02\x01\x00\x02\x01\x00\x01\x01\x00\x87\x0bobjectClass\x30\x06\x04\x01*\x04\x01+\xa0\x28\x30\x26\x04\x181.3.6.1.4.1.4203.1.9.1.1\x01\x01\xff\x04\x07\x30\x05\x0a\x01\x01\x04\x00",
    ),
    (
        "odd",
        b"\x30\x5b\x02\x01\x07\x63\x29\x04\x03o=x\x0a\x01\x02\x0a\x01\x00\x02\x01\x00\x02\x01\x00\x01\x01\x00\x87\x0bobjectClass\x30\x06\x04\x01*\x04\x01+\xa0\x2b\x30\x29\x04\x181.3.6.1.4.1.4203.1.9.1.1\x01\x01\xff\x04\x0a\x30\x08\x0a\x01\x01\x04\x03\xff\x00?",
    ),
    (
        "long",
        b"\x30\x81\x8c\x02\x01\x07\x63\x29\x04\x03o=x\x0a\x01\x02\x0a\x01\x00\x02\x01\x00\x02\x01\x00\x01\x01\x00\x87\x0bobjectClass\x30\x06\x04\x01*\x04\x01+\xa0\x5c\x30\x5a\x04\x181.3.6.1.4.1.4203.1.9.1.1\x01\x01\xff\x04\x3b\x30\x39\x0a\x01\x01\x04\x34rid=001,csn=20260101000000.000000Z#000000#001#000000",
    ),
];

/// The name of the request that the consumer makes.
pub(crate) fn requested(alloc: Global, consumer: &mut Consumer) -> Result<String, Fail> {
    let request = consumer.request(7, Mode::RefreshOnly)?;
    let name = name_of(alloc, &request);
    discard(request);
    name
}

fn name_of(alloc: Global, message: &Message) -> Result<String, Fail> {
    if message.id > 2_147_483_647 || !is_plain_search(&message.op) {
        return Err(Fail::from("another operation"));
    }
    let bytes = message.write(alloc)?;
    Ok(name_of_bytes(bytes.as_slice()).to_string(alloc)?)
}

fn name_of_bytes(bytes: &[u8]) -> &'static str {
    for (name, request) in &REQUESTS {
        if bytes == *request {
            return *name;
        }
    }
    "another"
}

/// Whether it is a search without limits for the entries with a type, which has a spelling.
fn is_plain_search(operation: &Protocol) -> bool
    ensures { IsTrue result → IsOfGrammar (operation_of operation.now) }
{
    match operation {
        Protocol::SearchRequest(asked) => {
            are_zero(asked.deref, asked.size_limit, asked.time_limit) && is_presence(&asked.filter)
        }
        _ => false,
    }
}

fn are_zero(deref: u8, size_limit: u32, time_limit: u32) -> bool
    ensures { IsTrue result → (deref ≡ 0) × (size_limit ≡ 0) × (time_limit ≡ 0) }
{
    deref == 0 && size_limit == 0 && time_limit == 0
}

pub(crate) fn is_presence(filter: &Filter) -> bool
    ensures { IsTrue result → depth (tree_of filter.now) ≤ 32 }
{
    matches!(filter, Filter::Present(_))
}
