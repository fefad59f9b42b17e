//! The tags of operations.

ghost use Rattle.std.specs.Prelude.{◌≡◌};
ghost use Rattle.sync_wire.specs.Kind as spec;

use ldap_messages::Protocol;
use schema_rules::Change;

/// The tag of the operation (RFC 4511, sections 4.2 to 4.13).
pub fn tag_of(operation: &Protocol) -> u8
    ensures { result ≡ spec.tag_of operation.now }
{
    match operation {
        Protocol::BindRequest { .. } => 0x60,
        Protocol::BindResponse { .. } => 0x61,
        Protocol::UnbindRequest => 0x42,
        Protocol::SearchRequest(_) => 0x63,
        Protocol::SearchResultEntry { .. } => 0x64,
        Protocol::SearchResultDone(_) => 0x65,
        Protocol::Write(change) => tag_of_change(change),
        Protocol::ModifyResponse(_) => 0x67,
        Protocol::AddResponse(_) => 0x69,
        Protocol::DelResponse(_) => 0x6B,
        Protocol::ModifyDnResponse(_) => 0x6D,
        Protocol::CompareRequest { .. } => 0x6E,
        Protocol::CompareResponse(_) => 0x6F,
        Protocol::AbandonRequest(_) => 0x50,
        Protocol::SearchResultReference(_) => 0x73,
        Protocol::ExtendedRequest { .. } => 0x77,
        Protocol::ExtendedResponse { .. } => 0x78,
        Protocol::IntermediateResponse { .. } => 0x79,
    }
}

fn tag_of_change(change: &Change) -> u8
    ensures { result ≡ spec.tag_of_change change.now }
{
    match change {
        Change::Add(_, _) => 0x68,
        Change::Delete(_) => 0x4A,
        Change::Modify(_, _) => 0x66,
        Change::Rename(_, _, _, _) => 0x6C,
    }
}
