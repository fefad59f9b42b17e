//! Why a round ended, as the dialler of its link says it to an operator.

use ldap_client::ClientFault;
use sync_consumer::PeerFault;
use sync_io::{Dial, FaultDetail};

/// The upstream ended the search.
pub(crate) fn report_end<D: Dial>(dial: &D, code: i64) {
    dial.report("SearchEnded", FaultDetail::Code(code));
}

/// What the upstream sent is refused. Nothing of the round is kept that was not committed.
pub(crate) fn report_fault<D: Dial>(dial: &D, fault: PeerFault) {
    match fault {
        PeerFault::PresentUnknown(uuid) => {
            dial.report("PresentUnknown", FaultDetail::Entry(uuid));
        }
        PeerFault::UuidDiffers(uuid, other) => {
            dial.report("UuidDiffers", FaultDetail::Entries(uuid, other));
        }
        PeerFault::OutOfPlace(tag) => {
            dial.report("OutOfPlace", FaultDetail::Number(u64::from(tag)));
        }
        PeerFault::BadValue => dial.report("BadValue", FaultDetail::Nothing),
        PeerFault::BadEntry(code) => {
            dial.report("BadEntry", FaultDetail::Code(i64::from(code)));
        }
        PeerFault::StageFull => dial.report("StageFull", FaultDetail::Nothing),
        PeerFault::DuplicateName(one, other) => {
            dial.report("DuplicateName", FaultDetail::Entries(one, other));
        }
    }
}

/// The link gives no more messages. One that was lost needs no line of its own here.
pub(crate) fn report_client_fault<D: Dial>(dial: &D, fault: ClientFault) {
    if let ClientFault::PeerMessage(place) = fault {
        dial.report("PeerMessage", FaultDetail::Number(place as u64));
    }
}
