//! What is reported of a message that was taken.
ghost use Rattle.std.specs.Prelude.{◌≡◌, option_map};
ghost use Rattle.cascade_exchange.specs.Exchange.{stored_number};
ghost use Rattle.cascade_exchange.specs.Naming.{peer_name};

use cascade_nodes::ScriptProvider;
use csn_cookie::Cookie;
use sync_consumer::PeerFault;

/// The name of the fault of bytes that are no message.
pub const BAD_MESSAGE: &[u8] = b"BadMessage";

/// The name of the fault of a message that has no place where it comes.
pub const OUT_OF_PLACE: &[u8] = b"OutOfPlace";

/// The name of a fault.
pub fn fault_name(fault: PeerFault) -> &'static [u8]
    ensures { result.now ≡ peer_name fault }
{
    match fault {
        PeerFault::PresentUnknown(_) => b"PresentUnknown",
        PeerFault::UuidDiffers(_, _) => b"UuidDiffers",
        PeerFault::OutOfPlace(_) => b"OutOfPlace",
        PeerFault::BadValue => b"BadValue",
        PeerFault::BadEntry(_) => b"BadEntry",
        PeerFault::StageFull => b"StageFull",
        PeerFault::DuplicateName(_, _) => b"DuplicateName",
    }
}

/// How many of the provider's writes have a CSN that is not greater than that of the cookie.
pub fn stored_number(provider: &ScriptProvider, cookie: Option<&[u8]>) -> u64
    ensures { result
        ≡ stored_number provider.now.directory (option_map (λ text. text.now) cookie.entry) }
{
    match cookie {
        Some(text) => match Cookie::parse(text) {
            Ok(cookie) => provider.upto(cookie.csn),
            Err(_) => 0,
        },
        None => 0,
    }
}
