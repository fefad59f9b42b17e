//! What is sent is decoded.

ghost use Rattle.sync_wire.specs.Law.{SentIsDecoded};

/// The message that is sent for a message of a search says that message again to the search, with
/// the whole entry, the identities, the cookie and the ends of phases as they were sent.
pub fn sent_is_decoded()
    ensures { SentIsDecoded }
{}
