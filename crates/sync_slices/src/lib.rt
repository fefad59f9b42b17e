//! A refresh that is decided piece by piece, while writes go on (RFC 4533, section 3.3), as
//! definitions and their laws. There is no code here but the functions that carry the laws.
#![tactic(auto)]

ghost use Rattle.sync_slices.specs.Law.{SlicesDeliver, SlicesShow, SlicesEnd};

/// Whatever is written and handed out, what a search handed out, followed by what it has pending,
/// is all that it sends up to then, where its pieces have the numbers of writes of the hand-outs
/// that needed them. These pieces cut its walk.
pub fn slices_deliver()
    ensures { SlicesDeliver }
{}

/// Whatever is written between two hand-outs: wherever the messages that were handed out are cut
/// off, a copy has what it had before the search, or the content after some number of writes, not
/// fewer than those at the search's acceptance, with that number's cookie.
pub fn slices_show()
    ensures { SlicesShow }
{}

/// A refresh whose pieces are all decided leaves a copy with exactly the content after the writes
/// at the last piece, and with the cookie of their number.
pub fn slices_end()
    ensures { SlicesEnd }
{}
