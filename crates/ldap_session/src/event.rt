//! What comes over a link.

use ldap_ber::Octets;

/// What comes over a link.
#[derive(Drop)]
pub enum LinkEvent {
    /// Bytes, and the time at which they came.
    Piece(Octets, u64),
    /// No byte came for a while.
    Quiet,
    /// No byte will come.
    End,
}
