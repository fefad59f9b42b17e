//! What a refresh reports of one entry.

/// What a refresh reports of the entry of an identity (RFC 4533, section 2.3).
#[derive(Clone, Copy, Debug, PartialEq, Eq)]
pub enum Decision {
    /// The entry is sent whole.
    Send(u128),

    /// The entry is named as one that is still in the content, as the client has it.
    Present(u128),

    /// The entry is named as one that is not in the content.
    Delete(u128),
}
