//! Object identifiers, as they are written in messages (RFC 4511, section 4.1.2).

/// The Sync Request control (RFC 4533, section 2.2).
pub const SYNC_REQUEST: &[u8] = b"1.3.6.1.4.1.4203.1.9.1.1";

/// The Sync State control (RFC 4533, section 2.3).
pub const SYNC_STATE: &[u8] = b"1.3.6.1.4.1.4203.1.9.1.2";

/// The Sync Done control (RFC 4533, section 2.4).
pub const SYNC_DONE: &[u8] = b"1.3.6.1.4.1.4203.1.9.1.3";

/// The Sync Info message (RFC 4533, section 2.5).
pub const SYNC_INFO: &[u8] = b"1.3.6.1.4.1.4203.1.9.1.4";

/// ManageDsaIT (RFC 3296, section 3).
pub const MANAGE_DSA_IT: &[u8] = b"2.16.840.1.113730.3.4.2";

/// The Cancel operation (RFC 3909, section 2.1).
pub const CANCEL: &[u8] = b"1.3.6.1.1.8";

/// The Notice of Disconnection (RFC 4511, section 4.4.1).
pub const NOTICE_OF_DISCONNECTION: &[u8] = b"1.3.6.1.4.1.1466.20036";
