//! Why a directory is not served.

use sync_config::ConfigFault;

/// Where a text becomes too long, and the limit that it passes there.
#[derive(Clone, Copy, Debug, PartialEq, Eq)]
pub struct TooLong {
    /// The first line has the number 1.
    pub line: u64,
    /// How many bytes, or how many lines, the text may have.
    pub limit: u64,
}

/// Why a text is refused at a line (RFC 2849).
#[derive(Clone, Copy, Debug, PartialEq, Eq)]
pub enum LineCause {
    /// It has no colon, continues nothing or gives a URL.
    BadLine,
    /// The value is not in the padded standard form of base64.
    BadBase64,
    /// The record is of another form, or is no add.
    BadChange,
    /// The add is answered with this result code.
    Refused(u32),
    /// The text passes this limit, in bytes or in lines.
    LimitReached(u64),
}

/// Why a directory is not served.
#[derive(Drop)]
pub enum SetupRefusal {
    /// A key of the configuration.
    InConfig(ConfigFault),
    /// A line of the configuration or of the LDIF file, the first of which has the number 1.
    AtLine(u64, LineCause),
}
