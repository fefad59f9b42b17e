//! What stands first in some bytes.

use ldap_session::Ended;

/// What stood first in some bytes.
#[derive(Clone, Copy, Debug, PartialEq, Eq)]
pub(crate) enum FirstFrame {
    /// Less than a whole message.
    Rest,
    /// A message of n bytes, which was answered.
    Message(usize),
    /// What ended the session.
    Over(Ended),
}
