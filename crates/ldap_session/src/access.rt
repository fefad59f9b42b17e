//! Who may write.

use dn_names::Dn;
use ldap_ber::Octets;

/// Who may write.
#[derive(Drop)]
pub enum Access {
    /// Everyone.
    Free,
    /// Who is bound by this name with this password.
    Named(Dn, Octets),
}
