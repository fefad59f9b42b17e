//! Names that are known before an entry is read.

use dn_names::Dn;

/// Names that are known of identities. Whatever they are, an entry is read as the same one.
pub trait KnownNames {
    /// A name that is known of this identity, if any.
    fn name_of(&self, uuid: u128) -> Option<&Dn>;
}

/// No name is known.
#[derive(Clone, Copy, Debug)]
pub(crate) struct NoNames;

impl KnownNames for NoNames {
    fn name_of(&self, _uuid: u128) -> Option<&Dn> {
        None
    }
}
