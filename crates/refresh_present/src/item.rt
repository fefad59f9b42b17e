//! What is known of an entry when it is decided.
ghost use Rattle.std.specs.Prelude.{◌≡◌};
ghost use Rattle.refresh_present.specs.Present as spec;

/// An identity of a refresh.
#[derive(Clone, Copy, Debug, PartialEq, Eq)]
pub struct Item {
    /// The entryUUID (RFC 4530).
    pub uuid: u128,

    /// The number of the last write that touched the entry.
    pub touched: u64,

    /// Whether the entry is in the content that is asked for.
    pub selected: bool,
}

impl Item {
    /// Whether the client cannot have the entry as it is, where it has the content after write
    /// `after`, or none.
    pub(crate) fn is_new_to_client(&self, after: Option<u64>) -> bool
        ensures { result ≡ spec.is_new_to_client after self.now }
    {
        match after {
            None => true,
            Some(number) => number < self.touched,
        }
    }
}
