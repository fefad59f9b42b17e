//! Why an element is refused.

/// What is wrong with an element.
#[derive(Clone, Copy, Debug, PartialEq, Eq)]
pub enum BerKind {
    /// The bytes end before the element does.
    Short,
    /// Its length is indefinite (X.690, section 8.1.3.6).
    Indefinite,
    /// Its length has more than four octets after the first.
    LongLength,
    /// It has another tag, or the tag number 31, after which more octets of a tag would follow
    /// (X.690, section 8.1.2.4).
    WrongTag,
    /// The body of an integer has no octet or more than eight.
    BadInteger,
    /// The body of a truth value has not one octet.
    BadBoolean,
    /// Bytes are left after the last element.
    Trailing,
}

/// A refusal.
#[derive(Clone, Copy, Debug, PartialEq, Eq)]
pub struct BerFault {
    pub kind: BerKind,
    /// The place of the first octet of the refused element, counted from 0.
    pub at: usize,
}
