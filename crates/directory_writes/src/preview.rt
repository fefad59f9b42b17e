//! What an operation would do.

use csn_cookie::{Csn, CsnMaker};
use entry_tree::Touched;

/// What an operation that is accepted would do: the change number that it would get, the maker that
/// drew it, what the kept writes would weigh with it, and what it would change, in ascending order
/// of identity.
#[derive(Drop)]
pub struct Preview {
    pub csn: Csn,
    pub csn_maker: CsnMaker,
    /// In bytes.
    pub weight: u64,
    pub touched: Touched,
}
