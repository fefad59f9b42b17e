//! A write that only has to be put in place.

use crate::preview::Preview;
use crate::standing::Standing;

/// A write that was previewed, and what is kept beside the writes after it. Where there is room for
/// it, it is put in place without memory.
#[derive(Drop)]
pub struct Ready {
    pub preview: Preview,
    pub after: Standing,
}
