//! What a refresh reports of a content where it is known which entries were touched since the
//! client's cookie: the delete phase of a content update (RFC 4533, section 3.3.2). At its end the
//! client keeps each entry that was not reported.
#![tactic(auto)]

mod planning;

pub use planning::{plan, slice, slices_make_the_plan};
