//! What a refresh reports of a content where nothing says which entries left it (RFC 4533, section
//! 3.3): the initial content, and the present phase of a content update, at whose end the client
//! drops each entry that was not reported.
#![tactic(auto)]

mod decision;
mod item;
mod planning;

pub use decision::Decision;
pub use item::Item;
pub use planning::{NoMemory, plan, slice, slices_make_the_plan};
