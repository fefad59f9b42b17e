//! A drill: writers and consumers made from a number, on threads of their own, at ports of one
//! directory. What they leave there is of the plan alone, whatever the threads did when.
#![tactic(auto)]

mod consumer_threads;
mod drilled;
mod drilling;
mod events;
mod following;
mod handing_out;
mod meeting;
mod preparing;
mod summing_up;
mod taking;
mod threads;
mod writing;

pub use drilled::{Drilled, RingEnds, Summary};
pub use drilling::drill;
