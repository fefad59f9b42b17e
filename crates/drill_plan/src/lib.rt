//! What a drill does: writers that each work below a unit of their own, by numbers that are drawn
//! from a seed, and consumers that follow the directory.
#![tactic(auto)]

mod attributes;
mod following;
mod kinds;
mod laws;
mod naming;
mod numbers;
mod plan;
mod summary;
mod writer;

pub use following::{followed_spec, whole_spec};
pub use laws::{schedules_end_alike, schedules_print_alike};
pub use plan::DrillPlan;
pub use summary::{push_consumer_line, push_writes_line};
pub use writer::{DrillWriter, suffix_operation};
