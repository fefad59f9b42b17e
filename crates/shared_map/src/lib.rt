//! Ordered maps whose copies share their nodes: a copy counts one reference up, and a change makes
//! the nodes on the way to its place anew, so that the other copies stay what they were. Nodes that
//! no other map shares are changed where they stand.
#![tactic(auto)]

mod balance;
mod crossing;
mod in_place;
mod nodes;
mod ordered;
mod placing;
mod queries;
mod seeking;
mod taking;
mod taking_out;
mod walking;

pub use crossing::{map_is_sent, map_is_shared};
pub use nodes::MapPair;
pub use ordered::SharedMap;
pub use queries::Query;
