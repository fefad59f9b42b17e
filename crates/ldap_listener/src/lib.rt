//! Serves the connections of a net, each on a thread of its own, over one directory.
//!
//! A connection takes a seat: the pass of a directory's port. Its thread hands pass and link back
//! when the session is over; the link is released before the seat is free again.
#![tactic(auto)]

mod accepting;
mod bell;
mod beside;
mod collecting;
mod ended_connection;
mod listening;
mod seat;
mod server;
mod serving;

pub use beside::{Replicated, serve_replica};
pub use ended_connection::{EndedConnection, ServesOne};
pub use listening::{Limits, serve_directory};
pub use seat::Seat;
