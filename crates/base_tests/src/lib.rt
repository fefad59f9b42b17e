//! Tests of the layers below names and entries: elements of BER, the constants of LDAP, sources and
//! sinks, and the values of content synchronisation; change numbers and cookies, the session log,
//! the phases of a refresh, queues, rings and shared maps; and cells, to whose list of pairs passes
//! add in turns, in one thread and in several. Each file tests the crates that it is named for, by
//! their public calls.
#![tactic(auto)]

mod adding;
#[cfg(test)]
mod assertions;
#[cfg(test)]
mod csn_cookie_tests;
#[cfg(test)]
mod ldap_ber_tests;
#[cfg(test)]
mod ldap_constants_tests;
#[cfg(test)]
mod link_rings_tests;
mod pairs;
#[cfg(test)]
mod persist_queues_tests;
#[cfg(test)]
mod refresh_tests;
#[cfg(test)]
mod rows;
#[cfg(test)]
mod session_log_tests;
#[cfg(test)]
mod shared_map_tests;
#[cfg(test)]
mod sync_io_link_tests;
#[cfg(test)]
mod sync_io_tests;
#[cfg(test)]
mod sync_messages_tests;
#[cfg(test)]
mod turn_cell_tests;

pub use adding::{add_all, add_both, add_one, look};
pub use pairs::Pairs;
