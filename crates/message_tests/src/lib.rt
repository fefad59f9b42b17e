//! Tests of the messages of LDAP and their components, of what a session makes of them, of the
//! messages of a search, and of a consumer. Each file tests the crate that it is named for, by its
//! public calls.
#![tactic(auto)]

#[cfg(test)]
mod assertions;
#[cfg(test)]
mod ldap_messages_tests;
#[cfg(test)]
mod ldap_parts_tests;
#[cfg(test)]
mod ldap_session_tests;
#[cfg(test)]
mod messages;
#[cfg(test)]
mod plain_copy;
#[cfg(test)]
mod plain_tests;
#[cfg(test)]
mod requests;
#[cfg(test)]
mod rows;
#[cfg(test)]
mod sync_consumer_tests;
#[cfg(test)]
mod sync_wire_tests;
