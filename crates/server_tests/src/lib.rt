//! Tests of the server: its sessions over a provider by itself and links in memory, its connections
//! over a net in memory, and what its files lead to; and of clients: of a link, of searches and of
//! replicas, over links and nets in memory.
#![tactic(auto)]

#[cfg(test)]
mod assertions;
#[cfg(test)]
mod directory_setup_tests;
#[cfg(test)]
mod ldap_client_tests;
#[cfg(test)]
mod ldap_listener_tests;
#[cfg(test)]
mod ldap_search_tests;
#[cfg(test)]
mod ldap_server_tests;
#[cfg(test)]
mod replica_node_tests;
#[cfg(test)]
mod serving_tests;
