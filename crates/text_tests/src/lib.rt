//! Tests of what is text: keys of values and the schema, names, filters, LDIF and configurations.
//! Each file tests the crate that it is named for, by its public calls.
#![tactic(auto)]

#[cfg(test)]
mod assertions;
#[cfg(test)]
mod dn_names_tests;
#[cfg(test)]
mod ldap_filter_tests;
#[cfg(test)]
mod ldif_text_tests;
#[cfg(test)]
mod schema_rules_tests;
#[cfg(test)]
mod sync_config_tests;
#[cfg(test)]
mod text_keys_tests;
