//! Configurations.
ghost use Rattle.std.specs.Prelude.{◌≡◌, ◌≢◌, ◌≤◌, Ok, Err, IfOk, IfErr, IfSome, option_map};
ghost use Rattle.ldap_filter.specs.FilterTree.{depth, tree_of};
ghost use Rattle.sync_config.specs.Upstreams.{followed_value, upstream_of};
ghost use Rattle.toml.specs.View.{view};
ghost use Rattle.sync_config.specs.Settings.{
  config_of,
  config_value,
  rounds_in,
  suffix_of,
  sid_of,
  ldif_of,
  log_limit_of,
  queue_limit_of,
  bind_name_of,
  bind_password_of,
  seats_of,
  connections_of,
  IsReadAs,
  Refuses,
};
ghost use Rattle.sync_config.specs.declared.fault.ConfigFault.TheVariants.{NotToml, NoMemory};

use crate::keys::{
    Range, check_forbidden, check_needed, copied_text_at, has, name_at, number_at, required_text_at,
};
use crate::upstream::{Followed, upstream_in};
use crate::{ConfigFault, ConfigText, Upstream};
use dn_names::Dn;
use std::alloc::Global;
use toml::{Value, table_from_slice};

/// The configuration of a directory that is served.
#[derive(Drop)]
pub struct Config {
    /// The address at which it listens.
    pub listen: ConfigText,
    /// It is there where the directory follows no other one.
    pub suffix: Option<Dn>,
    /// The server id of its CSNs.
    pub sid: u16,
    /// The name of a file with its first entries.
    pub ldif: Option<ConfigText>,
    /// How many touches of entries its session log keeps.
    pub log_limit: u64,
    /// How many messages of later writes a search may have pending, and how many entries of its
    /// content may change before its refresh is decided to the end.
    pub queue_limit: u64,
    /// The name that may write, which has a password, or none where everyone may.
    pub bind_name: Option<Dn>,
    pub bind_password: Option<ConfigText>,
    /// How many clients are served at once.
    pub seats: u32,
    /// How many clients are served in all; 0 without end.
    pub connections: u64,
    /// The directory that it follows.
    pub upstream: Option<Upstream>,
    /// How many connections to that are tried; 0 without end, and where it follows none.
    pub rounds: u64,
}

impl Config {
    /// Reads a configuration. The first key that is refused is reported, in the order of the
    /// fields; keys that are not known are passed over.
    pub fn read(alloc: Global, text: &[u8]) -> Result<Config, ConfigFault>
        ensures ok { IfOk result (λ config. IsReadAs text.now (Ok config)) }
        ensures filter { IfOk result (λ config. IfSome config.upstream
            (λ upstream. depth (tree_of upstream.spec.filter) ≤ 32)) }
        ensures fault { IfErr result (Refuses text.now) }
    {
        match table_from_slice(alloc, text) {
            Ok(table) => read_document(alloc, &Value::Table(table)),
            Err(error) if error.is_memory() => Err(ConfigFault::NoMemory),
            Err(_) => Err(ConfigFault::NotToml),
        }
    }
}

/// The keys of a document, one after another.
fn read_document(alloc: Global, document: &Value) -> Result<Config, ConfigFault>
    ensures ok { IfOk result
        (λ config. config_of (view document.now) ≡ Ok (config_value config)) }
    ensures filter { IfOk result (λ config. IfSome config.upstream
        (λ upstream. depth (tree_of upstream.spec.filter) ≤ 32)) }
    ensures fault { IfErr result
        (λ fault. fault ≢ NoMemory → config_of (view document.now) ≡ Err fault) }
    ensures keyed { IfErr result (λ fault. fault ≢ NotToml) }
{
    let listen = required_text_at(alloc, document, "listen")?;
    let suffix = suffix_of(alloc, document)?;
    let sid = sid_of(alloc, document)?;
    let ldif = ldif_of(alloc, document)?;
    let log_limit = log_limit_of(alloc, document)?;
    let queue_limit = queue_limit_of(alloc, document)?;
    let bind_name = bind_name_of(alloc, document)?;
    let bind_password = bind_password_of(alloc, document)?;
    let seats = seats_of(alloc, document)?;
    let connections = connections_of(alloc, document)?;
    let followed = upstream_of(alloc, document)?;
    let (upstream, rounds) = parts_of(followed);
    Ok(Config {
        listen,
        suffix,
        sid,
        ldif,
        log_limit,
        queue_limit,
        bind_name,
        bind_password,
        seats,
        connections,
        upstream,
        rounds,
    })
}

/// What stands under `upstream`, if it is there.
fn upstream_of(alloc: Global, document: &Value) -> Result<Option<Followed>, ConfigFault>
    ensures ok { IfOk result (λ found. upstream_of (view document.now)
        ≡ Ok (option_map followed_value found)) }
    ensures filter { IfOk result (λ found. IfSome found (λ followed.
        depth (tree_of followed.upstream.spec.filter) ≤ 32)) }
    ensures fault { IfErr result
        (λ fault. fault ≢ NoMemory → upstream_of (view document.now) ≡ Err fault) }
    ensures keyed { IfErr result (λ fault. fault ≢ NotToml) }
{
    match document.get("upstream") {
        Some(table) => match upstream_in(alloc, table) {
            Ok(followed) => Ok(Some(followed)),
            Err(fault) => Err(fault),
        },
        None => Ok(None),
    }
}

/// An upstream, and how many connections to it are tried.
fn parts_of(followed: Option<Followed>) -> (Option<Upstream>, u64)
    ensures upstream { result.0 ≡ option_map (λ f. f.upstream) followed }
    ensures rounds { result.1 ≡ rounds_in (option_map followed_value followed) }
{
    match followed {
        Some(Followed { upstream, rounds }) => (Some(upstream), u64::from(rounds)),
        None => (None, 0),
    }
}

fn suffix_of(alloc: Global, document: &Value) -> Result<Option<Dn>, ConfigFault>
    ensures ok { IfOk result (λ found. suffix_of (view document.now) ≡ Ok found) }
    ensures fault { IfErr result
        (λ fault. fault ≢ NoMemory → suffix_of (view document.now) ≡ Err fault) }
    ensures keyed { IfErr result (λ fault. fault ≢ NotToml) }
{
    check_needed(alloc, document, "suffix", !has(document, "upstream"))?;
    name_at(alloc, document, "suffix")
}

fn sid_of(alloc: Global, document: &Value) -> Result<u16, ConfigFault>
    ensures ok { IfOk result (λ number. sid_of (view document.now) ≡ Ok number) }
    ensures fault { IfErr result
        (λ fault. fault ≢ NoMemory → sid_of (view document.now) ≡ Err fault) }
    ensures keyed { IfErr result (λ fault. fault ≢ NotToml) }
{
    let range = Range {
        least: 0,
        most: 4095,
        absent: 0,
    };
    Ok(number_at(alloc, document, "sid", range)? as u16)
}

fn ldif_of(alloc: Global, document: &Value) -> Result<Option<ConfigText>, ConfigFault>
    ensures ok { IfOk result (λ found. ldif_of (view document.now) ≡ Ok found) }
    ensures fault { IfErr result
        (λ fault. fault ≢ NoMemory → ldif_of (view document.now) ≡ Err fault) }
    ensures keyed { IfErr result (λ fault. fault ≢ NotToml) }
{
    check_forbidden(alloc, document, "ldif", has(document, "upstream"))?;
    copied_text_at(alloc, document, "ldif")
}

fn log_limit_of(alloc: Global, document: &Value) -> Result<u64, ConfigFault>
    ensures ok { IfOk result (λ number. log_limit_of (view document.now) ≡ Ok number) }
    ensures fault { IfErr result
        (λ fault. fault ≢ NoMemory → log_limit_of (view document.now) ≡ Err fault) }
    ensures keyed { IfErr result (λ fault. fault ≢ NotToml) }
{
    let range = Range {
        least: 0,
        most: 1_000_000,
        absent: 1_000,
    };
    Ok(u64::from(number_at(alloc, document, "log_limit", range)?))
}

fn queue_limit_of(alloc: Global, document: &Value) -> Result<u64, ConfigFault>
    ensures ok { IfOk result (λ number. queue_limit_of (view document.now) ≡ Ok number) }
    ensures fault { IfErr result
        (λ fault. fault ≢ NoMemory → queue_limit_of (view document.now) ≡ Err fault) }
    ensures keyed { IfErr result (λ fault. fault ≢ NotToml) }
{
    let range = Range {
        least: 0,
        most: 1_000_000,
        absent: 4_096,
    };
    Ok(u64::from(number_at(alloc, document, "queue_limit", range)?))
}

fn bind_name_of(alloc: Global, document: &Value) -> Result<Option<Dn>, ConfigFault>
    ensures ok { IfOk result (λ found. bind_name_of (view document.now) ≡ Ok found) }
    ensures fault { IfErr result
        (λ fault. fault ≢ NoMemory → bind_name_of (view document.now) ≡ Err fault) }
    ensures keyed { IfErr result (λ fault. fault ≢ NotToml) }
{
    check_needed(alloc, document, "bind_name", has(document, "bind_password"))?;
    name_at(alloc, document, "bind_name")
}

fn bind_password_of(alloc: Global, document: &Value) -> Result<Option<ConfigText>, ConfigFault>
    ensures ok { IfOk result (λ found. bind_password_of (view document.now) ≡ Ok found) }
    ensures fault { IfErr result
        (λ fault. fault ≢ NoMemory → bind_password_of (view document.now) ≡ Err fault) }
    ensures keyed { IfErr result (λ fault. fault ≢ NotToml) }
{
    check_needed(alloc, document, "bind_password", has(document, "bind_name"))?;
    copied_text_at(alloc, document, "bind_password")
}

fn seats_of(alloc: Global, document: &Value) -> Result<u32, ConfigFault>
    ensures ok { IfOk result (λ number. seats_of (view document.now) ≡ Ok number) }
    ensures fault { IfErr result
        (λ fault. fault ≢ NoMemory → seats_of (view document.now) ≡ Err fault) }
    ensures keyed { IfErr result (λ fault. fault ≢ NotToml) }
{
    let range = Range {
        least: 1,
        most: 64,
        absent: 16,
    };
    number_at(alloc, document, "seats", range)
}

fn connections_of(alloc: Global, document: &Value) -> Result<u64, ConfigFault>
    ensures ok { IfOk result (λ number. connections_of (view document.now) ≡ Ok number) }
    ensures fault { IfErr result
        (λ fault. fault ≢ NoMemory → connections_of (view document.now) ≡ Err fault) }
    ensures keyed { IfErr result (λ fault. fault ≢ NotToml) }
{
    let range = Range {
        least: 0,
        most: 1_000_000,
        absent: 0,
    };
    Ok(u64::from(number_at(alloc, document, "connections", range)?))
}
