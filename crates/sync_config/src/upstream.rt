//! The directory that another one follows.
ghost use Rattle.std.specs.Prelude.{◌≡◌, ◌≢◌, ◌≤◌, Ok, Err, IfOk, IfErr};
ghost use Rattle.ldap_filter.specs.FilterTree.{depth, tree_of};
ghost use Rattle.sync_config.specs.Upstreams.{address_of, base_of, filter_of, followed_value, options_of, rounds_of, scope_named, scope_of, upstream_in};
ghost use Rattle.sync_config.specs.declared.fault.ConfigFault.TheVariants.{NotToml, NoMemory};
ghost use Rattle.toml.specs.View.{view};

use crate::fault::bad_value;
use crate::keys::{Range, flag_under, number_under, required_under};
use crate::{ConfigFault, ConfigText};
use dn_names::{Dn, NameFault};
use entry_tree::{Scope, Spec};
use ldap_ber::discard;
use ldap_filter::{Filter, FilterFault};
use std::alloc::Global;
use toml::Value;

/// The directory that another one follows.
#[derive(Drop)]
pub struct Upstream {
    /// The address at which it is served.
    pub address: ConfigText,
    /// What of it is wanted.
    pub spec: Spec,
    /// Whether all is taken as new where the cookie does not serve (RFC 4533, section 2.2).
    pub reload_hint: bool,
}

/// An upstream, and how many connections to it are tried; 0 without end.
#[derive(Drop)]
pub(crate) struct Followed {
    pub(crate) upstream: Upstream,
    pub(crate) rounds: u32,
}

/// The keys of the table that may be absent.
#[derive(Clone, Copy, Debug)]
pub(crate) struct Options {
    pub(crate) reload_hint: bool,
    pub(crate) rounds: u32,
}

/// The upstream that a table describes, whose keys are judged in order.
#[tactic(auto, unfolding(crate::specs::Upstreams::upstream_in))]
pub(crate) fn upstream_in(alloc: Global, table: &Value) -> Result<Followed, ConfigFault>
    ensures ok { IfOk result (λ found. upstream_in (view table.now)
        ≡ Ok (followed_value found)) }
    ensures filter { IfOk result (λ found. depth (tree_of found.upstream.spec.filter) ≤ 32) }
    ensures fault { IfErr result
        (λ fault. fault ≢ NoMemory → upstream_in (view table.now) ≡ Err fault) }
    ensures keyed { IfErr result (λ fault. fault ≢ NotToml) }
{
    if !table.is_table() {
        return Err(bad_value(alloc, "upstream"));
    }
    let address = address_of(alloc, table)?;
    let base = base_of(alloc, table)?;
    let scope = scope_of(alloc, table)?;
    let options = options_of(alloc, table);
    let filter = match filter_of(alloc, table) {
        Ok(filter) => filter,
        Err(fault) => return Err(fault),
    };
    match options {
        Ok(
            Options {
                reload_hint,
                rounds,
            },
        ) => Ok(Followed {
            upstream: Upstream {
                address,
                spec: Spec {
                    base,
                    scope,
                    filter,
                },
                reload_hint,
            },
            rounds,
        }),
        Err(fault) => {
            discard(filter);
            Err(fault)
        }
    }
}

fn address_of(alloc: Global, table: &Value) -> Result<ConfigText, ConfigFault>
    ensures ok { IfOk result (λ address. address_of (view table.now) ≡ Ok address) }
    ensures fault { IfErr result
        (λ fault. fault ≢ NoMemory → address_of (view table.now) ≡ Err fault) }
    ensures keyed { IfErr result (λ fault. fault ≢ NotToml) }
{
    let text = required_under(alloc, table, "address", "upstream.address")?;
    Ok(ConfigText::from_str(alloc, text)?)
}

fn base_of(alloc: Global, table: &Value) -> Result<Dn, ConfigFault>
    ensures ok { IfOk result (λ base. base_of (view table.now) ≡ Ok base) }
    ensures fault { IfErr result
        (λ fault. fault ≢ NoMemory → base_of (view table.now) ≡ Err fault) }
    ensures keyed { IfErr result (λ fault. fault ≢ NotToml) }
{
    let text = required_under(alloc, table, "base", "upstream.base")?;
    match Dn::parse(alloc, text.as_bytes()) {
        Ok(base) => Ok(base),
        Err(NameFault::NoMemory) => Err(ConfigFault::NoMemory),
        Err(_) => Err(bad_value(alloc, "upstream.base")),
    }
}

fn scope_of(alloc: Global, table: &Value) -> Result<Scope, ConfigFault>
    ensures ok { IfOk result (λ scope. scope_of (view table.now) ≡ Ok scope) }
    ensures fault { IfErr result
        (λ fault. fault ≢ NoMemory → scope_of (view table.now) ≡ Err fault) }
    ensures keyed { IfErr result (λ fault. fault ≢ NotToml) }
{
    let text = required_under(alloc, table, "scope", "upstream.scope")?;
    match scope_named(text.as_bytes()) {
        Some(scope) => Ok(scope),
        None => Err(bad_value(alloc, "upstream.scope")),
    }
}

/// The scope of this name.
fn scope_named(text: &[u8]) -> Option<Scope>
    ensures { result ≡ scope_named text.now }
{
    if text == b"base".as_slice() {
        return Some(Scope::Base);
    }
    if text == b"one".as_slice() {
        return Some(Scope::One);
    }
    if text == b"sub".as_slice() {
        return Some(Scope::Sub);
    }
    None
}

fn filter_of(alloc: Global, table: &Value) -> Result<Filter, ConfigFault>
    ensures ok { IfOk result (λ filter. filter_of (view table.now) ≡ Ok (tree_of filter)) }
    ensures depth { IfOk result (λ filter. depth (tree_of filter) ≤ 32) }
    ensures fault { IfErr result
        (λ fault. fault ≢ NoMemory → filter_of (view table.now) ≡ Err fault) }
    ensures keyed { IfErr result (λ fault. fault ≢ NotToml) }
{
    let text = required_under(alloc, table, "filter", "upstream.filter")?;
    match Filter::read_text(alloc, text.as_bytes()) {
        Ok(filter) => Ok(filter),
        Err(FilterFault::NoMemory) => Err(ConfigFault::NoMemory),
        Err(_) => Err(bad_value(alloc, "upstream.filter")),
    }
}

fn options_of(alloc: Global, table: &Value) -> Result<Options, ConfigFault>
    ensures ok { IfOk result (λ options. options_of (view table.now) ≡ Ok options) }
    ensures fault { IfErr result
        (λ fault. fault ≢ NoMemory → options_of (view table.now) ≡ Err fault) }
    ensures keyed { IfErr result (λ fault. fault ≢ NotToml) }
{
    let reload_hint = flag_under(alloc, table, "reload_hint", "upstream.reload_hint")?;
    let rounds = rounds_of(alloc, table)?;
    Ok(Options {
        reload_hint,
        rounds,
    })
}

fn rounds_of(alloc: Global, table: &Value) -> Result<u32, ConfigFault>
    ensures ok { IfOk result (λ rounds. rounds_of (view table.now) ≡ Ok rounds) }
    ensures fault { IfErr result
        (λ fault. fault ≢ NoMemory → rounds_of (view table.now) ≡ Err fault) }
    ensures keyed { IfErr result (λ fault. fault ≢ NotToml) }
{
    let range = Range {
        least: 0,
        most: 1_000_000,
        absent: 0,
    };
    number_under(alloc, table, "rounds", "upstream.rounds", range)
}
