//! What a served directory begins with.

ghost use Rattle.std.specs.Prelude.{
  ◌≡◌,
  ◌≢◌,
  ◌<◌,
  ◌≤◌,
  ℕ,
  ◌+◌,
  ◌*◌,
  ◌^◌,
  IfOk,
  IfSome,
  IsNone,
  IsSome,
  OnErr,
  is_some,
};
ghost use Rattle.directory_setup.specs.Setup.{
  Configures,
  CountsReadFaults,
  IsAskable,
  IsEmpty,
  IsReadConfig,
  IsServable,
  Loads,
  Makes,
  SetsUp,
  access_by,
  place_of,
  setup_of,
  sources,
};
ghost use Rattle.ldap_filter.specs.FilterTree.{depth, tree_of};
ghost use Rattle.sync_io.specs.Faults.{CountHasRisen};
ghost use Rattle.sync_provider.specs.Journal.{port_state};

use crate::filling::{Filling, fill};
use crate::refusal::{LineCause, SetupRefusal};
use crate::text_file::{FileText, read_file};
use crate::text_limits::too_long;
use dn_names::Dn;
use ldap_ber::{NoMemory, Octets, discard};
use ldap_session::Access;
use std::alloc::{AllocError, Global};
use std::sync::Wait;
use sync_config::{Config, ConfigFault, ConfigText, Upstream};
use sync_io::{Clock, Shelf, Words};
use sync_provider::{Kind, Provider};

/// A directory that is to be served.
#[derive(Drop)]
pub struct ReadyDirectory {
    pub provider: Provider,
    /// The address at which it is served.
    pub listen: ConfigText,
    /// Who may write.
    pub access: Access,
    /// How many connections are served at once.
    pub seats: u32,
    /// How many connections are served in all, or 0 without end.
    pub connections: u64,
    /// The directory that it follows.
    pub upstream: Option<Upstream>,
    /// How many connections to that are tried, or 0 without end.
    pub rounds: u64,
}

/// What a configuration led to.
#[derive(Drop)]
pub enum Setup {
    Ready(ReadyDirectory),
    Refused(SetupRefusal),
    /// A file could not be read, or no random word came.
    ReadFault,
}

/// A configuration, or why there is none.
#[derive(Drop)]
pub(crate) enum Configured {
    Config(Config),
    Refused(SetupRefusal),
    ReadFault,
}

/// What became of the file of a configuration.
#[derive(Clone, Copy, Debug, PartialEq, Eq)]
pub(crate) enum Loading {
    /// There is none, or its entries were added.
    Loaded,
    /// Its text is refused at this line.
    RefusedAt(u64, LineCause),
    NotRead,
}

/// How many words of 64 bits there are.
const WORDS: u128 = 18_446_744_073_709_551_616;

/// How many touches of entries a session log keeps, and how many messages a search may have
/// pending.
#[derive(Clone, Copy, Debug)]
pub(crate) struct DirectoryLimits {
    pub(crate) log: u64,
    pub(crate) queue: u64,
}

/// Who may write by a configuration.
fn access_of(
    alloc: Global,
    name: Option<Dn>,
    password: &Option<ConfigText>,
) -> Result<Access, NoMemory>
    ensures { IfOk result (λ access. access ≡ access_by name password.now) }
{
    let Some(name) = name else {
        return Ok(Access::Free);
    };
    match password {
        Some(password) => {
            let password = Octets::from_slice(alloc, password.as_str().as_bytes())?;
            Ok(Access::Named(name, password))
        }
        None => Ok(Access::Free),
    }
}

/// Reads the configuration of this name.
fn configure<R: Wait, F: Shelf>(
    rt: &R,
    alloc: Global,
    shelf: &mut F,
    name: &str,
) -> Result<Configured, NoMemory>
    ensures files { F.files shelf.new ≡ F.files shelf.old }
    ensures configures { IfOk result (Configures (F.files shelf.old) name.now) }
    ensures filter { IfOk result IsAskable }
    ensures faults { CountsReadFaults Configured.ReadFault result
        (F.shelf_fault_count shelf.old) (F.shelf_fault_count shelf.new) }
{
    let found = read_file(rt, alloc, shelf, name)?;
    let text = match found {
        FileText::Text(text) => text,
        FileText::Failed => return Ok(Configured::ReadFault),
    };
    let bytes = text.as_slice();
    if let Some(passed) = too_long(bytes) {
        let cause = LineCause::LimitReached(passed.limit);
        return Ok(Configured::Refused(SetupRefusal::AtLine(passed.line, cause)));
    }
    match Config::read(alloc, bytes) {
        Ok(config) => Ok(Configured::Config(config)),
        Err(fault) => {
            let refusal = refusal_by(fault)?;
            Ok(Configured::Refused(refusal))
        }
    }
}

/// The refusal of a configuration with this fault. It is `NoMemory` where memory ran out.
fn refusal_by(fault: ConfigFault) -> Result<SetupRefusal, NoMemory>
    ensures { IfOk result (λ refusal. (fault ≢ ConfigFault.NoMemory)
        × (refusal ≡ SetupRefusal.InConfig fault)) }
{
    match fault {
        ConfigFault::NoMemory => Err(AllocError),
        _ => Ok(SetupRefusal::InConfig(fault)),
    }
}

/// A history that no other directory has: two random words, or None where one did not come.
fn history_of<W: Words>(random: &mut W) -> Option<u128>
    ensures words { IfSome result (λ history. (first : ℕ) × (second : ℕ)
        × (history ≡ first * 2 ^ 64 + second)) }
    ensures failed { IsNone result
        → CountHasRisen (W.word_fault_count random.old) (W.word_fault_count random.new) }
    ensures sound { IsSome result → W.word_fault_count random.new ≡ W.word_fault_count random.old }
    ensures later { W.word_fault_count random.old ≤ W.word_fault_count random.new }
{
    let Some(first) = random.next_word() else {
        return None;
    };
    let Some(second) = random.next_word() else {
        return None;
    };
    Some(u128::from(first) * WORDS + u128::from(second))
}

/// Loads the file of this name, where there is one, into a directory.
fn load<R: Wait, F: Shelf, K: Clock>(
    rt: &R,
    alloc: Global,
    provider: &mut Provider,
    shelf: &mut F,
    name: &Option<ConfigText>,
    clock: &mut K,
) -> Result<Loading, NoMemory>
    ensures files { F.files shelf.new ≡ F.files shelf.old }
    ensures loads { IfOk result (λ loading. Loads (F.files shelf.old) name.now
        (port_state provider.old) loading (port_state provider.new)) }
    ensures faults { CountsReadFaults Loading.NotRead result
        (F.shelf_fault_count shelf.old) (F.shelf_fault_count shelf.new) }
{
    let Some(name) = name else {
        return Ok(Loading::Loaded);
    };
    let found = read_file(rt, alloc, shelf, name.as_str())?;
    let text = match found {
        FileText::Text(text) => text,
        FileText::Failed => return Ok(Loading::NotRead),
    };
    let bytes = text.as_slice();
    if let Some(passed) = too_long(bytes) {
        let cause = LineCause::LimitReached(passed.limit);
        return Ok(Loading::RefusedAt(passed.line, cause));
    }
    let filling = fill(alloc, provider, bytes, clock)?;
    match filling {
        Filling::Filled => Ok(Loading::Loaded),
        Filling::Refused(line, cause) => Ok(Loading::RefusedAt(line, cause)),
    }
}

/// The suffix of a directory, and how it takes its writes: one that follows another directory has
/// the entries of that, below no suffix of its own. A configuration has an upstream or a suffix.
fn place_of(alloc: Global, suffix: Option<Dn>, upstream: &Option<Upstream>) -> (Dn, Kind)
    ensures { (result.0, result.1) ≡ place_of suffix (is_some upstream.now) }
{
    match upstream {
        Some(_) => (Dn::empty(alloc), Kind::Replica),
        None => match suffix {
            Some(suffix) => (suffix, Kind::Root),
            None => (Dn::empty(alloc), Kind::Root),
        },
    }
}

fn queue_limits(log: u64, queue: u64) -> DirectoryLimits
    ensures { result ≡ record { log = log; queue = queue } }
{
    DirectoryLimits { log, queue }
}

/// The empty directory of a configuration, or None where no random word came.
fn first_of<W: Words>(
    alloc: Global,
    place: (Dn, Kind),
    sid: u16,
    limits: DirectoryLimits,
    random: &mut W,
) -> Result<Option<Provider>, NoMemory>
    requires { sid < 4096 }
    ensures first { IfOk result (λ found. IfSome found (IsEmpty place.0 place.1 sid limits)) }
    ensures failed { IfOk result (λ found. IsNone found
        → CountHasRisen (W.word_fault_count random.old) (W.word_fault_count random.new)) }
    ensures sound { IfOk result (λ found. IsSome found
        → W.word_fault_count random.new ≡ W.word_fault_count random.old) }
    ensures err { OnErr result (W.word_fault_count random.new ≡ W.word_fault_count random.old) }
    ensures later { W.word_fault_count random.old ≤ W.word_fault_count random.new }
{
    let Some(history) = history_of(random) else {
        return Ok(None);
    };
    let (suffix, kind) = place;
    let mut provider = Provider::new(alloc, suffix, sid, history, kind)?;
    provider.set_log_limit(limits.log);
    provider.set_queue_limit(limits.queue);
    Ok(Some(provider))
}

/// Makes the directory of a configuration, with the entries of its LDIF file.
fn make<R: Wait, F: Shelf, K: Clock, W: Words>(
    rt: &R,
    alloc: Global,
    config: Config,
    shelf: &mut F,
    clock: &mut K,
    random: &mut W,
) -> Result<Setup, NoMemory>
    requires read { IsReadConfig config }
    requires filter { IfSome config.upstream
        (λ upstream. depth (tree_of upstream.spec.filter) ≤ 32) }
    ensures makes { IfOk result (Makes (F.files shelf.old) config) }
    ensures servable { IsServable
        (sources (F.files shelf.old) (F.shelf_fault_count shelf.old)
        (W.word_fault_count random.old))
        (sources (F.files shelf.new) (F.shelf_fault_count shelf.new)
        (W.word_fault_count random.new))
        result }
{
    let Config {
        listen,
        suffix,
        sid,
        ldif,
        log_limit,
        queue_limit,
        bind_name,
        bind_password,
        seats,
        connections,
        upstream,
        rounds,
    } = config;
    let place = place_of(alloc, suffix, &upstream);
    let access = access_of(alloc, bind_name, &bind_password)?;
    let limits = queue_limits(log_limit, queue_limit);
    let Some(mut provider) = first_of(alloc, place, sid, limits, random)? else {
        return Ok(Setup::ReadFault);
    };
    match load(rt, alloc, &mut provider, shelf, &ldif, clock) {
        Ok(loading) => {
            let ready = ReadyDirectory {
                provider,
                listen,
                access,
                seats,
                connections,
                upstream,
                rounds,
            };
            Ok(setup_of(loading, ready))
        }
        Err(_) => {
            discard(provider);
            Err(AllocError)
        }
    }
}

/// What it leads to that a file was loaded into a directory, or was not.
fn setup_of(loading: Loading, ready: ReadyDirectory) -> Setup
    ensures { result ≡ setup_of loading ready }
{
    match loading {
        Loading::Loaded => Setup::Ready(ready),
        Loading::RefusedAt(line, cause) => {
            discard(ready);
            Setup::Refused(SetupRefusal::AtLine(line, cause))
        }
        Loading::NotRead => {
            discard(ready);
            Setup::ReadFault
        }
    }
}

/// Makes the directory of the configuration of this name, with the entries of its LDIF file. It is
/// `NoMemory` where memory runs out.
pub fn set_up<R: Wait, F: Shelf, K: Clock, W: Words>(
    rt: &R,
    alloc: Global,
    name: &str,
    shelf: &mut F,
    clock: &mut K,
    random: &mut W,
) -> Result<Setup, NoMemory>
    ensures sets_up { IfOk result (SetsUp (F.files shelf.old) name.now) }
    ensures servable { IsServable
        (sources (F.files shelf.old) (F.shelf_fault_count shelf.old)
        (W.word_fault_count random.old))
        (sources (F.files shelf.new) (F.shelf_fault_count shelf.new)
        (W.word_fault_count random.new))
        result }
{
    let configured = configure(rt, alloc, shelf, name)?;
    match configured {
        Configured::Config(config) => make(rt, alloc, config, shelf, clock, random),
        Configured::Refused(refusal) => Ok(Setup::Refused(refusal)),
        Configured::ReadFault => Ok(Setup::ReadFault),
    }
}
