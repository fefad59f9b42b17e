//! How a directory is served to those who ask for it over a net.

ghost use Rattle.std.specs.Prelude.{◌≡◌, ◌++◌, IfOk, OnErr};
ghost use Rattle.ldap_client.specs.Links.{link_by};
ghost use Rattle.ldap_listener.specs.Sessions.{seen_by};
ghost use Rattle.syncrepl_tool.specs.Serve.{
  EndsServing,
  config_fault_text,
  line_cause_text,
  line_status,
  net_fault_text,
  outside,
  refusal_status,
  setup_refusal_text,
};
ghost use Rattle.syncrepl_tool.specs.Serving.{net_view};
ghost use Rattle.syncrepl_tool.specs.Texts.{Says};

use crate::run::{Status, end_with, read_fault, with_number};
use crate::serving::serve_ready;
use directory_setup::{LineCause, Setup, SetupRefusal, set_up};
use ldap_ber::NoMemory;
use ldap_server::Gate;
use std::alloc::{AllocError, Global};
use std::sync::Wait;
use std::thread::Threads;
use sync_config::ConfigFault;
use sync_io::{Clock, Net, NetFault, Shelf, Sink, Words};

/// Serves the directory whose configuration stands in the file of this name, to the end of its last
/// connection. Where the configuration names another directory, that is followed meanwhile. It is
/// `NoMemory` where memory runs out.
pub fn serve_with<
    R: Threads + Wait + Sync,
    E: Sink,
    F: Shelf,
    N: Net,
    K: Clock,
    W: Words,
    G: Gate + Sync,
>(
    rt: &R,
    alloc: Global,
    name: &str,
    errors: &mut E,
    shelf: &mut F,
    net: &mut N,
    clock: &mut K,
    random: &mut W,
    gate: &G,
) -> Result<Status, NoMemory>
    ensures serves { EndsServing
        (net_view
        (seen_by N.Link.bytes_left N.Link.bytes_read N.Link.bytes_held
        N.Link.read_fault_count N.Link.write_fault_count)
        (link_by N.Caller.Link.bytes_left N.Caller.Link.bytes_read N.Caller.Link.bytes_held
        N.Caller.Link.read_fault_count N.Caller.Link.write_fault_count)
        N.Caller.dialled)
        name.now
        (outside (E.bytes_held errors.old) (E.write_fault_count errors.old)
        (F.files shelf.old) (F.shelf_fault_count shelf.old)
        (N.served net.old) (N.net_fault_count net.old) (W.word_fault_count random.old))
        (outside (E.bytes_held errors.new) (E.write_fault_count errors.new)
        (F.files shelf.new) (F.shelf_fault_count shelf.new)
        (N.served net.new) (N.net_fault_count net.new) (W.word_fault_count random.new))
        result }
    // Files are only read.
    ensures files { F.files shelf.new ≡ F.files shelf.old }
    // Where there is no memory nothing was said.
    ensures unsaid { OnErr result (errors.new ≡ errors.old) }
{
    let setup = set_up(rt, alloc, name, shelf, clock, random)?;
    match setup {
        Setup::Ready(ready) => serve_ready(rt, alloc, ready, errors, net, *clock, gate),
        Setup::Refused(refusal) => refuse(alloc, errors, &refusal),
        Setup::ReadFault => Ok(read_fault(errors)),
    }
}

/// Says that the net failed, unless memory ran out.
pub(crate) fn net_failed<E: Sink>(errors: &mut E, fault: NetFault) -> Result<Status, NoMemory>
    ensures says { IfOk result (λ status. (fault ≡ NetFault.Failed) × (status.code ≡ 7)
        × Says net_fault_text
        (E.bytes_held errors.old) (E.bytes_held errors.new)
        (E.write_fault_count errors.old) (E.write_fault_count errors.new)) }
    ensures unsaid { OnErr result (errors.new ≡ errors.old) }
    ensures memory { OnErr result (fault ≡ NetFault.NoMemory) }
{
    match fault {
        NetFault::Failed => Ok(net_fault(errors)),
        NetFault::NoMemory => Err(AllocError),
    }
}

#[tactic(auto, unfolding(crate::specs::Serve::net_fault_text))]
pub(crate) fn net_fault<E: Sink>(errors: &mut E) -> Status
    ensures code { result.code ≡ 7 }
    ensures says { Says net_fault_text
        (E.bytes_held errors.old) (E.bytes_held errors.new)
        (E.write_fault_count errors.old) (E.write_fault_count errors.new) }
{
    end_with(errors, b"syncrepl: net fault\n", 7)
}

/// Says why the directory is not served.
fn refuse<E: Sink>(
    alloc: Global,
    errors: &mut E,
    refusal: &SetupRefusal,
) -> Result<Status, NoMemory>
    ensures says { IfOk result (λ status. (status.code ≡ refusal_status refusal.now)
        × Says (setup_refusal_text refusal.now)
        (E.bytes_held errors.old) (E.bytes_held errors.new)
        (E.write_fault_count errors.old) (E.write_fault_count errors.new)) }
    ensures unsaid { OnErr result (errors.new ≡ errors.old) }
{
    let text = refusal_text(alloc, refusal)?;
    Ok(end_with(errors, &text, refusal_status(refusal)))
}

/// The status of a refusal.
fn refusal_status(refusal: &SetupRefusal) -> u8
    ensures { result ≡ refusal_status refusal.now }
{
    match refusal {
        SetupRefusal::InConfig(_) => 3,
        SetupRefusal::AtLine(_, cause) => line_status(*cause),
    }
}

fn line_status(cause: LineCause) -> u8
    ensures { result ≡ line_status cause }
{
    match cause {
        LineCause::LimitReached(_) => 8,
        LineCause::BadLine | LineCause::BadBase64 | LineCause::BadChange | LineCause::Refused(_) =>
            3,
    }
}

/// The text of a refusal.
#[tactic(auto, unfolding(crate::specs::Serve::setup_refusal_text))]
fn refusal_text(alloc: Global, refusal: &SetupRefusal) -> Result<Vec<u8>, NoMemory>
    ensures { IfOk result (λ text. text.items ≡ setup_refusal_text refusal.now) }
{
    match refusal {
        SetupRefusal::InConfig(fault) => {
            let name = config_fault_text(alloc, fault)?;
            let mut text = b"syncrepl: config: ".to_vec(alloc)?;
            text.extend_from_slice(&name)?;
            text.push(b'\n')?;
            Ok(text)
        }
        SetupRefusal::AtLine(line, cause) => {
            let place = format!(in alloc; "syncrepl: line {line}: ")?;
            let name = line_cause_text(alloc, *cause)?;
            let mut text = place.as_bytes().to_vec(alloc)?;
            text.extend_from_slice(&name)?;
            text.push(b'\n')?;
            Ok(text)
        }
    }
}

/// The name of a fault, with its key.
#[tactic(auto, unfolding(crate::specs::Serve::config_fault_text))]
fn config_fault_text(alloc: Global, fault: &ConfigFault) -> Result<Vec<u8>, NoMemory>
    ensures { IfOk result (λ text. text.items ≡ config_fault_text fault.now) }
{
    match fault {
        ConfigFault::NotToml => b"NotToml".to_vec(alloc),
        ConfigFault::MissingKey(key) => with_key(alloc, b"MissingKey ", key.as_str()),
        ConfigFault::BadValue(key) => with_key(alloc, b"BadValue ", key.as_str()),
        ConfigFault::NoMemory => b"NoMemory".to_vec(alloc),
    }
}

/// A name, and then a key.
fn with_key(alloc: Global, name: &[u8], key: &str) -> Result<Vec<u8>, NoMemory>
    ensures { IfOk result (λ text. text.items ≡ name.now ++ key.now) }
{
    let mut text = name.to_vec(alloc)?;
    text.extend_from_slice(key.as_bytes())?;
    Ok(text)
}

/// The name of a cause, with its code or limit.
#[tactic(auto, unfolding(crate::specs::Serve::line_cause_text))]
fn line_cause_text(alloc: Global, cause: LineCause) -> Result<Vec<u8>, NoMemory>
    ensures { IfOk result (λ text. text.items ≡ line_cause_text cause) }
{
    match cause {
        LineCause::BadLine => b"BadLine".to_vec(alloc),
        LineCause::BadBase64 => b"BadBase64".to_vec(alloc),
        LineCause::BadChange => b"BadChange".to_vec(alloc),
        LineCause::Refused(code) => with_number(alloc, b"Refused ", u64::from(code)),
        LineCause::LimitReached(limit) => with_number(alloc, b"LimitReached ", limit),
    }
}
