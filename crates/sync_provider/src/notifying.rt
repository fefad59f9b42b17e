//! What a write sends to a search that goes on after its refresh (RFC 4533, section 3.4).

ghost use Rattle.std.specs.Prelude.{◌≡◌, ◌<◌, is_some, IfOk};
ghost use Rattle.csn_cookie.specs.Cookie.{cookie_text};
ghost use Rattle.entry_tree.specs.Selection.{search_of};
ghost use Rattle.sync_provider.specs.Staging as spec;

use crate::NoMemory;
use crate::content_change::ContentChange;
use crate::persist_message::PersistMessage;
use crate::selecting::selects;
use csn_cookie::Cookie;
use entry_tree::{Entry, EntryChange, Spec};
use std::alloc::Global;

/// The messages of a write with these touches: one for each identity that it changes in what the
/// search selects, in their order. The last has the cookie of the write.
#[tactic(auto, using(crate::proofs::Saying::last_push))]
pub(crate) fn messages_for(
    alloc: Global,
    search: &Spec,
    touched: &[EntryChange],
    cookie: Cookie,
) -> Result<Vec<PersistMessage>, NoMemory>
    requires rid { cookie.rid < 1000 }
    requires sid { cookie.sid < 4096 }
    ensures { IfOk result (λ messages.
        messages.items
        ≡ spec.messages_for (search_of search.now) touched.now (cookie_text cookie)) }
{
    let mut messages = notified_of_changes(alloc, search, touched)?;
    if let Some(last) = messages.pop() {
        messages.push(last.with_cookie(cookie))?;
    }
    Ok(messages)
}

/// The same without the cookie.
fn notified_of_changes(
    alloc: Global,
    search: &Spec,
    touched: &[EntryChange],
) -> Result<Vec<PersistMessage>, NoMemory>
    ensures { IfOk result (λ messages.
        messages.items ≡ spec.notified_of_changes (search_of search.now) touched.now) }
{
    let mut messages = Vec::new(alloc);
    for entry_change in touched {
        if let Some(change) = change_of(alloc, search, entry_change)? {
            messages.push(PersistMessage::new(alloc, change))?;
        }
    }
    Ok(messages)
}

/// What a touch changes in what the search selects, if anything.
#[tactic(auto, using(crate::proofs::Saying::said_still, crate::proofs::Saying::said_left))]
fn change_of(
    alloc: Global,
    search: &Spec,
    entry_change: &EntryChange,
) -> Result<Option<ContentChange>, NoMemory>
    ensures { IfOk result (λ change.
        spec.messages_of_change change
        ≡ spec.notified_of_change (search_of search.now) entry_change.entry.now) }
{
    let was_in = selects_found(alloc, search, &entry_change.before)?;
    let is_in = selects_found(alloc, search, &entry_change.after)?;
    match &entry_change.after {
        Some(entry) if is_in => Ok(Some(still_there(entry, was_in)?)),
        _ => left_of(entry_change, was_in),
    }
}

/// The entry is selected now, and was so before or not.
fn still_there(entry: &Entry, was_in: bool) -> Result<ContentChange, NoMemory>
    ensures { IfOk result (λ change. change ≡ spec.change_to was_in entry.now) }
{
    let entry = entry.copy()?;
    Ok(if was_in {
        ContentChange::Modified(entry)
    } else {
        ContentChange::Added(entry)
    })
}

/// What identity is selected no more, where it was selected before.
fn left_of(entry_change: &EntryChange, was_in: bool) -> Result<Option<ContentChange>, NoMemory>
    ensures { IfOk result (λ change.
        change
        ≡ spec.change_from was_in entry_change.entry.now.uuid entry_change.entry.now.before) }
{
    match &entry_change.before {
        Some(was) if was_in => Ok(Some(ContentChange::Deleted(entry_change.uuid, was.dn.copy()?))),
        _ => Ok(None),
    }
}

/// Whether there is an entry, and the search selects it.
fn selects_found(alloc: Global, search: &Spec, found: &Option<Entry>) -> Result<bool, NoMemory>
    ensures { IfOk result (λ selects_found.
        selects_found ≡ is_some (spec.if_selected (search_of search.now) found.now)) }
{
    match found {
        None => Ok(false),
        Some(entry) => selects(alloc, search, entry),
    }
}
