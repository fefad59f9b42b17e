//! Commits, in words: units that are put, each its identity, `:` and its name, or other entries, as
//! `entry_of` has them; and `-` before an identity that is dropped.
ghost use Rattle.std.specs.Prelude.{◌≡◌, true, nat_le, IfOk};
ghost use Rattle.std.specs.List.{list_all};
ghost use Rattle.entry_tree.specs.Fitting.{is_within_entry_limit};
ghost use Rattle.entry_tree.specs.Sound.{is_sound_put};
ghost use Rattle.entry_tree.specs.State.{most_entry_weight};
ghost use Rattle.schema_rules.specs.Attributes.{weight_of, is_given};

use crate::rows::{number, push_counted, push_made, push_word};
use crate::tree_writes::{barred, csn_of};
use crate::writes::{raw_list, unit};
use csn_cookie::Csn;
use dn_names::Dn;
use entry_tree::{Entry, EntryList};
use ldap_ber::{NoMemory, discard};
use schema_rules::{Attrs, RawList};
use std::alloc::Global;
use std::test::Fail;
use sync_messages::IdList;
use sync_provider::{CommitFault, StagedCommit, SyncDirectory};

/// The CSN of each entry, which is of the provider with the number 2.
const STAMP: &[u8] = b"20260101000000.000000Z#000007#002#000000";

/// The most that the attributes of an entry weigh.
const MOST_WEIGHT: u64 = 65_536;

/// Reports `w` and the number of writes, or what rejects the commit.
pub(crate) fn commit(
    alloc: Global,
    provider: &mut SyncDirectory,
    of: &str,
    text: &mut String,
) -> Result<(), Fail> {
    let puts = puts_of(alloc, of)?;
    let drops = drops_of(alloc, of)?;
    match provider.commit(puts, drops, 0) {
        Ok(number) => push_counted(alloc, text, "w", number),
        Err(fault) => push_refusal(alloc, text, fault),
    }
}

/// Two commits, with ` & ` between them, all or none.
pub(crate) fn commit_both(
    alloc: Global,
    provider: &mut SyncDirectory,
    of: &str,
    text: &mut String,
) -> Result<(), Fail> {
    let (first, second) = of.split_once(" & ").ok_or(of)?;
    let first = staged(alloc, first)?;
    let second = staged(alloc, second)?;
    let commits = vec![in alloc; first, second]?;
    match provider.commit_each(commits, 0) {
        Ok(number) => push_counted(alloc, text, "w", number),
        Err(fault) => push_refusal(alloc, text, fault),
    }
}

fn staged(alloc: Global, of: &str) -> Result<StagedCommit, Fail>
    ensures sound { IfOk result (λ commit. list_all is_sound_put commit.puts ≡ true) }
    ensures light { IfOk result (λ commit. list_all is_within_entry_limit commit.puts ≡ true) }
{
    Ok(StagedCommit {
        puts: puts_of(alloc, of)?,
        drops: drops_of(alloc, of)?,
    })
}

/// Reports `same` and the numbers of two entries of one name, `limit` and a limit, or `root`.
fn push_refusal(alloc: Global, text: &mut String, fault: CommitFault) -> Result<(), Fail> {
    match fault {
        CommitFault::DuplicateName(one, other) => {
            push_made(text, format!(in alloc; "same{one},{other}"))
        }
        CommitFault::LimitReached(limit) => push_counted(alloc, text, "limit", limit),
        CommitFault::NotAReplica => push_word(text, "root"),
        CommitFault::NoMemory => Err(Fail::from("out of memory")),
    }
}

#[tactic(auto, using(ldap_ber::proofs::Lists::list_all_push))]
pub(crate) fn puts_of(alloc: Global, of: &str) -> Result<EntryList, Fail>
    ensures sound { IfOk result (λ puts. list_all is_sound_put puts ≡ true) }
    ensures light { IfOk result (λ puts. list_all is_within_entry_limit puts ≡ true) }
{
    let mut entries = EntryList::new(alloc);
    for put in of.split(' ') {
        if let Some((uuid, name)) = put.split_once(':') {
            entries.push(entry_of(alloc, number(uuid), name)?)?;
        }
    }
    Ok(entries)
}

pub(crate) fn drops_of(alloc: Global, of: &str) -> Result<IdList, NoMemory> {
    let mut uuids = IdList::new(alloc);
    for word in of.split(' ') {
        if let Some(uuid) = word.strip_prefix('-') {
            uuids.push(u128::from(number(uuid)))?;
        }
    }
    Ok(uuids)
}

/// The entry of an identity: a unit of this name, or `NUMBER:NAME|type=value;value|..`, with the
/// CSN of the write of that number.
fn entry_of(alloc: Global, uuid: u64, text: &str) -> Result<Entry, Fail>
    ensures sound { IfOk result (λ entry. is_sound_put entry ≡ true) }
    ensures light { IfOk result (λ entry. is_within_entry_limit entry ≡ true) }
{
    let (head, pieces) = barred(text);
    let csn = csn_before(alloc, head)?;
    let name = name_in(head);
    let attrs = attributes(alloc, given(alloc, name, pieces)?)?;
    Ok(Entry {
        uuid: u128::from(uuid),
        csn,
        dn: Dn::parse(alloc, name.as_bytes())?,
        attrs,
    })
}

/// The CSN of the write whose number stands before the name, or a CSN of no write.
fn csn_before(alloc: Global, head: &str) -> Result<Csn, Fail> {
    match head.split_once(':') {
        Some((count, _)) => csn_of(alloc, number(count)),
        None => Ok(Csn::parse(STAMP)?),
    }
}

/// The name, without the number before it.
fn name_in(head: &str) -> &str {
    match head.split_once(':') {
        Some((_, name)) => name,
        None => head,
    }
}

/// The attributes with bars between them, or those of the unit with this name.
fn given(alloc: Global, name: &str, pieces: &str) -> Result<RawList, NoMemory> {
    if !pieces.is_empty() {
        return raw_list(alloc, pieces, '|', ';');
    }
    let unit = unit(alloc, name)?;
    raw_list(alloc, &unit, ' ', ',')
}

#[tactic(auto, using(crate::proofs::Puts::sound_attributes))]
fn attributes(alloc: Global, list: RawList) -> Result<Attrs, Fail>
    ensures sound { IfOk result (λ attrs. list_all is_given attrs ≡ true) }
    ensures light { IfOk result (λ attrs. nat_le (weight_of attrs) most_entry_weight ≡ true) }
{
    let attrs = Attrs::read(alloc, &list);
    discard(list);
    match attrs {
        Ok(attrs) if attrs.weight() <= MOST_WEIGHT => Ok(attrs),
        Ok(_) => Err(Fail::from("too heavy")),
        Err(_) => Err(Fail::from("refused by their form")),
    }
}
