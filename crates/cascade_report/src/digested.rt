//! Consumers with the digest of what they hold.
ghost use Rattle.std.specs.Prelude.{◌≡◌, ◌++◌, ℕ, nat_lt, List, None, Some, map, IfOk, OnOk, OnErr, IsTrue};
ghost use Rattle.entry_tree.specs.Selection.{search_of};
ghost use Rattle.ldap_messages.specs.Whole.{message_value};
ghost use Rattle.sha2.specs.Hashers.{Holds256};
ghost use Rattle.sha2.specs.Sha256.{sha256};
ghost use Rattle.sync_model.specs.Copy as model;
ghost use Rattle.sync_consumer.specs.Taking as taking;
ghost use Rattle.std.specs.List.{list_all};
ghost use Rattle.sync_consumer.specs.Staging.{is_above, up_to};
ghost use Rattle.cascade_report.specs.Digests.{prefix};
ghost use Rattle.cascade_report.specs.ReportLines.{text_of};

use crate::lines::entry_text;
use entry_tree::{Entry, Spec};
use ldap_ber::NoMemory;
use ldap_messages::Message;
use sha2::{Digest, Sha256};
use std::alloc::Global;
use std::marker::Model;
use sync_consumer::{Commit, Consumer, EntryMap, Taken};
use sync_messages::Mode;

/// A consumer, and how far the text of its entries is digested (SHA-256). What is digested is kept
/// as long as those entries stay, so that only what comes after them is digested anew.
pub struct DigestedConsumer {
    consumer: Consumer,
    /// Has taken the text of the entries up to this identity.
    hasher: Sha256,
    /// Nothing where it has taken none.
    reached: Option<u128>,
}

/// A call of its own, so that what drops a consumer is one step.
impl Drop for DigestedConsumer {
    fn drop(self) {
        let DigestedConsumer {
            consumer: _consumer,
            hasher: _hasher,
            reached: _,
        } = self;
    }
}

/// Contracts see the consumer.
impl Model for DigestedConsumer {
    ghost use Rattle.std.specs.Coded.{codes};
    ghost use Rattle.entry_tree.specs.FilterCode.{tree_code};
    ghost use Rattle.sync_consumer.specs.Taking.{ConsumerState};
    ghost use Rattle.cascade_report.specs.Digests.{HasDigested};

    ghost Value = { ConsumerState };

    ghost coded = { Prim.hlevel (codes, tree_code) };

    ghost view = { λ d. d.consumer };

    ghost invariant = { λ d. HasDigested d.hasher d.reached d.consumer.copy.held };
}

impl DigestedConsumer {
    /// Takes over this consumer, of whose entries none is digested yet.
    #[tactic(auto, using(crate::proofs::Digests::nothing_digested))]
    pub fn new(consumer: Consumer) -> DigestedConsumer
        ensures { result ≡ consumer }
    {
        DigestedConsumer {
            consumer,
            hasher: Sha256::new(),
            reached: None,
        }
    }

    /// Lends the consumer, to be read.
    pub fn inner(&self) -> &Consumer
        ensures { result.now ≡ self.now }
    {
        &self.consumer
    }

    /// A consumer that goes on as this one does, of whose entries none is digested yet. It is
    /// `NoMemory` where memory runs out.
    pub fn copy(&self) -> Result<DigestedConsumer, NoMemory>
        ensures { IfOk result (λ copy. copy ≡ self.now) }
    {
        Ok(DigestedConsumer::new(self.consumer.copy()?))
    }

    /// The digest of the text of its entries, of which those that stayed since it was last asked
    /// for, up to the first that did not, cost nothing. It is the one part of an event that goes
    /// through the others, and stands apart from what calls it, so that a profile shows its cost.
    /// It is `NoMemory` where memory runs out.
    #[inline(never)]
    #[tactic(auto, using(crate::proofs::Digests::all_digested, crate::proofs::Digests::digest_is, crate::proofs::Digests::same_digested))]
    pub fn digest(&mut self) -> Result<[u8; 32], NoMemory>
        ensures same { self.new ≡ self.old }
        ensures digest { IfOk result (λ digest. digest ≡ sha256 (text_of self.old.copy.held)) }
    {
        let entries = self.consumer.entries();
        let rest = entries_after(entries, self.reached)?;
        let digest = digest_with(*rest.allocator(), &mut self.hasher, &rest)?;
        self.reached = entries.greatest();
        Ok(digest)
    }

    /// Begins a search with this message ID and in this mode, as the consumer does. It is
    /// `NoMemory` where memory runs out, and the consumer is as before.
    #[tactic(auto, using(crate::proofs::Digests::digested_on))]
    pub fn request(&mut self, id: u32, mode: Mode) -> Result<Message, NoMemory>
        ensures message { IfOk result
            (λ message. message_value message ≡ taking.request_of self.old id mode) }
        ensures read_again { IfOk result (λ message. taking.IsReadAgain self.old mode) }
        ensures ok { OnOk result (self.new ≡ taking.requesting self.old id mode) }
        ensures err { OnErr result (self.new ≡ self.old) }
    {
        self.consumer.request(id, mode)
    }

    /// Takes a message, as the consumer does. Where a stage puts or drops some entry that is
    /// digested, the digest begins again.
    #[tactic(auto, using(crate::proofs::Digests::digested_on, crate::proofs::Digests::nothing_digested))]
    pub fn take(&mut self, message: &Message) -> Taken
        ensures exact { taking.Takes self.old.copy message.now self.new.copy result }
        ensures fit { taking.PutsFit result }
        ensures spec { self.new.spec ≡ self.old.spec }
        ensures reload { self.new.reload ≡ self.old.reload }
    {
        let taken = self.consumer.take(message);
        if !keeps_prefix(&taken, self.reached) {
            self.hasher = Sha256::new();
            self.reached = None;
        }
        taken
    }

    /// Ends the search, and drops what is staged.
    #[tactic(auto, using(crate::proofs::Digests::digested_on))]
    pub fn cut(&mut self)
        ensures { self.new ≡ record self.old { copy = taking.without_search self.old.copy } }
    {
        self.consumer.cut();
    }

    /// Loses the cookie, as the script says. The entries stay, and so does what is digested of
    /// them.
    #[tactic(auto, using(crate::proofs::Digests::digested_on))]
    pub fn lose_cookie(&mut self)
        ensures { self.new ≡ record self.old { copy = record self.old.copy { cookie = None } } }
    {
        self.consumer.lose_cookie();
    }

    /// Takes this text for the cookie. It is `NoMemory` where memory runs out, and the consumer is
    /// as before.
    #[tactic(auto, using(crate::proofs::Digests::digested_on))]
    pub fn set_cookie(&mut self, text: &[u8]) -> Result<(), NoMemory>
        ensures ok { OnOk result (self.new
            ≡ record self.old { copy = record self.old.copy { cookie = Some text.now } }) }
        ensures err { OnErr result (self.new ≡ self.old) }
    {
        self.consumer.set_cookie(text)
    }

    /// Wants this from now on, and keeps its entries.
    #[tactic(auto, using(crate::proofs::Digests::digested_on))]
    pub fn respec(&mut self, spec: Spec)
        ensures { self.new ≡ taking.wanting self.old (search_of spec) }
    {
        self.consumer.respec(spec);
    }
}

/// The entries above an identity, or all of them.
fn entries_after(entries: &EntryMap, reached: Option<u128>) -> Result<Vec<&Entry>, NoMemory>
    ensures { IfOk result (λ rest.
        prefix reached entries.now ++ map (λ e. e.now) rest.items ≡ entries.now) }
{
    match reached {
        Some(uuid) => entries.above(uuid),
        None => entries.list(),
    }
}

/// Takes the text of these entries, and answers the digest of all that the hasher has taken then.
fn digest_with(alloc: Global, hasher: &mut Sha256, entries: &[&Entry]) -> Result<[u8; 32], NoMemory>
    ensures taken { OnOk result
        ((m : List ℕ) → Holds256 hasher.old m
        → Holds256 hasher.new (m ++ text_of (map (λ e. e.now) entries.now))) }
    ensures digest { IfOk result (λ digest.
        (m : List ℕ) → Holds256 hasher.old m
        → digest ≡ sha256 (m ++ text_of (map (λ e. e.now) entries.now))) }
    ensures err { OnErr result (hasher.new ≡ hasher.old) }
{
    let mut longer = hasher.clone()?;
    take_each(alloc, &mut longer, entries)?;
    let digest = longer.clone()?.finalize();
    *hasher = longer;
    Ok(digest)
}

/// Takes the texts of these entries, one after another, so that no two are in memory at once.
fn take_each(alloc: Global, hasher: &mut Sha256, entries: &[&Entry]) -> Result<(), NoMemory>
    ensures { OnOk result
        ((m : List ℕ) → Holds256 hasher.old m
        → Holds256 hasher.new (m ++ text_of (map (λ e. e.now) entries.now))) }
{
    for entry in entries {
        let text = entry_text(alloc, entry)?;
        hasher.update(&text);
    }
    Ok(())
}

/// Whether a message left the entries up to an identity as they were, by what came of it.
fn keeps_prefix(taken: &Taken, reached: Option<u128>) -> bool
    ensures { IsTrue result
        → (before after : model.Copy) → taking.KeepsEntries before after taken.now
        → prefix reached after.held ≡ prefix reached before.held }
{
    match reached {
        Some(uuid) => is_beyond(taken, uuid),
        None => true,
    }
}

/// Whether no entry up to the identity was put or dropped, by what came of a message.
fn is_beyond(taken: &Taken, uuid: u128) -> bool
    ensures { IsTrue result
        → (before after : model.Copy) → taking.KeepsEntries before after taken.now
        → up_to uuid after.held ≡ up_to uuid before.held }
{
    match taken {
        Taken::Stored(commit) => changes_beyond(commit, uuid),
        Taken::Copied(commit) => changes_beyond(commit, uuid),
        Taken::Staged => true,
        Taken::Over(_) => true,
        Taken::Fault(_) => true,
        Taken::NoMemory => true,
    }
}

/// Whether all that a stage put and dropped is above the identity.
fn changes_beyond(commit: &Commit, uuid: u128) -> bool
    ensures { IsTrue result → taking.IsBeyond uuid commit.now }
{
    are_beyond(commit.puts.list(), uuid) && are_above(commit.drops.list(), uuid)
}

/// Whether each entry is above the identity.
fn are_beyond(entries: &[Entry], uuid: u128) -> bool
    ensures { result ≡ is_above uuid entries.now }
{
    entries.iter().all(|entry| uuid < entry.uuid)
}

/// Whether each identity is above this one.
fn are_above(identities: &[u128], uuid: u128) -> bool
    ensures { result ≡ list_all (nat_lt uuid) identities.now }
{
    identities.iter().all(|identity| uuid < *identity)
}
