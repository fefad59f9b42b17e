//! What an event does to a consumer and its provider.
ghost use Rattle.std.specs.Prelude.{◌≡◌, true, false, [], None, is_some, IfOk, IfSome, OnErr};
ghost use Rattle.sync_provider.specs.Returning.{HasNoWriteSince};
ghost use Rattle.cascade_exchange.specs.Exchange.{agreement_of, part_of};
ghost use Rattle.cascade_exchange.specs.Exchange.{is_stepwise, moves_searches};
ghost use Rattle.cascade_nodes.specs.Ours.{IsOurs};
ghost use Rattle.cascade_exchange.specs.Parts as parts;
ghost use Rattle.cascade_exchange.specs.Parts.{AreAsBefore, IsKeptIfAny, BringsBack, IsUntouched, KeepsOthers, Performs};
ghost use Rattle.cascade_exchange.specs.Parts.{consumer_back, opened_since, provider_back, search_back};

use crate::aside::Aside;
use crate::cookies::{lose_cookie, set_cookie};
use crate::cutting::{close, cut};
use crate::opening::{cut_if_busy, open_search};
use crate::receiving::take;
use crate::respeccing::respec;
use crate::sending::send;
use crate::settling::settle;
use cascade_nodes::{ConsumerNode, ProviderNode, ScriptProvider};
use cascade_report::{Report, StoredStage};
use cascade_script::Cause;
use entry_tree::Spec;
use ldap_ber::{NoMemory, Octets, discard};
use std::alloc::Global;
use sync_messages::Mode;
use sync_provider::SearchSnapshot;

/// What an event does to a consumer and its provider.
#[derive(Drop)]
pub enum Exchange {
    /// A search that ends with its refresh, or goes on after it, is opened.
    Open(Mode),
    /// This many messages of the search go into the link.
    Send(u64),
    /// This many messages are taken from the link.
    Take(u64),
    /// The search, and what the link holds, is dropped.
    Cut,
    /// The consumer is brought up to its provider.
    Settle,
    /// The consumer loses its cookie.
    LoseCookie,
    /// The consumer gets this text for its cookie.
    SetCookie(Octets),
    /// A busy consumer is cut.
    CutIfBusy,
    /// A busy consumer is cut, and wants this from now on.
    Respec(Spec),
}

impl Exchange {
    /// Whether it is done in steps, of which a later one can be refused.
    fn is_stepwise(&self) -> bool
        ensures { result ≡ is_stepwise self.now }
    {
        match self {
            Exchange::Open(_) | Exchange::Send(_) | Exchange::Take(_) | Exchange::Settle => true,
            Exchange::Cut
            | Exchange::LoseCookie
            | Exchange::SetCookie(_)
            | Exchange::CutIfBusy
            | Exchange::Respec(_) => false,
        }
    }

    /// Whether a step of it can change the provider's searches before a later one is refused.
    fn moves_searches(&self) -> bool
        ensures { result ≡ moves_searches self.now }
    {
        match self {
            Exchange::Open(_) | Exchange::Send(_) | Exchange::Settle => true,
            Exchange::Take(_)
            | Exchange::Cut
            | Exchange::LoseCookie
            | Exchange::SetCookie(_)
            | Exchange::CutIfBusy
            | Exchange::Respec(_) => false,
        }
    }

    /// Does it, and puts its lines at the end. Where a taking gives a search up, how it stood is
    /// kept. After a refusal both are as before, unless it is done in steps.
    pub(crate) fn perform(
        self,
        alloc: Global,
        provider: &mut ScriptProvider,
        consumer_node: &mut ConsumerNode,
        kept: &mut Aside<SearchSnapshot>,
        out: &mut Report,
    ) -> Result<(), Cause>
        requires needed { moves_searches self ≡ true → kept.old ≡ None
            → consumer_node.old.search ≡ None }
        ensures does { parts.Does
            (part_of self (agreement_of provider.old consumer_node.old out.old.lineage))
            out.old (agreement_of provider.new consumer_node.new out.old.lineage) out.new result }
        ensures provider { KeepsOthers
            provider.old consumer_node.old provider.new consumer_node.new }
        ensures kept { IsKeptIfAny provider.old consumer_node.old.search kept.old
            → IsKeptIfAny provider.old consumer_node.old.search kept.new }
        ensures untouched { is_stepwise self ≡ true
            → IsUntouched kept.new consumer_node.old.search provider.old provider.new }
        ensures err { is_stepwise self ≡ false → OnErr result
            (AreAsBefore provider.old consumer_node.old provider.new consumer_node.new) }
    {
        match self {
            Exchange::Open(mode) => open_search(alloc, provider, consumer_node, mode, out),
            Exchange::Send(count) => send(alloc, provider, consumer_node, count, out),
            Exchange::Take(count) => take(alloc, provider, consumer_node, count, kept, out),
            Exchange::Cut => cut(provider, consumer_node, out),
            Exchange::Settle => settle(alloc, provider, consumer_node, out),
            Exchange::LoseCookie => {
                lose_cookie(consumer_node);
                Ok(())
            }
            Exchange::SetCookie(text) => set_cookie(alloc, consumer_node, text),
            Exchange::CutIfBusy => cut_if_busy(provider, consumer_node, out),
            Exchange::Respec(wanted) => respec(provider, consumer_node, wanted, out),
        }
    }
}

/// What brings a provider and its consumer back to one moment, from all that an exchange can have
/// changed by then.
#[derive(Drop)]
pub struct Snapshot {
    /// The search that the consumer had open.
    search: Option<u64>,
    /// How that search stood. Where this is not kept, none was changed but one that the consumer
    /// opened since.
    own: Aside<SearchSnapshot>,
    /// How the consumer stood, unless it is as it was.
    consumer_node: Aside<ConsumerNode>,
}

impl Snapshot {
    /// What has to be kept before such an exchange. It is `NoMemory` where memory runs out.
    fn before(
        alloc: Global,
        exchange: &Exchange,
        provider: &ScriptProvider,
        consumer_node: &ConsumerNode,
    ) -> Result<Snapshot, NoMemory>
        ensures search { IfOk result (λ before. before.search ≡ consumer_node.now.search) }
        ensures own { IfOk result (λ before.
            IsKeptIfAny provider.now consumer_node.now.search before.own) }
        ensures needed { IfOk result (λ before. moves_searches exchange.now ≡ true
            → before.own ≡ None → consumer_node.now.search ≡ None) }
        ensures consumer_node { IfOk result (λ before.
            IfSome before.consumer_node (λ was. was ≡ consumer_node.now)) }
        ensures steps { IfOk result (λ before.
            is_some before.consumer_node ≡ is_stepwise exchange.now) }
    {
        let search = consumer_node.search;
        Ok(Snapshot {
            search,
            own: search_before(alloc, exchange, provider, search)?,
            consumer_node: consumer_before(alloc, exchange, consumer_node)?,
        })
    }

    /// Brings both back to this moment, since which the provider got no write.
    pub fn restore(self, provider: &mut ScriptProvider, consumer_node: &mut ConsumerNode)
        requires no_write { IfSome self.own (HasNoWriteSince provider.old.directory) }
        requires ours { IfSome self.own (λ own. IfSome own.search IsOurs) }
        ensures provider { provider.new ≡ provider_back self provider.old consumer_node.old }
        ensures consumer_node { consumer_node.new
            ≡ consumer_back self.consumer_node consumer_node.old }
    {
        let own = self.own.into_inner();
        let before = self.consumer_node.into_inner();
        bring_search_back(provider, own, self.search, consumer_node.search);
        bring_consumer_back(consumer_node, before);
    }
}

/// Closes the search that a consumer has open now, and brings back the one that is kept. Where none
/// is kept, the one that it opened since is closed.
#[tactic(auto, using(crate::proofs::Others::directory_stays, crate::proofs::Performing::still_unwritten))]
fn bring_search_back(
    provider: &mut ScriptProvider,
    own: Option<SearchSnapshot>,
    before: Option<u64>,
    now: Option<u64>,
)
    requires no_write { IfSome own (HasNoWriteSince provider.old.directory) }
    requires ours { IfSome own (λ own. IfSome own.search IsOurs) }
    ensures { provider.new ≡ search_back own before now provider.old }
{
    let Some(own) = own else {
        close(provider, opened_since(before, now));
        return;
    };
    close(provider, now);
    provider.return_to_search(own);
}

/// Brings a consumer back to what it was, where that is kept.
fn bring_consumer_back(consumer_node: &mut ConsumerNode, before: Option<ConsumerNode>)
    ensures { consumer_node.new ≡ consumer_back before consumer_node.old }
{
    let Some(before) = before else {
        return;
    };
    *consumer_node = before;
}

/// The search that a consumer opened since, where it had none.
fn opened_since(before: Option<u64>, now: Option<u64>) -> Option<u64>
    ensures { result ≡ opened_since before now }
{
    match before {
        None => now,
        Some(_) => None,
    }
}

/// How this search of a consumer stands, where such an exchange can change it.
fn search_before(
    alloc: Global,
    exchange: &Exchange,
    provider: &ScriptProvider,
    search: Option<u64>,
) -> Result<Aside<SearchSnapshot>, NoMemory>
    ensures kept { IfOk result (IsKeptIfAny provider.now search) }
    ensures needed { IfOk result (λ kept. moves_searches exchange.now ≡ true
        → kept ≡ None → search ≡ None) }
{
    if !exchange.moves_searches() {
        return Ok(Aside::nothing());
    }
    kept_search(alloc, provider, search)
}

/// How this search of a consumer stands.
pub(crate) fn kept_search(
    alloc: Global,
    provider: &ScriptProvider,
    search: Option<u64>,
) -> Result<Aside<SearchSnapshot>, NoMemory>
    ensures kept { IfOk result (IsKeptIfAny provider.now search) }
    ensures needed { IfOk result (λ kept. kept ≡ None → search ≡ None) }
{
    let Some(number) = search else {
        return Ok(Aside::nothing());
    };
    let snapshot = provider.search_snapshot(number)?;
    Ok(Aside::of(alloc, snapshot)?)
}

/// How a consumer stands, where such an exchange is done in steps.
fn consumer_before(
    alloc: Global,
    exchange: &Exchange,
    consumer_node: &ConsumerNode,
) -> Result<Aside<ConsumerNode>, NoMemory>
    ensures same { IfOk result (λ before. IfSome before (λ was. was ≡ consumer_node.now)) }
    ensures steps { IfOk result (λ before. is_some before ≡ is_stepwise exchange.now) }
{
    if !exchange.is_stepwise() {
        return Ok(Aside::nothing());
    }
    let before = consumer_node.copy()?;
    Ok(Aside::of(alloc, before)?)
}

/// What an exchange reported, the stages that took effect in it, and what brings the two back to
/// what they were before it, where one did.
#[derive(Drop)]
pub struct Performed {
    pub text: Vec<u8>,
    pub stages: Vec<StoredStage>,
    pub before: Snapshot,
}

/// Does what goes on between a provider and a consumer, where this root stands at the top of the
/// provider's providers. The answer has the text of the lines and the stages that took effect. It
/// is `LimitReached` where the link is full, `LaterCookie` for a cookie that may not be given, or
/// `NoMemory`, and then the two are as before.
#[tactic(auto, using(crate::proofs::Performing::performed, crate::proofs::Performing::refused))]
pub fn perform_exchange(
    alloc: Global,
    provider_node: &mut ProviderNode,
    top: Octets,
    consumer_node: &mut ConsumerNode,
    exchange: Exchange,
) -> Result<Performed, Cause>
    ensures does { Performs
        (part_of exchange (agreement_of provider_node.old.provider consumer_node.old
        (record { top = top; notes = provider_node.old.notes })))
        (agreement_of provider_node.new.provider consumer_node.new
        (record { top = top; notes = provider_node.old.notes })) result }
    ensures before { is_stepwise exchange ≡ true → IfOk result (λ done.
        BringsBack provider_node.old.provider consumer_node.old
        provider_node.new.provider consumer_node.new done.before) }
    ensures unstaged { is_stepwise exchange ≡ false
        → IfOk result (λ done. done.stages.items ≡ []) }
    ensures same { provider_node.new
        ≡ record provider_node.old { provider = provider_node.new.provider } }
    ensures err { OnErr result (provider_node.new ≡ provider_node.old) }
    ensures consumer_node_err { OnErr result (consumer_node.new ≡ consumer_node.old) }
{
    let Ok(mut before) = Snapshot::before(alloc, &exchange, &provider_node.provider, consumer_node)
    else {
        discard(exchange);
        return Err(Cause::NoMemory);
    };
    let mut report = Report::new(alloc, top, &provider_node.notes);
    match exchange.perform(
        alloc,
        &mut provider_node.provider,
        consumer_node,
        &mut before.own,
        &mut report,
    ) {
        Ok(()) => Ok(Performed {
            text: report.text,
            stages: report.stages,
            before,
        }),
        Err(cause) => {
            before.restore(&mut provider_node.provider, consumer_node);
            Err(cause)
        }
    }
}
