//! The nodes of a script.
ghost use Rattle.std.specs.Prelude.{◌≡◌, ◌<◌, [], None, IfOk};
ghost use Rattle.entry_tree.specs.Selection.{search_of};
ghost use Rattle.sync_provider.specs.Machine.{fresh};
ghost use Rattle.sync_provider.specs.declared.provider.Kind.TheVariants.{Replica};
ghost use Rattle.cascade_nodes.specs.Nodes.{is_offered, new_consumer_node};

use crate::link::Link;
use crate::script_provider::ScriptProvider;
use cascade_report::{CommitOrigins, DigestedConsumer};
use dn_names::Dn;
use entry_tree::Spec;
use ldap_ber::{NoMemory, Octets};
use std::alloc::Global;
use sync_consumer::Consumer;
use sync_provider::Kind;

/// The directory of a root or of a replica, and notes of a replica's commits.
pub struct ProviderNode {
    pub name: Octets,
    pub provider: ScriptProvider,
    pub notes: CommitOrigins,
}

/// A call of its own, so that what drops a node is one step.
impl Drop for ProviderNode {
    fn drop(self) {
        let ProviderNode {
            name: _name,
            provider: _provider,
            notes: _notes,
        } = self;
    }
}

impl ProviderNode {
    /// A node with this name and suffix, without writes. Its number is that of its history. It is
    /// `NoMemory` where memory runs out.
    pub fn new(
        alloc: Global,
        name: Octets,
        suffix: Dn,
        number: u16,
        kind: Kind,
    ) -> Result<ProviderNode, NoMemory>
        requires { number < 4096 }
        ensures { IfOk result (λ provider_node.
            provider_node
            ≡ record { name = name; provider = fresh suffix number number kind; notes = [] }) }
    {
        Ok(ProviderNode {
            name,
            provider: ScriptProvider::new(alloc, suffix, number, kind)?,
            notes: CommitOrigins::new(alloc),
        })
    }

    /// The directory of a replica with this name, without writes. Its suffix is empty. It is
    /// `NoMemory` where memory runs out.
    pub fn replica(alloc: Global, name: &Octets, number: u16) -> Result<ProviderNode, NoMemory>
        requires { number < 4096 }
        ensures { IfOk result (λ provider_node.
            provider_node
            ≡ record { name = name.now; provider = fresh [] number number Replica; notes = [] }) }
    {
        let suffix = Dn::empty(alloc);
        ProviderNode::new(alloc, name.copy()?, suffix, number, Kind::Replica)
    }

    /// Whether the base of what is wanted is at or below the suffix.
    pub fn offers(&self, wanted: &Spec) -> bool
        ensures { result ≡ is_offered (search_of wanted.now) self.now }
    {
        wanted.base.is_at_or_below(self.provider.suffix())
    }
}

/// A consumer with its provider's name, its copy, its link, and the number of the search that is
/// open for it at its provider.
pub struct ConsumerNode {
    pub name: Octets,
    pub source: Octets,
    pub consumer: DigestedConsumer,
    pub link: Link,
    pub search: Option<u64>,
}

/// A call of its own, so that what drops a node is one step.
impl Drop for ConsumerNode {
    fn drop(self) {
        let ConsumerNode {
            name: _name,
            source: _source,
            consumer: _consumer,
            link: _link,
            search: _,
        } = self;
    }
}

impl ConsumerNode {
    /// A consumer with this name, whose provider has the name `source`, of what is wanted, with
    /// this reloadHint (RFC 4533, section 2.2), and without entries, a cookie and a search. It is
    /// `NoMemory` where memory runs out.
    pub fn wanting(
        alloc: Global,
        name: Octets,
        source: Octets,
        wanted: Spec,
        reload: bool,
    ) -> Result<ConsumerNode, NoMemory>
        ensures { IfOk result (λ consumer_node.
            consumer_node ≡ new_consumer_node name source (search_of wanted) reload) }
    {
        let consumer = Consumer::new(alloc, wanted, reload)?;
        Ok(ConsumerNode::new(alloc, name, source, consumer))
    }

    /// A consumer without entries and without a search.
    pub fn new(alloc: Global, name: Octets, source: Octets, consumer: Consumer) -> ConsumerNode
        ensures { result
            ≡ record {
              name = name;
              source = source;
              consumer = consumer;
              link = [];
              search = None;
            } }
    {
        ConsumerNode {
            name,
            source,
            consumer: DigestedConsumer::new(consumer),
            link: Link::new(alloc),
            search: None,
        }
    }

    /// A consumer that goes on as this one does. It is `NoMemory` where memory runs out.
    pub fn copy(&self) -> Result<ConsumerNode, NoMemory>
        ensures { IfOk result (λ copy. copy ≡ self.now) }
    {
        let search = self.search;
        Ok(ConsumerNode {
            name: self.name.copy()?,
            source: self.source.copy()?,
            link: self.link.copy()?,
            search,
            consumer: self.consumer.copy()?,
        })
    }
}

/// What is wanted, a second time. It is `NoMemory` where memory runs out.
pub fn copy_wanted(wanted: &Spec) -> Result<Spec, NoMemory>
    ensures { IfOk result (λ copy. search_of copy ≡ search_of wanted.now) }
{
    Ok(Spec {
        base: wanted.base.copy()?,
        scope: wanted.scope,
        filter: wanted.filter.copy()?,
    })
}
