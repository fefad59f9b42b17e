//! The commands of a script.
use dn_names::Dn;
use entry_tree::Spec;
use ldap_ber::Octets;
use schema_rules::Change;

/// A command of a script. The first name is that of its node.
#[derive(Drop)]
pub enum Command {
    /// A provider with its suffix.
    Provider(Octets, Dn),
    /// A consumer with its provider's name, what it wants, and whether it takes a whole copy where
    /// its cookie does not serve (the reloadHint of RFC 4533, section 2.2).
    Consumer(Octets, Octets, Spec, bool),
    /// A replica: a consumer of the provider, whose copy is a directory that others can follow.
    Replica(Octets, Octets, Spec, bool),
    /// The time of all nodes, in microseconds from the first moment of 1970 on.
    Clock(u64),
    /// A write to a provider.
    Write(Octets, Change),
    /// Opens a search of a consumer that ends with its refresh.
    OpenOnce(Octets),
    /// Opens a search of a consumer that goes on after its refresh.
    OpenStay(Octets),
    /// Hands out n messages of a consumer's search into its link.
    Send(Octets, u64),
    /// A consumer takes n messages from its link.
    Take(Octets, u64),
    /// Drops a consumer's search and what its link holds.
    Cut(Octets),
    /// Brings a consumer up to its provider.
    Settle(Octets),
    /// A consumer loses its cookie.
    Lose(Octets),
    /// A consumer gets this text as its cookie.
    Cookie(Octets, Octets),
    /// A consumer follows another provider from now on.
    Repoint(Octets, Octets),
    /// A consumer wants this from now on.
    Respec(Octets, Spec),
    /// The session log of a provider keeps n touches at most.
    Log(Octets, u64),
    /// The queue of each search of a provider holds n messages at most, from the next write on.
    Queue(Octets, u64),
    /// Prints the entries of a node.
    Show(Octets),
}

/// A command with the number of its line, counted from 1.
#[derive(Drop)]
pub struct Event {
    pub line: u64,
    pub command: Command,
}
