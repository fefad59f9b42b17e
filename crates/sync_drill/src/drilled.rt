//! What a drill gives back.
use ldap_ber::Octets;
use link_rings::{RingConsumer, RingProducer};
use sync_consumer::Consumer;

/// What is printed.
#[derive(Drop)]
pub struct Summary {
    pub text: Octets,
}

/// The two ends of a consumer's ring.
#[derive(Drop)]
pub struct RingEnds {
    pub producer: RingProducer,
    pub consumer: RingConsumer,
}

/// A drill that has ended: what it prints, the ports in their order, none of which has a search,
/// and for each consumer its copy and its ring.
#[derive(Drop)]
pub struct Drilled<P> {
    pub summary: Summary,
    pub writers: Vec<P>,
    pub consumers: Vec<P>,
    pub copies: Vec<Consumer>,
    pub rings: Vec<RingEnds>,
}
