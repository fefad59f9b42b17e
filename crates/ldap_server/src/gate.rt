//! Where a test may hold a piece of a connection.

/// What each piece of a connection passes before the session takes it.
pub trait Gate {
    /// The connections, and the pieces that were read of each, are counted from 1.
    fn pass(&self, connection: u64, piece: u64);
}

/// A gate that holds nothing.
#[derive(Clone, Copy, Debug)]
pub struct OpenGate;

impl Gate for OpenGate {
    fn pass(&self, _connection: u64, _piece: u64) {}
}
