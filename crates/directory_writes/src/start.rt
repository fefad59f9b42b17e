//! Where a search begins.

ghost use Rattle.std.specs.Prelude.{◌≡◌};
ghost use Rattle.sync_model.specs.Stream.{is_delete_phase};
ghost use Rattle.directory_writes.specs.Starting.{start_of};

/// Where a search begins: without a cookie, or after the write that its cookie names, where the
/// session log covers that write's number or not.
#[derive(Clone, Copy, Debug, PartialEq, Eq)]
pub enum Start {
    InitialContent,
    /// After n writes, where the session log covers n.
    DeletePhase(u64),
    /// After n writes, where it does not.
    PresentPhase(u64),
}

impl Start {
    /// Whether its refresh is a delete phase, and not a present phase.
    pub fn deletes(self) -> bool
        ensures { result ≡ is_delete_phase (start_of self) }
    {
        match self {
            Start::DeletePhase(_) => true,
            Start::InitialContent | Start::PresentPhase(_) => false,
        }
    }
}
