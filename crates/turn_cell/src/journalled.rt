ghost use Rattle.std.specs.Prelude.{◌≡◌, ℕ, List, length};

/// A value with a journal that turns at its cell add to.
pub trait Journalled {
    /// What an entry says. No value of it need ever be made.
    type Note;

    /// What a share consists of.
    type Item;

    /// The entries, each with the number of the pass whose turn added it, or with 0 where it was
    /// there before the cell was made.
    ghost journal: { Self → List (Self.Note × ℕ) };

    /// What belongs to the pass with this number, beside its entries.
    ghost share: { Self → ℕ → List Self.Item };

    /// The number of entries. It is called twice in each turn, so it should not go through them.
    fn count(&self) -> u64
        ensures { result ≡ length (journal self.now) };
}
