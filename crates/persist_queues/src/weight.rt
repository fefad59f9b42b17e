ghost use Rattle.std.specs.Prelude.{◌≡◌, ℕ, ◌<◌, ◌↔◌, IsNone, IfSome, sum_by};

/// What the pending items of one search may weigh together: 16 MiB.
pub const MOST_WEIGHT: u64 = 16_777_216;

/// What has a weight, which stands for the bytes of memory that it takes.
pub trait Weighs {
    /// The weight, which a value keeps as long as it does not change.
    ghost weight: { Self → ℕ };

    /// Reports the weight, in bytes.
    fn weight(&self) -> u64
        ensures { result ≡ weight self.now };
}

/// The weight of the items together, or None where that is more than `most`.
pub(crate) fn weight_within<T: Weighs>(items: &[T], most: u64) -> Option<u64>
    ensures over { IsNone result ↔ (most < sum_by T.weight items.now) }
    ensures weight { IfSome result (λ w. w ≡ sum_by T.weight items.now) }
{
    let mut left = most;
    for item in items {
        left = left.checked_sub(item.weight())?;
    }
    Some(most - left)
}
