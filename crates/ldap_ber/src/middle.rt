//! Octets of strings that are neither short nor long.
ghost use Rattle.std.specs.Prelude.{◌≡◌, ◌≤◌, length, IfOk};

use crate::octets::NoMemory;
use std::alloc::{AllocError, Global};
use std::marker::Model;
use std::sync::Arc;

/// Up to N octets of a string, in front of others that say nothing. So one piece of memory has them
/// and the number of the strings that share them.
#[derive(Drop)]
pub(crate) struct Middle<const N: usize> {
    count: u8,
    octets: [u8; N],
}

impl<const N: usize> Model for Middle<N> {
    ghost use Rattle.std.specs.Prelude.{◌≡◌, ◌≤◌, List, ℕ, length, take};

    ghost Value = { List ℕ };

    ghost view = { λ m. take m.count m.octets };

    ghost invariant = { λ m. (m.count ≤ N) × (length m.octets ≡ N) };
}

impl<const N: usize> Middle<N> {
    /// A copy of these bytes, as strings can share it.
    pub(crate) fn shared(alloc: Global, bytes: &[u8]) -> Result<Arc<Middle<N>>, NoMemory>
        requires room { length bytes.now ≤ N }
        requires small { N ≤ 255 }
        ensures { IfOk result (λ middle. middle.value ≡ bytes.now) }
    {
        match Arc::new(alloc, Middle::of(bytes)) {
            Ok(middle) => Ok(middle),
            Err(_) => Err(AllocError),
        }
    }

    #[inline(always)]
    fn of(bytes: &[u8]) -> Middle<N>
        requires room { length bytes.now ≤ N }
        requires small { N ≤ 255 }
        ensures { result ≡ bytes.now }
    {
        let mut octets = [0; N];
        octets[..bytes.len()].copy_from_slice(bytes);
        Middle {
            count: bytes.len() as u8,
            octets,
        }
    }

    #[inline(always)]
    pub(crate) fn as_slice(&self) -> &[u8]
        ensures { result.now ≡ self.now }
    {
        &self.octets[..self.count as usize]
    }
}
