//! Links: bytes come in at one side, and go out at the other.
ghost use Rattle.std.specs.Prelude.{◌≡◌, Some, IsSome};

use crate::{Sink, Source};

/// A source and a sink in one.
pub trait Link: Source + Sink + Send + Drop {
    /// A read leaves the side where bytes go out as it was.
    ghost reads_apart: { (l : Self) → Self.sink_side l
        ≡ Some (record { held = Self.bytes_held l; faults = Self.write_fault_count l }) };

    /// A write leaves the side where bytes come in as it was.
    ghost writes_apart: { (l : Self) → Self.source_side l
        ≡ Some (record {
          left = Self.bytes_left l;
          read = Self.bytes_read l;
          waits = Self.waits l;
          faults = Self.read_fault_count l;
        }) };

    /// A link that reports the bytes left reports those that were read from it.
    ghost reads_reported: { (l : Self) → IsSome (Self.bytes_left l) → IsSome (Self.bytes_read l) };
}
