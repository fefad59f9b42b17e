//! A map may cross threads, and may be read by several at once, where its keys and values may.
ghost use Rattle.std.specs.Prelude.{◌≡◌};

use crate::ordered::SharedMap;

fn shares<T: Sync>(_value: &T) {}

fn sends<T: Send>(value: T) -> T
    ensures { result ≡ value }
{
    value
}

/// A map may be read by several threads at once where its keys and values may.
pub fn map_is_shared<K: Ord + Send + Sync, V: Send + Sync>(map: &SharedMap<K, V>) {
    shares(map)
}

/// A map may be given to another thread where its keys and values may. The answer is the map.
pub fn map_is_sent<K: Ord + Send + Sync, V: Send + Sync>(map: SharedMap<K, V>) -> SharedMap<K, V>
    ensures { result ≡ map }
{
    sends(map)
}
