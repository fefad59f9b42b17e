//! Why a configuration is refused.
ghost use Rattle.std.specs.Prelude.{◌≡◌, ◌≢◌};
ghost use Rattle.sync_config.specs.declared.fault.ConfigFault.TheVariants.{NotToml, NoMemory, MissingKey, BadValue};

use crate::ConfigText;
use std::alloc::{AllocError, Global};

/// Why a configuration is refused, with the first key that is refused.
#[derive(Debug, Drop)]
pub enum ConfigFault {
    /// The text is no TOML in UTF-8.
    NotToml,
    /// The key is absent, though it has to be there.
    MissingKey(ConfigText),
    /// What stands under the key is of another kind, out of its range, or no text of its form.
    BadValue(ConfigText),
    /// Out of memory.
    NoMemory,
}

impl From<AllocError> for ConfigFault {
    ghost from_gives = { λ _ fault. fault ≡ NoMemory };

    fn from(_error: AllocError) -> ConfigFault {
        ConfigFault::NoMemory
    }
}

/// The fault of a key that is absent.
pub(crate) fn missing_key(alloc: Global, key: &str) -> ConfigFault
    ensures fault { result ≢ NoMemory → result ≡ MissingKey key.now }
    ensures keyed { result ≢ NotToml }
{
    match ConfigText::from_str(alloc, key) {
        Ok(key) => ConfigFault::MissingKey(key),
        Err(_) => ConfigFault::NoMemory,
    }
}

/// The fault of a key whose value is refused.
pub(crate) fn bad_value(alloc: Global, key: &str) -> ConfigFault
    ensures fault { result ≢ NoMemory → result ≡ BadValue key.now }
    ensures keyed { result ≢ NotToml }
{
    match ConfigText::from_str(alloc, key) {
        Ok(key) => ConfigFault::BadValue(key),
        Err(_) => ConfigFault::NoMemory,
    }
}
