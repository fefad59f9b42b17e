//! Texts of a configuration.
ghost use Rattle.std.specs.Prelude.{◌≡◌, IfOk};

use std::alloc::{AllocError, Global};
use std::marker::Model;

/// A text in UTF-8.
#[derive(Debug, Drop)]
pub struct ConfigText {
    text: String,
}

impl Model for ConfigText {
    ghost use Rattle.std.specs.Prelude.{List, ℕ, string_bytes};

    ghost Value = { List ℕ };

    ghost view = { λ t. string_bytes t.text };
}

impl ConfigText {
    /// A copy of this text.
    pub(crate) fn from_str(alloc: Global, text: &str) -> Result<ConfigText, AllocError>
        ensures { IfOk result (λ t. t ≡ text.now) }
    {
        Ok(ConfigText {
            text: String::from_str(alloc, text)?,
        })
    }

    /// The text.
    pub fn as_str(&self) -> &str
        ensures { result.now ≡ self.now }
    {
        self.text.as_str()
    }
}
