//! The configuration of a directory that is served, read from TOML 1.1.
//!
//! | Key | Value | Absent |
//! |---|---|---|
//! | `listen` | a text: the address | refused |
//! | `suffix` | a text: a name (RFC 4514) | refused |
//! | `sid` | 0 to 4095 | 0 |
//! | `ldif` | a text: the name of a file | no file |
//! | `log_limit` | 0 to 1,000,000 | 1,000 |
//! | `queue_limit` | 0 to 1,000,000 | 4,096 |
//! | `bind_name` | a text: a name; beside `bind_password` | no name |
//! | `bind_password` | a text; beside `bind_name` | no password |
//! | `seats` | 1 to 64 | 16 |
//! | `connections` | 0 to 1,000,000 | 0 |
//! | `upstream` | a table: the directory that it follows | none |
//!
//! The table has the keys `address`, `base`, `scope` (`base`, `one` or `sub`) and `filter`, which
//! are texts, `reload_hint`, a Boolean (false), and `rounds`, 0 to 1,000,000 (0). Beside it
//! `suffix` may be absent, and `ldif` is refused. The keys are judged in this order, those of the
//! table in theirs.
#![tactic(auto)]

mod config;
mod fault;
mod keys;
mod text;
mod upstream;

pub use config::Config;
pub use fault::ConfigFault;
pub use text::ConfigText;
pub use upstream::Upstream;
