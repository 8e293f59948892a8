//! Keytabs and credential caches as JSON.
#![tactic(auto)]

mod cache;
mod check;
mod elements;
mod escape;
mod finding;
mod head;
mod keytab;
mod matches;
mod piece;
mod put;
mod refused;
mod summary;
mod ticket;

pub use cache::cache_json;
pub use check::check_json;
pub use keytab::keytab_json;
pub use matches::match_json;
pub use refused::refused_json;
pub use summary::{CacheSummary, append_summary};
