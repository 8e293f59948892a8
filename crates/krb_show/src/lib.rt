//! Keytabs and credential caches as they are shown to people.
#![tactic(auto)]

mod ago;
mod cache;
mod columns;
mod etypes;
mod heading;
mod keys;
mod keytab;
mod lines;
mod seen;
mod tickets;

pub use cache::append_cache_view;
pub use keytab::append_keytab_view;
