//! Credential caches as text.
#![tactic(auto)]

mod columns;
mod credential;
mod listing;
mod record;
mod request;
mod setting;

pub use columns::CcColumns;
pub use listing::list_cache;
pub use record::CcFormat;
pub use request::{CacheLine, Request};
pub use setting::OwnedSetting;
