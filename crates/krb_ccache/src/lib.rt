//! Credential caches in memory: a cache is a header, a default principal and a list of credentials, which can be
//! walked while it changes.
#![tactic(auto)]

mod append;
mod ccache;
mod cells;
mod config;
mod credential;
mod credentials;
mod der;
mod laws;
mod mark;
mod new_image;
mod offset;
mod open;
mod placed;
mod preamble;
mod ticket;
mod version;

pub use ccache::Ccache;
pub use config::setting::Setting;
pub use config::{ConfigName, config_name, is_config};
pub use credential::Cred;
pub use credential::times::Times;
pub use credential::view::{CredView, read_credential};
pub use credentials::Credentials;
pub use der::Strings;
pub use laws::{
    caches_are_opened_again, credentials_are_read_back, one_reading, removals_are_events,
    rewrites_keep_credentials, settings_are_events,
};
pub use offset::Offset;
pub use open::{CcOpenFault, CcOpenRefused};
pub use ticket::{TicketEncryption, TicketServer, read_own, ticket_encryption, ticket_server};
pub use version::Version;
