//! Keytabs as text: listings, scripts, and the lines of entries and replies.
#![tactic(auto)]

mod columns;
mod line;
mod listing;
mod reply;
mod script;

pub use columns::KtColumns;
pub use line::{append_placed, found_text};
pub use listing::{list_keytab, list_slots};
pub use reply::{RecordFormat, reply_line, reply_lines};
pub use script::command::common_event;
pub use script::{ScriptLine, parse_script};
