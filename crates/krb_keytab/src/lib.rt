//! Keytab images: a keytab is a list of cells, and each live cell begins with an entry.
#![tactic(auto)]

mod append;
mod cells;
mod entries;
mod entry;
mod fields;
mod form;
mod image;
mod indexed;
mod keytab;
mod laws;
mod length;
mod look_up;
mod new_entry;
mod open;
mod placed;
mod put;
mod replace;

pub use cells::{CellViews, KtCell};
pub use entries::Entries;
pub use entry::{EntryView, read_entry};
pub use fields::Fields;
pub use indexed::Indexed;
pub use keytab::Keytab;
pub use laws::{
    changes_are_seen, one_reading, removals_are_runs, rewrites_keep_entries, written_is_read_back,
};
pub use new_entry::NewEntry;
pub use open::{KtOpenFault, KtOpenRefused};
