//! Copying entries from one keytab into another.
#![tactic(auto)]

mod class;
mod classes;
mod copy;
mod diff;
mod laws;
mod making;
mod numbering;
mod texts;

pub use copy::{Copied, CopyAs, copy_into};
pub use diff::diff_text;
pub use laws::{
    differences_are_mirrored, entries_asked_for_are_there, nothing_else_is_there, others_stay,
    runs_are_histories, same_keys_copy_nothing,
};
