//! The commands that change a file: ktedit, ktremove, ktcopy, ccedit and ccremove; and ktdiff, which compares two.
#![tactic(auto)]

mod added;
mod ccedit;
mod ccremove;
mod edited;
mod hold;
mod ktcopy;
mod ktdiff;
mod ktedit;
mod ktremove;
mod missing_files;
mod removing;
mod selecting;

pub use ccedit::{CCEDIT, run_ccedit};
pub use ccremove::{CCREMOVE, TicketOptions, run_ccremove, ticket_options};
pub use hold::run_hold;
pub use hold::words::{HOLD, HoldKind, hold_kind};
pub use ktcopy::{CopyOptions, KTCOPY, copy_options, run_ktcopy};
pub use ktdiff::{DiffOptions, KTDIFF, diff_options, run_ktdiff};
pub use ktedit::{KTEDIT, run_ktedit};
pub use ktremove::run_ktremove;
pub use ktremove::words::{KTREMOVE, RemoveOptions, remove_options};
