//! The commands that read files: klist, ktfind, ktmatch, ktcheck and show.
#![tactic(auto)]

mod file_page;
mod klist;
mod ktcheck;
mod ktfind;
mod ktmatch;
mod show;

pub use klist::overview::{overview_json, run_overview};
pub use klist::run_klist;
pub use klist::ticket_check::{TicketCheck, run_ticket_check, ticket_check};
pub use klist::words::{KLIST, KlistOptions, ListKind, klist_options};
pub use ktcheck::run_ktcheck;
pub use ktcheck::words::{CheckOptions, KTCHECK, check_options};
pub use ktfind::{FindOptions, KTFIND, find_options, run_ktfind};
pub use ktmatch::words::{KTMATCH, MatchOptions, match_options};
pub use ktmatch::{lines_are_those_of_each, run_ktmatch};
pub use show::run_show;
pub use show::words::{SHOW, ShowOptions, show_options};
