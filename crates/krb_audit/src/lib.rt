//! Checks and selections over a whole keytab: what is wrong with it, which entries are old, and which are selected;
//! and selections of a cache's tickets.
#![tactic(auto)]

mod by_name;
mod check;
mod counts;
mod criteria;
mod doubles;
mod findings;
mod firsts;
mod going_on;
mod laws;
mod left;
mod marks;
mod missing;
mod mit;
mod mode;
mod newest;
mod ranks;
mod report;
mod rows;
mod selection;
mod strong;
mod tally;
mod tickets;
mod versions;
mod weak_etypes;
mod young;

pub use check::{CheckCriteria, CheckUp, check_up};
pub use counts::Counts;
pub use criteria::{is_of_gssproxy, is_service};
pub use findings::Marked;
pub use going_on::is_tgs;
pub use laws::{
    counts_are_of_findings, each_name_keeps_an_entry, hints_name_each_weak_etype,
    keeping_more_removes_less, selected_doubles_are_same,
};
pub use marks::Marks;
pub use mit::hides_added;
pub use mode::{append_mode_digits, is_open_file, is_open_to_all};
pub use newest::Stamp;
pub use ranks::{Rank, Ranks};
pub use report::append_report;
pub use selection::{Selected, SelectedKvno, Selection, select, selected_entries};
pub use tally::Tally;
pub use tickets::{SelectedTickets, TicketCriteria, select_tickets};
