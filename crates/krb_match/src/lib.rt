//! Which tickets the entries of a keytab open.
#![tactic(auto)]

mod classes;
mod fitting;
mod group;
mod judgement;
mod keys;
mod laws;
mod line;
mod looking;
mod matcher;
mod names;
mod near;
mod ticket;

pub use judgement::{Etypes, Judgement};
pub use laws::tickets_are_opened;
pub use line::append_matched;
pub use looking::Matched;
pub use matcher::Matcher;
pub use names::EntryNames;
pub use ticket::MatchedTicket;
