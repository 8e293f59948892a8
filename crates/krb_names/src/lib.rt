//! Which names are asked for: sets of names, as texts, and patterns. A hash of names, and numbers of names.
#![tactic(auto)]

mod asked;
mod filter;
mod hash;
mod laws;
mod marks;
mod numbers;
mod patterns;
mod set;

pub use asked::AskedNames;
pub use filter::NameFilter;
pub use hash::hash_of;
pub use laws::patterns_without_star_are_names;
pub use marks::NameMarks;
pub use numbers::number_of;
pub use patterns::{STAR, parse_pattern};
pub use set::NameSet;
