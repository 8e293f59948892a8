//! The words of a command line: clap matches them against those of the commands; what is wrong with a line that it does
//! not match is looked for here.
#![tactic(auto)]

mod bad_line;
mod bundle;
mod command_lines;
mod equals;
mod nearest;
mod options;
mod place;
mod words;

pub use words::{Matched, Request, parse_words};
