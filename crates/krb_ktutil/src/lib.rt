//! ktutil: commands over a list of entries, read from keytabs and written to them.
#![tactic(auto)]

mod input_lines;
mod ktutil;

pub use ktutil::{KTUTIL, Ktutil, Line, run_ktutil};
