//! Files by name, and readers and writers that remember a failure.
#![tactic(auto)]

mod aftermath;
mod cause;
mod files;
mod log;
mod mem_files;
mod node;
mod output;
mod reader;
mod watched;

pub use aftermath::Aftermath;
pub use cause::Cause;
pub use files::{Files, LoadFault, SaveFault};
pub use log::Log;
pub use mem_files::MemFiles;
pub use node::Node;
pub use output::{OutFault, put};
pub use reader::{append_read, load, next_read, save};
pub use watched::{Watched, WatchedReader};
