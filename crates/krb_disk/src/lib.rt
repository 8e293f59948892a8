//! Files on a disk, each loaded and saved as a whole.
#![tactic(auto)]

mod calls;
mod deadline;
mod disk_files;
mod fault;
mod held;
mod in_place;
mod looks;
mod mode;
mod new_file;
mod noted;
mod old;
mod open_file;
mod patch;
mod read;
mod replacing;
mod save;
mod snapshot;
mod stage;
mod target;

pub use disk_files::DiskFiles;
pub use open_file::{HeldFile, System};
pub use stage::{each_moment_in_place_is_safe, each_moment_is_safe};
