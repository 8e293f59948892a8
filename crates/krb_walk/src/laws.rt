//! Laws of all stores, all histories and all walks. Each is a function with an empty body, whose contract states it.

pub mod cursors;
pub mod damaged;
pub mod due;
pub mod joins;
pub mod records;
pub mod rewrites;
pub mod stops;
