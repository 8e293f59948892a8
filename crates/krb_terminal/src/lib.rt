//! A writer that escapes control characters, so that a terminal in UTF-8 does not act on what it prints.
#![tactic(auto)]

mod screen;

pub use screen::Screen;
