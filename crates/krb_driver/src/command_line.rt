//! What a command line is made of, what it matched, and what is wrong with it.

pub(crate) mod matches;
pub(crate) mod mistake;
pub(crate) mod spelled;
pub(crate) mod words;
