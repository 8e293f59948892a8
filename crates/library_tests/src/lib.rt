//! Tests of the library through its public calls. They are a crate of their own, since a crate with tests is proved
//! twice.
#![tactic(auto)]

#[cfg(test)]
mod tests;
