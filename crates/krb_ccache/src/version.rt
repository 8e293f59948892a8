//! Versions of the cache format.

/// A version of the format: version 3 has no header, and writes each enctype twice.
#[derive(Clone, Copy, Debug, PartialEq, Eq)]
pub enum Version {
    V3,
    V4,
}
