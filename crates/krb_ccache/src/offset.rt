//! The time offset of a KDC.

/// How far the clock of the KDC is ahead: seconds and microseconds.
#[derive(Clone, Copy, Debug, PartialEq, Eq)]
pub struct Offset {
    pub seconds: i32,
    pub micros: i32,
}
