//! What lies under a name.

/// What lies under a name, links followed.
#[derive(Clone, Copy, Debug, PartialEq, Eq)]
pub enum Node {
    Nothing,
    PlainFile,
    Folder,
    /// A pipe, a terminal, another device or a socket. Opening one may block.
    Other,
    /// It could not be looked at.
    Unknown,
}
