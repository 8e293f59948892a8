//! What a listing shows.

/// What a listing of a cache shows besides the times and the server of each ticket.
#[derive(Clone, Copy, Debug, Default, PartialEq, Eq)]
pub struct CcColumns {
    /// The flags of each ticket.
    pub flags: bool,
    /// The enctype name of each session key.
    pub etypes: bool,
    /// The configuration entries.
    pub configs: bool,
}
