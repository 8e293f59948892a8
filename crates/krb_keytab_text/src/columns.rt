//! The columns of a listing.

/// What a listing of a keytab shows besides each entry's kvno and principal.
#[derive(Clone, Copy, Debug, Default, PartialEq, Eq)]
pub struct KtColumns {
    /// Each entry's timestamp.
    pub times: bool,
    /// Each key's enctype, by name if it has one.
    pub etypes: bool,
    /// The keys themselves, in hexadecimal.
    pub keys: bool,
}
