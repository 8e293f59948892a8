//! Why an image did not open.

ghost use Rattle.std.specs.Prelude.{◌≡◌};
ghost use Rattle.krb_driver.specs.NotOpened.{is_bad_version, opening_number, opening_phrase};

use crate::beginning::Beginning;
use krb_ccache::CcOpenFault;
use krb_keytab::KtOpenFault;

/// What an image was to be opened as.
#[derive(Clone, Copy, PartialEq, Eq)]
pub enum Expected {
    Keytab,
    KeytabToList,
    Cache,
    CacheToHold,
    /// A cache whose tickets are matched.
    CacheToMatch,
    /// A keytab or a cache.
    Either,
}

/// Why an image is not a keytab, or not a cache.
#[derive(Clone, Copy)]
pub enum OpenFault {
    Keytab(KtOpenFault),
    Cache(CcOpenFault),
}

impl OpenFault {
    pub fn number(self) -> u32
        ensures { result ≡ opening_number self }
    {
        match self {
            OpenFault::Keytab(fault) => fault.number(),
            OpenFault::Cache(fault) => fault.number(),
        }
    }

    pub fn phrase(self) -> &'static str
        ensures { result.now ≡ opening_phrase self }
    {
        match self {
            OpenFault::Keytab(fault) => fault.phrase(),
            OpenFault::Cache(fault) => fault.phrase(),
        }
    }

    /// Returns whether the first bytes are not those of a keytab, or of a cache.
    pub fn is_bad_version(self) -> bool
        ensures { result ≡ is_bad_version self }
    {
        matches!(
            self,
            OpenFault::Keytab(KtOpenFault::BadVersion) | OpenFault::Cache(CcOpenFault::BadVersion)
        )
    }
}

/// Why an image did not open, what it begins as, and what it was to be opened as.
#[derive(Clone, Copy)]
pub struct NotOpened {
    pub fault: OpenFault,
    pub begins: Beginning,
    pub expected: Expected,
}
