//! The phrase of a status.

ghost use Rattle.krb_wire.specs.Reading.{Gives};
ghost use Rattle.krb_c.specs.Phrase.{phrase_of};
ghost use Rattle.krb_c.specs.Text.{ShowsBytes};

use crate::status::{DONE, of_code};
use crate::text::{KrbfBytes, bytes_of};
use krb_ccache::CcOpenFault;
use krb_findings::Finding;
use krb_walk::Code;
use krb_wire::NameFault;

// Returns the phrase of a status, or `None` if it has none.
fn phrase_of(status: u32) -> Option<&'static str>
    ensures { Gives (λ phrase. phrase.now) result (phrase_of status) }
{
    match status {
        0 => Some("done"),
        1 => Some(NameFault::NoMemory.phrase()),
        2 => Some("the walk is at its end"),
        11 => Some(CcOpenFault::TooShort.phrase()),
        12 => Some("its version is none that is read"),
        13 => Some(CcOpenFault::TooLarge.phrase()),
        14 => Some(CcOpenFault::BadHeader.phrase()),
        15 => Some(CcOpenFault::BadDefault.phrase()),
        21 => Some(NameFault::NoRealm.phrase()),
        22 => Some(NameFault::LoneBackslash.phrase()),
        23 => Some(NameFault::SecondAt.phrase()),
        24 => Some(NameFault::SlashInRealm.phrase()),
        31 => Some(Code::Damaged.phrase()),
        32 => Some(Code::TooLong.phrase()),
        33 => Some(Code::Full.phrase()),
        34 => Some(Code::NotAPlace.phrase()),
        35 => Some(Code::NotLive.phrase()),
        36 => Some(Code::NoSuchWalk.phrase()),
        37 => Some(Code::TooManyWalks.phrase()),
        38 => Some(Code::ReadOnly.phrase()),
        39 => Some(Code::NotFound.phrase()),
        40 => Some(Code::KvnoNotFound.phrase()),
        41 => Some(Code::Marked.phrase()),
        42 => Some("the key is not as long as its type's"),
        43 => Some(Finding::Etype.row().phrase),
        _ => None,
    }
}

#[unsafe(no_mangle)]
pub extern "C" fn krbf_phrase(status: u32, phrase: &mut KrbfBytes) -> u32
    ensures { ShowsBytes (phrase_of status) result phrase.old phrase.new }
{
    let Some(text) = phrase_of(status) else {
        return of_code(Code::NotFound);
    };
    *phrase = bytes_of(text.as_bytes());
    DONE
}
