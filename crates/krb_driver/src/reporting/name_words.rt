//! The words about names of files, and about entries that MIT's programs do not see.

ghost use Rattle.std.specs.Prelude.{◌≡◌, ◌++◌, codes, is_some};
ghost use Rattle.krb_driver.specs.FileNames.{shown_name, untyped};
ghost use Rattle.krb_driver.specs.Messages.{piece_text, pieces_text, words_line};
ghost use Rattle.krb_driver.specs.EndingWords.{hidden_words, missing_words, other_type_words, source_words, type_in, type_words, typed_words};
ghost use Rattle.krb_driver.specs.declared.verdict.FileKind.TheVariants.{Keytab};

use crate::file_name::{NameSource, type_of};
use crate::reporting::lines::{Line, alone, phrase, words};
use crate::reporting::piece::END;
use crate::reporting::piece::MessagePiece::{self, Name, Text};
use crate::reporting::row::Subject;
use crate::reporting::said::{Said, message};
use crate::verdict::FileKind;

const COLLECTION: &str = "a collection; give one of its caches, DIR::FILE\n";

// Returns the words that say where a file's name comes from, if no word of a line gave it; or how a principal is named.
fn source_line(source: NameSource) -> &'static str
    ensures { result.now ≡ source_words source }
{
    match source {
        NameSource::Word => "",
        NameSource::LikePrincipal => "krbfile: to name a principal, give -p\n",
        NameSource::CacheVariable => "krbfile: KRB5CCNAME names it\n",
        NameSource::KeytabVariable => "krbfile: KRB5_KTNAME names it\n",
        NameSource::Default => "krbfile: the default name (krb5.conf is not read); give FILE\n",
    }
}

/// Returns the words for a missing file: ktutil says it once more, and a run says where a name comes from that it was
/// not given.
pub fn missing_words<'a>(line: Option<u64>, source: NameSource) -> Line<'a>
    ensures { pieces_text result.items ≡ missing_words line source }
{
    match line {
        None => alone(source_line(source)),
        Some(_) => phrase(line, "no such file"),
    }
}

// Returns the type that a name begins with.
fn type_in(name: &[u8]) -> MessagePiece<'_>
    ensures { piece_text result ≡ shown_name (type_in name.now) }
{
    match type_of(name) {
        Some(kind) => Name(kind),
        None => Text(""),
    }
}

/// Returns the words for a name of a type that is not read.
pub fn type_words(line: Option<u64>, name: &[u8], source: NameSource) -> Line<'_>
    ensures { pieces_text result.items ≡ type_words line name.now source }
{
    let first = Text("only files are read, and this is ");
    words(
        line,
        &[first, type_in(name), END, Text(source_line(source))],
    )
}

// Returns the words for a name of a collection of caches.
fn collection_words<'a>(line: Option<u64>, source: NameSource) -> Line<'a>
    ensures { pieces_text result.items ≡ words_line line (codes "a collection; give one of its caches, DIR::FILE\n" ++ source_words source) }
{
    words(line, &[Text(COLLECTION), Text(source_line(source))])
}

/// Returns the words for a name of a type that is not read, of a file that is to be of that kind.
pub fn other_type_words(
    line: Option<u64>,
    kind: FileKind,
    name: &[u8],
    source: NameSource,
) -> Line<'_>
    ensures { pieces_text result.items ≡ other_type_words line kind name.now source }
{
    match kind {
        FileKind::Cache | FileKind::Either if name.starts_with(b"DIR:") => {
            collection_words(line, source)
        }
        _ => type_words(line, name, source),
    }
}

// Returns whether a name begins with the type of files that are read.
fn is_untyped(name: &[u8]) -> bool
    ensures { result ≡ is_some (untyped Keytab name.now) }
{
    name.starts_with(b"FILE:") || name.starts_with(b"WRFILE:")
}

/// Returns the words for a name that begins with a type where a file is to be written.
pub fn typed_words(line: Option<u64>, name: &[u8]) -> Line<'_>
    ensures { pieces_text result.items ≡ typed_words line name.now }
{
    if is_untyped(name) {
        words(line, &[Text("leave out "), type_in(name), END])
    } else {
        type_words(line, name, NameSource::Word)
    }
}

/// Returns the words for an entry that was added and that MIT's programs do not see, as they see none from `place` on.
pub fn hidden_words(file: &[u8], line: Option<u64>, place: u32) -> Line<'_>
    ensures { pieces_text result.items ≡ hidden_words file.now line place }
{
    let subject = match line {
        None => Subject::File,
        Some(line) => Subject::Line(line),
    };
    message(subject, file, Said::Hidden(place))
}
