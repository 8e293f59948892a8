//! A keytab as JSON.

ghost use Rattle.std.specs.Prelude.{◌≡◌, ◌++◌, [], ◌∷◌, Some, OnOk, IsFalse, codes};
ghost use Rattle.krb_wire.specs.Spelling.{version_byte};
ghost use Rattle.krb_text.specs.Gathered.{Prints};
ghost use Rattle.json.specs.Json.{document};
ghost use Rattle.krb_json.specs.Escaped.{json_text};
ghost use Rattle.krb_json.specs.Members.{file_members};
ghost use Rattle.krb_json.specs.Keytab.{entry_values, keytab_value, keytab_json_text, owner_members, key_members, entry_value};
ghost use Rattle.krb_json.specs.Pieces.{Adds, Begins, head_tokens, tokens_of};
ghost use Rattle.json.specs.Tree.{json_tokens};

use crate::elements::Elements;
use crate::piece::Piece;
use crate::put::Label;
use krb_files::{OutFault, Watched};
use krb_keytab::{EntryView, Keytab};
use krb_wire::{KtFormat, NoMemory};
use std::alloc::Allocator;
use std::io::Write;

impl<A: Allocator> Piece<A> {
    // Writes an entry's place, principal and kvno.
    #[tactic(auto, unfolding(crate::specs::Keytab::owner_members))]
    fn owner(&mut self, place: u32, entry: &EntryView<'_>) -> Result<(), NoMemory>
        ensures { OnOk result (self.new ≡ self.old ++ tokens_of (owner_members (place, entry.now))) }
    {
        self.number("place", place as u64)?;
        self.name(Label::Principal, entry.principal())?;
        self.number("kvno", entry.kvno() as u64)
    }

    // Writes the key, if keys are shown.
    #[tactic(auto, unfolding(crate::specs::Keytab::key_members))]
    fn key(&mut self, is_shown: bool, key: &[u8]) -> Result<(), NoMemory>
        ensures { OnOk result (self.new ≡ self.old ++ tokens_of (key_members is_shown key.now)) }
    {
        if !is_shown {
            return Ok(());
        }
        self.digits("key_hex", key)
    }

    /// Writes an entry of a keytab as an object.
    pub fn entry(
        &mut self,
        place: u32,
        entry: &EntryView<'_>,
        shows_keys: bool,
    ) -> Result<(), NoMemory>
        ensures { OnOk result (self.new
            ≡ self.old ++ json_tokens (entry_value shows_keys (place, entry.now))) }
    {
        self.begin_object()?;
        self.owner(place, entry)?;
        self.etype(entry.enctype())?;
        self.number("timestamp", entry.timestamp() as u64)?;
        self.key(shows_keys, entry.key())?;
        self.end_object()?;
        Ok(())
    }
}

// Gathers the text before the first entry.
#[tactic(auto, using(crate::proofs::Arrays::head_written))]
fn begin<A: Allocator + Copy>(
    file: &str,
    format: KtFormat,
    elements: &mut Elements<A>,
) -> Result<(), NoMemory>
    requires { elements.old.piece ≡ [] }
    ensures { OnOk result (Begins elements.old.gathered.items elements.new
        (head_tokens (file_members file.now (codes "keytab") (version_byte format)) (codes "entries"))) }
{
    elements
        .piece
        .begin_file(file, "keytab", format.version() as u64)?;
    elements.begin_array("entries")?;
    Ok(())
}

// Sends an entry.
#[tactic(auto, using(crate::proofs::ReadBack::entry_flat))]
fn send_entry<A: Allocator + Copy, W: Write>(
    place: u32,
    entry: &EntryView<'_>,
    shows_keys: bool,
    elements: &mut Elements<A>,
    out: &mut Watched<W>,
) -> Result<(), OutFault>
    requires well { IsFalse out.old.failed }
    requires empty { elements.old.piece ≡ [] }
    ensures { Adds out.old out.new elements.old elements.new result (entry_value shows_keys (place, entry.now) ∷ []) }
{
    elements.piece.entry(place, entry, shows_keys)?;
    elements.send(out)
}

// Sends all entries.
fn send_entries<A: Allocator + Copy, B: Allocator, W: Write>(
    keytab: &Keytab<B>,
    shows_keys: bool,
    elements: &mut Elements<A>,
    out: &mut Watched<W>,
) -> Result<(), OutFault>
    requires well { IsFalse out.old.failed }
    requires empty { elements.old.piece ≡ [] }
    ensures { Adds out.old out.new elements.old elements.new result (entry_values shows_keys keytab.now.state) }
{
    'entries: for (place, entry) in keytab.entries() {
        send_entry(place, &entry, shows_keys, elements, out)?;
    }
    Ok(())
}

/// Writes a keytab as one JSON object (RFC 8259) and a newline: its file name, an element for each entry in file order,
/// with its key if `shows_keys`, and the fault if the keytab is damaged. The text goes out in large writes; if one
/// fails, a prefix of the text has been written.
pub fn keytab_json<A: Allocator + Copy, B: Allocator, W: Write>(
    alloc: A,
    file: &str,
    keytab: &Keytab<B>,
    shows_keys: bool,
    out: &mut Watched<W>,
) -> Result<(), OutFault>
    requires { IsFalse out.old.failed }
    ensures prints { Prints out.old out.new result (keytab_json_text file.now shows_keys keytab.now.state) }
    // A reader parses the text as this value.
    ensures reads_back { OnOk result (document (json_text
        (keytab_value file.now shows_keys keytab.now.state))
        ≡ Some (keytab_value file.now shows_keys keytab.now.state)) }
{
    let mut elements = Elements::new(alloc)?;
    begin(file, keytab.format(), &mut elements)?;
    send_entries(keytab, shows_keys, &mut elements, out)?;
    elements.end_file(keytab.fault(), None, out)
}
