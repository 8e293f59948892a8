//! A piece of JSON text, made of tokens.

ghost use Rattle.std.specs.Prelude.{◌≡◌, ◌++◌, [], ◌∷◌, OnOk, not, option_copied};
ghost use Rattle.json.specs.Json.{boolean, null, string};
ghost use Rattle.json.specs.Token.{begin_object, end_object, begin_array, end_array, key};
ghost use Rattle.json.specs.Print.{ArePrintableOrBad};
ghost use Rattle.json.specs.Tree.{json_tokens};
ghost use Rattle.krb_wire.specs.Names.{name_text};
ghost use Rattle.krb_text.specs.Flags.{flag_letters_of};
ghost use Rattle.krb_json.specs.Cache.{integer_or_null};
ghost use Rattle.krb_json.specs.Check.{mode_value};
ghost use Rattle.krb_json.specs.Escaped.{text_of};
ghost use Rattle.krb_json.specs.Members.{label_text, number_of, optional, digits_of, text_member, text_or_null, etype_members};
ghost use Rattle.krb_json.specs.Pieces.{member_tokens, tokens_of, comma_after};

use crate::escape::append_escaped;
use crate::put::{Label, put_digits, put_text, text_in};
use json::Writer;
use krb_audit::append_mode_digits;
use krb_text::{etype_name, flag_letters};
use krb_wire::{Name, NoMemory, write_name};
use std::alloc::Allocator;
use std::marker::Model;
use std::mem;

/// A piece of JSON text under construction, in memory that is reused from piece to piece. Contracts see its tokens.
#[derive(Drop)]
pub struct Piece<A: Allocator> {
    pub alloc: A,
    writer: Writer<A>,
    // Scratch space for the next string.
    text: Vec<u8, A>,
    // Scratch space for hexadecimal digits.
    digits: Vec<u8, A>,
}

impl<A: Allocator> Model for Piece<A> {
    ghost use Rattle.std.specs.Prelude.{◌≡◌, List, []};
    ghost use Rattle.json.specs.Token.{Token, tokens_code};

    ghost Value = { List Token };

    ghost coded = { tokens_code };

    ghost view = { λ p. p.writer.tokens };

    ghost invariant = { λ p. p.writer.before ≡ [] };
}

impl<A: Allocator + Copy> Piece<A> {
    /// Returns an empty piece.
    pub fn new(alloc: A) -> Piece<A>
        ensures { result ≡ [] }
    {
        Piece {
            alloc,
            writer: Writer::new(Vec::new(alloc)),
            text: Vec::new(alloc),
            digits: Vec::new(alloc),
        }
    }

    /// Appends the piece's text to `gathered`, after a comma if it is an element after others, and empties the piece.
    #[tactic(auto, using(crate::proofs::ReadBack::tokens_printed))]
    pub fn append_to<B: Allocator>(
        &mut self,
        is_after: bool,
        gathered: &mut Vec<u8, B>,
    ) -> Result<(), NoMemory>
        ensures text { OnOk result (gathered.new.items
            ≡ gathered.old.items ++ (comma_after is_after ++ text_of self.old)) }
        ensures printed { OnOk result (ArePrintableOrBad self.old) }
        ensures empty { OnOk result (self.new ≡ []) }
    {
        if is_after {
            gathered.push(b',')?;
        }
        let writer = mem::replace(&mut self.writer, Writer::new(Vec::new(self.alloc)));
        let mut text = writer.into_inner();
        append_escaped(&text, gathered)?;
        text.clear();
        self.writer = Writer::new(text);
        Ok(())
    }
}

impl<A: Allocator> Piece<A> {
    /// Begins an object: an element of an array, or the whole value.
    pub fn begin_object(&mut self) -> Result<(), NoMemory>
        ensures { OnOk result (self.new ≡ self.old ++ begin_object ∷ []) }
    {
        Ok(self.writer.begin_object()?)
    }

    /// Ends the object that was begun last.
    pub fn end_object(&mut self) -> Result<(), NoMemory>
        ensures { OnOk result (self.new ≡ self.old ++ end_object ∷ []) }
    {
        Ok(self.writer.end_object()?)
    }

    /// Begins a member that is an array.
    pub fn begin_array(&mut self, name: &str) -> Result<(), NoMemory>
        ensures { OnOk result (self.new ≡ self.old ++ key name.now ∷ begin_array ∷ []) }
    {
        self.writer.key(name)?;
        Ok(self.writer.begin_array()?)
    }

    /// Ends the array that was begun last.
    pub fn end_array(&mut self) -> Result<(), NoMemory>
        ensures { OnOk result (self.new ≡ self.old ++ end_array ∷ []) }
    {
        Ok(self.writer.end_array()?)
    }

    /// Begins a member that is an object.
    pub fn begin_object_at(&mut self, name: &str) -> Result<(), NoMemory>
        ensures { OnOk result (self.new ≡ self.old ++ key name.now ∷ begin_object ∷ []) }
    {
        self.writer.key(name)?;
        Ok(self.writer.begin_object()?)
    }

    /// Writes a member that is null.
    pub fn null(&mut self, name: &str) -> Result<(), NoMemory>
        ensures { OnOk result (self.new ≡ self.old ++ member_tokens (name.now, null)) }
    {
        self.writer.key(name)?;
        Ok(self.writer.null()?)
    }

    /// Writes a member that is true or false.
    pub fn boolean(&mut self, name: &str, value: bool) -> Result<(), NoMemory>
        ensures { OnOk result (self.new ≡ self.old ++ member_tokens (name.now, boolean value)) }
    {
        self.writer.key(name)?;
        Ok(self.writer.boolean(value)?)
    }

    /// Writes a member that is a number.
    #[inline(always)]
    pub fn number(&mut self, name: &str, value: u64) -> Result<(), NoMemory>
        ensures { OnOk result (self.new ≡ self.old ++ member_tokens (name.now, number_of value)) }
    {
        self.writer.key(name)?;
        Ok(self.writer.u64(value)?)
    }

    /// Writes a member that is a number, if it is given.
    pub fn optional(&mut self, name: &str, value: Option<u32>) -> Result<(), NoMemory>
        ensures { OnOk result (self.new ≡ self.old ++ tokens_of (optional name.now value)) }
    {
        match value {
            Some(value) => self.number(name, value as u64),
            None => Ok(()),
        }
    }

    /// Writes a number that is an element of an array.
    pub fn element(&mut self, value: u64) -> Result<(), NoMemory>
        ensures { OnOk result (self.new ≡ self.old ++ json_tokens (number_of value)) }
    {
        Ok(self.writer.u64(value)?)
    }

    /// Writes a member that is an integer, or null if there is none.
    pub fn integer(&mut self, name: &str, value: Option<i64>) -> Result<(), NoMemory>
        ensures { OnOk result (self.new ≡ self.old ++ member_tokens (name.now, integer_or_null value)) }
    {
        let Some(value) = value else {
            return self.null(name);
        };
        self.writer.key(name)?;
        Ok(self.writer.i64(value)?)
    }

    /// Writes a member that is a string of the program's own.
    pub fn string(&mut self, name: &str, value: &str) -> Result<(), NoMemory>
        ensures { OnOk result (self.new ≡ self.old ++ member_tokens (name.now, string value.now)) }
    {
        self.writer.key(name)?;
        Ok(self.writer.string(value)?)
    }

    /// Writes a member that is a string of the program's own, or null if there is none.
    pub fn string_or_null(&mut self, name: &str, value: Option<&str>) -> Result<(), NoMemory>
        ensures { OnOk result (self.new
            ≡ self.old ++ member_tokens (name.now, text_or_null (option_copied value.entry))) }
    {
        match value {
            Some(value) => self.string(name, value),
            None => self.null(name),
        }
    }

    /// Writes a member that is bytes in lower-case hexadecimal.
    pub fn digits(&mut self, name: &str, bytes: &[u8]) -> Result<(), NoMemory>
        ensures { OnOk result (self.new ≡ self.old ++ member_tokens (name.now, digits_of bytes.now)) }
    {
        put_digits(name, bytes, &mut self.digits, &mut self.writer)
    }

    /// Writes a member that is a string from the file: in hexadecimal, with `_hex` in its name, if it is not UTF-8.
    pub fn text(&mut self, label: Label, bytes: &[u8]) -> Result<(), NoMemory>
        ensures { OnOk result (self.new
            ≡ self.old ++ member_tokens (text_member (label_text label) bytes.now)) }
    {
        put_text(label, bytes, &mut self.digits, &mut self.writer)
    }

    /// Writes a member that is a principal name from the file, as it is printed.
    pub fn name<N: Name>(&mut self, label: Label, name: &N) -> Result<(), NoMemory>
        ensures { OnOk result (self.new
            ≡ self.old ++ member_tokens (text_member (label_text label) (name_text (N.parts name.now)))) }
    {
        self.text.clear();
        write_name(name, &mut self.text)?;
        put_text(label, &self.text, &mut self.digits, &mut self.writer)
    }

    /// Writes a member that is the letters of ticket flags.
    #[tactic(auto, using(crate::proofs::Texts::letters_are_text))]
    pub fn letters(&mut self, name: &str, flags: u32) -> Result<(), NoMemory>
        ensures { OnOk result (self.new ≡ self.old ++ member_tokens (name.now, string (flag_letters_of flags))) }
    {
        self.text.clear();
        flag_letters(flags, &mut self.text)?;
        let Some(letters) = text_in(&self.text) else {
            unreachable!()
        };
        self.writer.key(name)?;
        Ok(self.writer.string(letters)?)
    }

    /// Writes a member that is a file mode in octal, or null if there is none.
    #[tactic(auto, using(crate::proofs::Texts::mode_is_text))]
    pub fn mode(&mut self, name: &str, mode: Option<u32>) -> Result<(), NoMemory>
        ensures { OnOk result (self.new ≡ self.old ++ member_tokens (name.now, mode_value mode)) }
    {
        let Some(mode) = mode else {
            return self.null(name);
        };
        self.text.clear();
        append_mode_digits(mode, &mut self.text)?;
        let Some(digits) = text_in(&self.text) else {
            unreachable!()
        };
        self.writer.key(name)?;
        Ok(self.writer.string(digits)?)
    }

    /// Writes an enctype as two members: its number, and its name, or null if it has none.
    pub fn etype(&mut self, etype: u16) -> Result<(), NoMemory>
        ensures { OnOk result (self.new ≡ self.old ++ tokens_of (etype_members etype)) }
    {
        self.number("etype", etype as u64)?;
        self.string_or_null("etype_name", etype_name(etype))?;
        Ok(())
    }
}
