//! The elements of an array of JSON, which are written as they fill up.

ghost use Rattle.std.specs.Prelude.{◌≡◌, ◌≤◌, ◌++◌, [], ◌∷◌, List, OnOk, IfOk, IsFalse, codes};
ghost use Rattle.json.specs.Json.{Json};
ghost use Rattle.json.specs.Print.{ArePrintableOrBad};
ghost use Rattle.json.specs.Token.{Token, begin_array, key};
ghost use Rattle.json.specs.Tree.{depth, json_tokens};
ghost use Rattle.krb_text.specs.Gathered.{Prints};
ghost use Rattle.krb_json.specs.Escaped.{text_of};
ghost use Rattle.krb_json.specs.Members.{fault_value, optional};
ghost use Rattle.krb_json.specs.Pieces.{Adds, Begins, between_tokens, tail_tokens};

use crate::piece::Piece;
use krb_files::{OutFault, Watched, put};
use krb_text::{room_to_gather, send_if_full};
use krb_walk::Fault;
use krb_wire::NoMemory;
use std::alloc::Allocator;
use std::io::Write;

/// The text of a file in JSON as far as it is not written: what is gathered, and the piece that is next.
#[derive(Drop)]
pub struct Elements<A: Allocator> {
    pub piece: Piece<A>,
    gathered: Vec<u8, A>,
    /// True if the array has an element.
    is_after: bool,
}

impl<A: Allocator + Copy> Elements<A> {
    /// Returns what is known before the file begins.
    pub fn new(alloc: A) -> Result<Elements<A>, NoMemory>
        ensures empty { IfOk result (λ elements. elements.piece ≡ []) }
        ensures none { IfOk result (λ elements. elements.gathered.items ≡ []) }
    {
        let gathered = room_to_gather(alloc)?;
        Ok(Elements {
            piece: Piece::new(alloc),
            gathered,
            is_after: false,
        })
    }

    /// Gathers the piece's text, and begins an array after it.
    pub fn begin_array(&mut self, name: &str) -> Result<(), NoMemory>
        ensures { OnOk result (Begins self.old.gathered.items self.new
            (self.old.piece ++ key name.now ∷ begin_array ∷ [])) }
    {
        self.piece.begin_array(name)?;
        self.piece.append_to(false, &mut self.gathered)?;
        self.is_after = false;
        Ok(())
    }

    /// Ends an array of an object and begins the next.
    pub fn next_array(&mut self, name: &str) -> Result<(), NoMemory>
        requires { self.old.piece ≡ [] }
        ensures { OnOk result (Begins self.old.gathered.items self.new (between_tokens name.now)) }
    {
        self.piece.end_array()?;
        self.begin_array(name)
    }

    /// Gathers the piece's text as an element, and writes what is gathered if it fills up.
    pub fn send<W: Write>(&mut self, out: &mut Watched<W>) -> Result<(), OutFault>
        requires { IsFalse out.old.failed }
        ensures { (v : Json) (none : List Token) → self.old.piece ≡ none ++ json_tokens v → none ≡ [] → depth v ≤ 2
            → Adds out.old out.new self.old self.new result (v ∷ []) }
    {
        self.piece.append_to(self.is_after, &mut self.gathered)?;
        send_if_full(&mut self.gathered, out)?;
        self.is_after = true;
        Ok(())
    }

    // Gathers the text after the last element of a file, and a newline.
    fn append_tail(&mut self, fault: Option<Fault>, status: Option<u8>) -> Result<(), NoMemory>
        requires { self.old.piece ≡ [] }
        ensures text { OnOk result (self.new.gathered.items ≡ self.old.gathered.items
            ++ (text_of (tail_tokens ((codes "fault", fault_value fault) ∷ optional (codes "status") status)) ++ codes "\n")) }
        ensures printed { OnOk result (ArePrintableOrBad
            (tail_tokens ((codes "fault", fault_value fault) ∷ optional (codes "status") status))) }
    {
        self.piece.end_file(fault, status)?;
        self.piece.append_to(false, &mut self.gathered)?;
        Ok(self.gathered.push(b'\n')?)
    }

    /// Writes what is gathered, then the text after the last element of a file, and a newline.
    pub fn end_file<W: Write>(
        &mut self,
        fault: Option<Fault>,
        status: Option<u8>,
        out: &mut Watched<W>,
    ) -> Result<(), OutFault>
        requires well { IsFalse out.old.failed }
        requires empty { self.old.piece ≡ [] }
        ensures prints { Prints out.old out.new result (self.old.gathered.items
            ++ (text_of (tail_tokens ((codes "fault", fault_value fault) ∷ optional (codes "status") status)) ++ codes "\n")) }
        ensures printed { OnOk result (ArePrintableOrBad
            (tail_tokens ((codes "fault", fault_value fault) ∷ optional (codes "status") status))) }
    {
        self.append_tail(fault, status)?;
        put(out, &self.gathered)
    }
}
