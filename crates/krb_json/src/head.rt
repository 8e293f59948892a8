//! The object of a file before its first array and after its last.

ghost use Rattle.std.specs.Prelude.{◌≡◌, ◌++◌, ◌∷◌, OnOk, codes};
ghost use Rattle.json.specs.Token.{begin_object};
ghost use Rattle.krb_json.specs.Cache.{offset_value};
ghost use Rattle.krb_json.specs.Members.{file_members, fault_value, optional};
ghost use Rattle.krb_json.specs.Pieces.{member_tokens, tokens_of, tail_tokens};

use crate::piece::Piece;
use krb_ccache::Offset;
use krb_walk::Fault;
use krb_wire::NoMemory;
use std::alloc::Allocator;

impl<A: Allocator> Piece<A> {
    /// Begins the object of a file, and writes its name, its kind and its format version.
    pub fn begin_file(&mut self, file: &str, kind: &str, version: u64) -> Result<(), NoMemory>
        ensures { OnOk result (self.new
            ≡ self.old ++ begin_object ∷ tokens_of (file_members file.now kind.now version)) }
    {
        self.begin_object()?;
        self.string("file", file)?;
        self.string("kind", kind)?;
        self.number("version", version)?;
        Ok(())
    }

    /// Writes the time offset of a cache, or null if it has none.
    pub fn offset(&mut self, offset: Option<Offset>) -> Result<(), NoMemory>
        ensures { OnOk result (self.new ≡ self.old ++ member_tokens (codes "offset", offset_value offset)) }
    {
        let Some(offset) = offset else {
            return self.null("offset");
        };
        self.begin_object_at("offset")?;
        self.integer("seconds", Some(offset.seconds as i64))?;
        self.integer("microseconds", Some(offset.micros as i64))?;
        self.end_object()?;
        Ok(())
    }

    // Writes the kind and the place of the fault, or null if there is none.
    fn fault(&mut self, fault: Option<Fault>) -> Result<(), NoMemory>
        ensures { OnOk result (self.new ≡ self.old ++ member_tokens (codes "fault", fault_value fault)) }
    {
        let Some(fault) = fault else {
            return self.null("fault");
        };
        self.begin_object_at("fault")?;
        self.number("kind", fault.kind.number() as u64)?;
        self.number("place", fault.place as u64)?;
        self.end_object()
    }

    /// Ends the last array, writes the fault, or null if there is none, and the status if it is given, and ends the
    /// object of the file.
    pub fn end_file(&mut self, fault: Option<Fault>, status: Option<u8>) -> Result<(), NoMemory>
        ensures { OnOk result (self.new
            ≡ self.old ++ tail_tokens ((codes "fault", fault_value fault) ∷ optional (codes "status") status)) }
    {
        self.end_array()?;
        self.fault(fault)?;
        self.optional("status", status.map(u32::from))?;
        self.end_object()
    }
}
