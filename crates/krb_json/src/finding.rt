//! JSON of a check before its findings, and of the findings.

ghost use Rattle.std.specs.Prelude.{◌≡◌, ◌++◌, [], ◌∷◌, OnOk, codes};
ghost use Rattle.json.specs.Token.{begin_object};
ghost use Rattle.json.specs.Json.{string};
ghost use Rattle.json.specs.Tree.{json_tokens};
ghost use Rattle.krb_findings.specs.Table.{row_of};
ghost use Rattle.krb_json.specs.Check.{about_members, check_members, finding_value, missing_value, name_members};
ghost use Rattle.krb_json.specs.Pieces.{member_tokens, tokens_of};

use crate::piece::Piece;
use crate::put::Label;
use krb_audit::Counts;
use krb_findings::Finding;
use krb_keytab::EntryView;
use krb_wire::{NoMemory, PrincipalView};
use std::alloc::Allocator;

impl<A: Allocator> Piece<A> {
    /// Begins the object of a check, and writes the name of the file, its mode, and how many entries and holes it has.
    #[tactic(auto, unfolding(crate::specs::Check::check_members))]
    pub fn begin_check(
        &mut self,
        file: &str,
        mode: Option<u32>,
        counts: Counts,
    ) -> Result<(), NoMemory>
        ensures { OnOk result (self.new
            ≡ self.old ++ begin_object ∷ tokens_of (check_members file.now mode counts)) }
    {
        self.begin_object()?;
        self.string("file", file)?;
        self.mode("mode", mode)?;
        self.number("entries", counts.entries as u64)?;
        self.number("free", counts.free as u64)?;
        self.number("holes", counts.holes as u64)
    }

    // Begins the object of a finding, and writes its word.
    fn begin_finding(&mut self, finding: Finding) -> Result<(), NoMemory>
        ensures { OnOk result (self.new
            ≡ self.old ++ begin_object ∷ member_tokens (codes "finding", string (row_of finding).word)) }
    {
        self.begin_object()?;
        self.string("finding", finding.row().word)
    }

    /// Writes a finding about the file as an object.
    pub fn file_finding(&mut self, finding: Finding) -> Result<(), NoMemory>
        ensures { OnOk result (self.new ≡ self.old ++ json_tokens (finding_value finding [])) }
    {
        self.begin_finding(finding)?;
        self.end_object()
    }

    // Writes the entry that a finding is about.
    #[tactic(auto, unfolding(crate::specs::Check::about_members))]
    fn about_entry(
        &mut self,
        first: Option<u32>,
        place: u32,
        entry: &EntryView<'_>,
    ) -> Result<(), NoMemory>
        ensures { OnOk result (self.new
            ≡ self.old ++ tokens_of (about_members first (place, entry.now))) }
    {
        self.number("place", place as u64)?;
        self.optional("first", first)?;
        self.number("kvno", entry.kvno() as u64)?;
        self.number("etype", entry.enctype() as u64)?;
        self.name(Label::Principal, entry.principal())
    }

    /// Writes a finding about an entry as an object, with the place of the first entry that is alike if it is given.
    #[tactic(auto, using(crate::proofs::Arrays::joins))]
    pub fn entry_finding(
        &mut self,
        finding: Finding,
        first: Option<u32>,
        place: u32,
        entry: &EntryView<'_>,
    ) -> Result<(), NoMemory>
        ensures { OnOk result (self.new
            ≡ self.old ++ json_tokens (finding_value finding (about_members first (place, entry.now)))) }
    {
        self.begin_finding(finding)?;
        self.about_entry(first, place, entry)?;
        self.end_object()?;
        Ok(())
    }

    // Writes the name that a finding is about.
    #[tactic(auto, unfolding(crate::specs::Check::name_members))]
    fn about_name(&mut self, kvno: Option<u32>, name: &PrincipalView<'_>) -> Result<(), NoMemory>
        ensures { OnOk result (self.new ≡ self.old ++ tokens_of (name_members kvno name.now)) }
    {
        self.optional("kvno", kvno)?;
        self.name(Label::Principal, name)
    }

    /// Writes a finding about a name as an object, with the newest kvno of the name if it is given.
    #[tactic(auto, using(crate::proofs::Arrays::joins))]
    pub fn name_finding(
        &mut self,
        finding: Finding,
        kvno: Option<u32>,
        name: &PrincipalView<'_>,
    ) -> Result<(), NoMemory>
        ensures { OnOk result (self.new
            ≡ self.old ++ json_tokens (finding_value finding (name_members kvno name.now))) }
    {
        self.begin_finding(finding)?;
        self.about_name(kvno, name)?;
        self.end_object()?;
        Ok(())
    }

    /// Writes a name that is missing as an object.
    pub fn missing(&mut self, name: &[u8]) -> Result<(), NoMemory>
        ensures { OnOk result (self.new ≡ self.old ++ json_tokens (missing_value name.now)) }
    {
        self.begin_finding(Finding::Missing)?;
        self.text(Label::Principal, name)?;
        self.end_object()
    }
}
