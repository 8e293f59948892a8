//! The length before each cell.

ghost use Rattle.std.specs.Prelude.{◌≡◌, ◌<◌, ◌^◌, ◌-◌};
ghost use Rattle.krb_keytab.specs.Cells.{length_of, field_of, size_of, HasField};

/// What a length field says (MIT krb5, "Keytab file format").
#[derive(Clone, Copy, Debug, PartialEq, Eq)]
pub enum Length {
    /// No cell begins here.
    End,
    /// A record of this many bytes.
    Live(u32),
    /// A hole of this many bytes.
    Free(u32),
}

impl Length {
    /// Returns the two's complement: from the field of a record that of a hole as large, and the other way round.
    pub fn negated(field: u32) -> u32
        requires { 0 < field }
        ensures { result ≡ 2 ^ 32 - field }
    {
        (0x1_0000_0000 - field as u64) as u32
    }

    /// Decodes a field: 0 is the end, a number below 2^31 the length of a record, any other that of a hole, negated.
    #[inline(always)]
    pub fn of_field(field: u32) -> Length
        ensures { result ≡ length_of field }
    {
        if field >= 0x8000_0000 {
            return Length::Free(Length::negated(field));
        }
        if field == 0 {
            return Length::End;
        }
        Length::Live(field)
    }

    /// Encodes it as a field.
    #[inline(always)]
    pub fn field(self) -> u32
        requires { HasField self }
        ensures { result ≡ field_of self }
    {
        match self {
            Length::End => 0,
            Length::Live(size) => size,
            Length::Free(size) => Length::negated(size),
        }
    }

    /// Returns how many bytes the cell has after it.
    #[inline(always)]
    pub fn size(self) -> u32
        ensures { result ≡ size_of self }
    {
        match self {
            Length::End => 0,
            Length::Live(size) => size,
            Length::Free(size) => size,
        }
    }
}
