//! How a keytab encodes its numbers and names.

ghost use Rattle.std.specs.Prelude.{◌≡◌, ◌<◌, ◌^◌, ◌↔◌, IsSome, IfSome};
ghost use Rattle.krb_wire.specs.Spelling.{version_byte, order_of, counted_realms, has_name_type, count_field};
ghost use Rattle.krb_wire.specs.Reading.{components_of_count};

/// The byte order of a number.
#[derive(Clone, Copy, Debug, PartialEq, Eq)]
pub enum Order {
    Big,
    Little,
}

/// The width and the byte order of the lengths of counted data.
#[derive(Clone, Copy, Debug, PartialEq, Eq)]
pub enum Lengths {
    Bits16(Order),
    Bits32(Order),
}

/// The version of a keytab. Version 1 has the byte order of the machine that wrote it; version 2 is big-endian (MIT
/// krb5, "Keytab file format").
#[derive(Clone, Copy, Debug, PartialEq, Eq)]
pub enum KtFormat {
    V1(Order),
    V2,
}

impl KtFormat {
    /// Returns the byte order of its numbers.
    pub fn order(self) -> Order
        ensures { result ≡ order_of self }
    {
        match self {
            KtFormat::V1(order) => order,
            KtFormat::V2 => Order::Big,
        }
    }

    /// Returns the second byte of a keytab.
    pub fn version(self) -> u8
        ensures { result ≡ version_byte self }
    {
        match self {
            KtFormat::V1(_) => 1,
            KtFormat::V2 => 2,
        }
    }

    // Version 1 counts the realm as a component of a name.
    fn counted_realms(self) -> usize
        ensures { result ≡ counted_realms self }
    {
        match self {
            KtFormat::V1(_) => 1,
            KtFormat::V2 => 0,
        }
    }

    /// Returns how many components the count field means. Version 1 counts the realm too, so a count of 0 gives `None`.
    pub fn components_of(self, field: u16) -> Option<usize>
        ensures { result ≡ components_of_count self field }
    {
        (field as usize).checked_sub(self.counted_realms())
    }

    /// Returns the count field for that many components, or `None` if it does not fit 16 bits.
    pub fn count_of(self, components: usize) -> Option<u16>
        ensures some { IsSome result ↔ (count_field self components < 2 ^ 16) }
        ensures value { IfSome result (λ n. n ≡ count_field self components) }
    {
        let field = components.checked_add(self.counted_realms())?;
        u16::try_from(field).ok()
    }

    /// Returns whether names have a type. Version 1 has none, and each reads as 0.
    pub fn has_name_type(self) -> bool
        ensures { result ≡ has_name_type self }
    {
        match self {
            KtFormat::V1(_) => false,
            KtFormat::V2 => true,
        }
    }
}
