//! What a file is by its first bytes.

ghost use Rattle.std.specs.Prelude.{◌≡◌};
ghost use Rattle.std.specs.List.{list_all};
ghost use Rattle.krb_driver.specs.Beginnings.{beginning_phrase, begins_as, is_keytab, is_text, is_text_byte, known};

/// What an image begins as.
#[derive(Clone, Copy, PartialEq, Eq)]
pub enum Beginning {
    /// A keytab, or a cache of version 1 or 2.
    Keytab,
    Cache,
    Gzip,
    Pem,
    JavaKeystore,
    /// A ticket of Windows, as Mimikatz and Rubeus write it.
    Kirbi,
    Der,
    Zip,
    Base64Keytab,
    Base64Cache,
    Text,
    Unknown,
}

fn is_text_byte(byte: u8) -> bool
    ensures { result ≡ is_text_byte byte }
{
    matches!(byte, b' '..=b'~' | b'\t' | b'\n' | b'\r')
}

fn are_text(bytes: &[u8]) -> bool
    ensures { result ≡ list_all is_text_byte bytes.now }
{
    bytes.iter().all(|byte| is_text_byte(*byte))
}

// Returns whether an image begins as text.
fn is_text(image: &[u8]) -> bool
    ensures { result ≡ is_text image.now }
{
    if image.len() >= 64 {
        are_text(&image[..64])
    } else {
        !image.is_empty() && are_text(image)
    }
}

// Returns the kind whose first bytes an image has.
#[tactic(auto, unfolding(crate::specs::Beginnings::beginnings))]
fn known(image: &[u8]) -> Option<Beginning>
    ensures { result ≡ known image.now }
{
    if image.starts_with(&[5, 1]) || image.starts_with(&[5, 2]) {
        Some(Beginning::Keytab)
    } else if image.starts_with(&[5, 3]) || image.starts_with(&[5, 4]) {
        Some(Beginning::Cache)
    } else if image.starts_with(&[0x1f, 0x8b]) {
        Some(Beginning::Gzip)
    } else if image.starts_with(b"-----BEGIN") {
        Some(Beginning::Pem)
    } else if image.starts_with(&[0xfe, 0xed, 0xfe, 0xed]) {
        Some(Beginning::JavaKeystore)
    } else if image.starts_with(&[0x76, 0x81]) || image.starts_with(&[0x76, 0x82]) {
        Some(Beginning::Kirbi)
    } else if image.starts_with(&[0x30, 0x82]) {
        Some(Beginning::Der)
    } else if image.starts_with(b"PK\x03\x04") {
        Some(Beginning::Zip)
    } else if image.starts_with(b"BQI") || image.starts_with(b"BQE") {
        Some(Beginning::Base64Keytab)
    } else if image.starts_with(b"BQQ") || image.starts_with(b"BQM") {
        Some(Beginning::Base64Cache)
    } else {
        None
    }
}

/// Returns what an image begins as.
pub fn begins_as(image: &[u8]) -> Beginning
    ensures { result ≡ begins_as image.now }
{
    match known(image) {
        Some(kind) => kind,
        None if is_text(image) => Beginning::Text,
        None => Beginning::Unknown,
    }
}

impl Beginning {
    pub fn is_keytab(self) -> bool
        ensures { result ≡ is_keytab self }
    {
        matches!(self, Beginning::Keytab)
    }

    /// Returns the phrase for a file that begins so and is none that is read, or `other` for what has none.
    pub fn phrase_or(self, other: &'static str) -> &'static str
        ensures { result.now ≡ beginning_phrase self other.now }
    {
        match self {
            Beginning::Gzip => "it is gzip, and not read",
            Beginning::Pem => "it is PEM, and not read",
            Beginning::JavaKeystore => "it is a Java keystore, and not read",
            Beginning::Kirbi => "it is a .kirbi, and not read",
            Beginning::Der => "it is DER, and not read",
            Beginning::Zip => "it is a zip file, and not read",
            Beginning::Base64Keytab => "it is base64 of a keytab, and not read",
            Beginning::Base64Cache => "it is base64 of a cache, and not read",
            Beginning::Text => "it is text, and not read",
            Beginning::Keytab | Beginning::Cache | Beginning::Unknown => other,
        }
    }
}
