//! Members that hold bytes, and the names of those that hold strings from a file.

ghost use Rattle.std.specs.Prelude.{◌≡◌, ◌++◌, [], ◌∷◌, OnOk, MatchOption, true, false, codes};
ghost use Rattle.std.specs.Str.{is_utf8};
ghost use Rattle.hex.specs.Hex.{encode_lower};
ghost use Rattle.json.specs.Token.{key, string};
ghost use Rattle.krb_json.specs.Members.{label_text, text_member};
ghost use Rattle.krb_json.specs.Pieces.{member_tokens};

use json::Writer;
use krb_wire::NoMemory;
use std::alloc::Allocator;
use std::str;

/// A member that holds a string from a file.
#[derive(Clone, Copy)]
pub enum Label {
    Principal,
    DefaultPrincipal,
    Client,
    Server,
    TicketServer,
    Key,
    Value,
    Error,
    Name,
}

impl Label {
    /// Returns the member's name if the string is UTF-8, and if it is not.
    pub fn names(self) -> (&'static str, &'static str)
        ensures text { result.0.now ≡ label_text self }
        ensures hex { result.1.now ≡ label_text self ++ codes "_hex" }
    {
        match self {
            Label::Principal => ("principal", "principal_hex"),
            Label::DefaultPrincipal => ("default_principal", "default_principal_hex"),
            Label::Client => ("client", "client_hex"),
            Label::Server => ("server", "server_hex"),
            Label::TicketServer => ("ticket_server", "ticket_server_hex"),
            Label::Key => ("key", "key_hex"),
            Label::Value => ("value", "value_hex"),
            Label::Error => ("error", "error_hex"),
            Label::Name => ("name", "name_hex"),
        }
    }
}

/// Returns the bytes as a `str`, or `None` if they are not UTF-8.
#[tactic(auto, using(crate::proofs::Texts::utf8_is_text, crate::proofs::Texts::other_is_no_text))]
pub fn text_in(bytes: &[u8]) -> Option<&str>
    ensures { MatchOption result (is_utf8 bytes.now ≡ false)
        (λ text. (text.now ≡ bytes.now) × (is_utf8 bytes.now ≡ true)) }
{
    str::from_utf8(bytes).ok()
}

// Replaces `digits` with the bytes in lower-case hexadecimal.
fn fill_digits<A: Allocator>(bytes: &[u8], digits: &mut Vec<u8, A>) -> Result<(), NoMemory>
    ensures { OnOk result (digits.new.items ≡ encode_lower bytes.now) }
{
    let Some(len) = bytes.len().checked_mul(2) else {
        return Err(NoMemory);
    };
    digits.clear();
    digits.resize(len, 0)?;
    hex::encode_to_slice(bytes, digits.as_mut_slice()).unwrap();
    Ok(())
}

/// Writes a member that is bytes in lower-case hexadecimal. `digits` is scratch space.
#[tactic(auto, using(crate::proofs::Texts::digits_are_text))]
pub fn put_digits<A: Allocator>(
    name: &str,
    bytes: &[u8],
    digits: &mut Vec<u8, A>,
    writer: &mut Writer<A>,
) -> Result<(), NoMemory>
    ensures before { writer.new.before ≡ writer.old.before }
    ensures tokens { OnOk result (writer.new.tokens
        ≡ writer.old.tokens ++ key name.now ∷ string (encode_lower bytes.now) ∷ []) }
{
    fill_digits(bytes, digits)?;
    let Some(text) = text_in(digits) else {
        unreachable!()
    };
    writer.key(name)?;
    Ok(writer.string(text)?)
}

/// Writes a member that is a string from the file. `digits` is scratch space.
#[tactic(auto, unfolding(crate::specs::Members::text_member))]
pub fn put_text<A: Allocator>(
    label: Label,
    bytes: &[u8],
    digits: &mut Vec<u8, A>,
    writer: &mut Writer<A>,
) -> Result<(), NoMemory>
    ensures before { writer.new.before ≡ writer.old.before }
    ensures tokens { OnOk result (writer.new.tokens
        ≡ writer.old.tokens ++ member_tokens (text_member (label_text label) bytes.now)) }
{
    let (name, hex_name) = label.names();
    let Some(text) = text_in(bytes) else {
        return put_digits(hex_name, bytes, digits, writer);
    };
    writer.key(name)?;
    Ok(writer.string(text)?)
}
