//! A hash of names.

ghost use Rattle.std.specs.Prelude.{◌≡◌};
ghost use Rattle.std.specs.List.{fold};
ghost use Rattle.krb_names.specs.Hash.{with_number, hash_of_words, hash_of};

// Returns a hash with one more number.
fn with_number(hash: u64, number: u64) -> u64
    ensures { result ≡ with_number hash number }
{
    hash.wrapping_add(number).wrapping_mul(0x100_0000_01b3)
}

// Returns the hash of numbers of eight bytes.
#[tactic(auto, using(std::proofs::lemmas::List::Sums::fold_more))]
fn hash_of_words(words: &[[u8; 8]]) -> u64
    ensures { result ≡ hash_of_words words.now }
{
    let mut hash = 0;
    for word in words {
        hash = with_number(hash, u64::from_le_bytes(*word));
    }
    hash
}

// Returns a hash with more bytes.
#[tactic(auto, using(std::proofs::lemmas::List::Sums::fold_more))]
fn with_bytes(mut hash: u64, bytes: &[u8]) -> u64
    ensures { result ≡ fold with_number hash bytes.now }
{
    for byte in bytes {
        hash = with_number(hash, u64::from(*byte));
    }
    hash
}

/// Returns a hash of a name's bytes. Names with different hashes are not compared byte by byte.
#[tactic(auto, unfolding(crate::specs::Hash::hash_of))]
pub fn hash_of(name: &[u8]) -> u64
    ensures { result ≡ hash_of name.now }
{
    let (words, rest) = name.as_chunks::<8>();
    with_bytes(hash_of_words(words), rest)
}
