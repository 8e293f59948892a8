//! A command line after it was matched against its command's words.

ghost use Rattle.std.specs.Prelude.{◌≡◌, length, option_map};
ghost use Rattle.krb_driver.specs.Mistakes.{first_value, twice, typed, v1_order, Refuses};

use crate::command_line::mistake::{Mistake, Phrase};
use krb_wire::Order;

/// The flags, operands and option values of a command line, by the names of its command's words.
pub trait Matches<'a> {
    ghost use Rattle.std.specs.Prelude.{map};
    ghost use Rattle.krb_driver.specs.Mistakes.{Matched};

    ghost matched: { Self → Matched };

    /// Returns whether that flag is given.
    fn flag(&self, name: &str) -> bool
        ensures { result ≡ (matched self.now).flag name.now };

    /// Returns that operand. A line without it does not match.
    fn operand(&self, name: &str) -> &'a str
        ensures { result.now ≡ (matched self.now).operand name.now };

    /// Returns the values given to that option, or for that operand, in order.
    fn values(&self, name: &str) -> &[&'a str]
        ensures { map (λ word. word.now) result.now ≡ (matched self.now).values name.now };

    /// Returns whether that long name of an option, with its `--`, is on the line.
    fn is_long(&self, name: &str) -> bool
        ensures { result ≡ (matched self.now).is_long name.now };
}

/// Returns an option as it was typed: by its long name if that is on the line, and otherwise by its letter.
pub fn typed<'a, M: Matches<'a>>(matches: &M, letter: &'a str, name: &'a str) -> &'a str
    ensures { result.now ≡ typed (M.matched matches.now) letter.now name.now }
{
    if matches.is_long(name) { name } else { letter }
}

/// Returns how many times an option is given.
#[tactic(auto, using(crate::proofs::Words::length_words))]
pub fn times_given<'a, M: Matches<'a>>(matches: &M, name: &str) -> usize
    ensures { result ≡ length ((M.matched matches.now).values name.now) }
{
    matches.values(name).len()
}

/// Refuses an option that is given twice. One without a letter has its long name for it.
pub fn refuse_twice<'a, M: Matches<'a>>(
    matches: &M,
    name: &str,
    letter: &'a str,
    long: &'a str,
) -> Result<(), Mistake<'a>>
    ensures { Refuses (twice (M.matched matches.now) name.now letter.now long.now) result }
{
    if times_given(matches, name) > 1 {
        return Err(Phrase::TWICE_GIVEN.of(typed(matches, letter, long)));
    }
    Ok(())
}

/// Returns the first value of an option or an operand.
#[tactic(auto, using(crate::proofs::Words::first_word))]
pub fn first_value<'a, M: Matches<'a>>(matches: &M, name: &str) -> Option<&'a str>
    ensures { option_map (λ word. word.now) result ≡ first_value (M.matched matches.now) name.now }
{
    matches.values(name).first().copied()
}

/// Returns the byte order of version 1 keytabs: big-endian if `--v1-big` is given.
pub fn v1_order<'a, M: Matches<'a>>(matches: &M) -> Order
    ensures { result ≡ v1_order (M.matched matches.now) }
{
    if matches.flag("v1-big") {
        Order::Big
    } else {
        Order::Little
    }
}
