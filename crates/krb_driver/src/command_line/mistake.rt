//! What is wrong with a command line.

ghost use Rattle.std.specs.Prelude.{◌≡◌, None};
ghost use Rattle.krb_driver.specs.declared.command_line.mistake.More.TheVariants.{Nothing};
ghost use Rattle.krb_driver.specs.declared.command_line.mistake.WordFault.TheVariants.{BadLine, NoMemory};

use krb_wire::NoMemory;
use std::alloc::AllocError;

/// What is wrong with a word of a command line, or with two, in texts around them.
#[derive(Clone, Copy, PartialEq, Eq)]
pub enum Phrase<'a> {
    /// The texts before, between and after the words.
    Shown(&'a str, &'a str, &'a str),
    /// The text between the words, the first of them in quotes.
    Quoted(&'a str),
}

/// The phrases, each with what its words are.
impl Phrase<'static> {
    /// Of no word.
    pub const WITHOUT_COMMAND: Self = Phrase::Shown("no command", "", "");
    /// Of a word in the place of a command.
    pub const UNKNOWN_COMMAND: Self = Phrase::Shown("unknown command ", "", "");
    /// Of an option, or of a bundle of options.
    pub const UNKNOWN_OPTION: Self = Phrase::Shown("unknown option ", "", "");
    /// Of one letter of a bundle of options.
    pub const UNKNOWN_IN_BUNDLE: Self = Phrase::Shown("unknown option -", "", "");
    /// Of an operand, by its name in the synopsis.
    pub const MISSING: Self = Phrase::Shown("no ", "", "");
    /// Of a word after the last operand.
    pub const LEFT_OVER: Self = Phrase::Shown("left over: ", "", "");
    /// Of an option at the end of the line, or before another one.
    pub const NEEDS_VALUE: Self = Phrase::Shown("", " needs a value", "");
    /// Of an option.
    pub const TWICE_GIVEN: Self = Phrase::Shown("", " is given twice", "");
    /// Of an option of a run over one file, with several.
    pub const TAKES_ONE_FILE: Self = Phrase::Shown("", " takes one FILE", "");
    /// Of two options, or of an option and an operand.
    pub const DOES_NOT_GO_WITH: Self = Phrase::Shown("", " does not go with ", "");
    /// Of an option, without `-k`.
    pub const FOR_KEYTABS: Self = Phrase::Shown("", " is for keytabs; give -k", "");
    /// Of an option without another one that it needs.
    pub const GOES_WITH: Self = Phrase::Shown("", " goes with ", "");
    /// Of an option that goes with another one only.
    pub const ONLY_WITH: Self = Phrase::Shown("", " goes with ", " alone");
    /// Of an option that goes with another one that is given once.
    pub const ONLY_WITH_ONE: Self = Phrase::Shown("", " goes with one ", "");
    /// Of a word in the place of a version.
    pub const NO_VERSION: Self = Phrase::Quoted(" is no version");
    /// Of a word in the place of an encryption type.
    pub const NO_ETYPE: Self = Phrase::Quoted(" is no encryption type");
    /// Of a word in the place of a time.
    pub const NO_TIME: Self = Phrase::Quoted(" is no time (90, 15m, 10h, 7d)");
    /// Of a word in the place of a count.
    pub const NO_COUNT: Self = Phrase::Quoted(" is no count");
    /// Of a word in the place of a finding.
    pub const NO_FINDING: Self = Phrase::Quoted(" is no finding");
    /// Of a name, and of what is wrong with it.
    pub const FAULTY_NAME: Self = Phrase::Quoted(" has ");
    /// Of the options that select.
    pub const NOTHING_SELECTS: Self = Phrase::Shown("nothing selects; give ", "", "");
    /// Of no word: the argument is not shown.
    pub const NOT_TEXT: Self = Phrase::Shown("an argument is not UTF-8", "", "");
    /// Of a variable of the environment.
    pub const VARIABLE_NOT_TEXT: Self = Phrase::Shown("", " is not UTF-8", "");
}

/// What is wrong with a command line: a phrase and its words, which are as on the line. A word that is not there is
/// empty.
#[derive(Clone, Copy)]
pub struct Mistake<'a> {
    pub phrase: Phrase<'a>,
    pub word: &'a str,
    pub other: &'a str,
}

impl<'a> Phrase<'a> {
    ghost use Rattle.std.specs.Prelude.{[]};
    ghost use Rattle.krb_driver.specs.Mistakes.{mistake_parts, parts_of};

    /// Returns the mistake of two words.
    pub fn of_both(self, word: &'a str, other: &'a str) -> Mistake<'a>
        ensures { mistake_parts result ≡ parts_of self.entry word.now other.now }
    {
        Mistake {
            phrase: self,
            word,
            other,
        }
    }

    /// Returns the mistake of a word.
    pub fn of(self, word: &'a str) -> Mistake<'a>
        ensures { mistake_parts result ≡ parts_of self.entry word.now [] }
    {
        self.of_both(word, "")
    }
}

/// What follows the line of a mistake.
#[derive(Clone, Copy)]
pub enum More<'a> {
    Nothing,
    /// The command that was meant, as it seems.
    MeantCommand(&'a str),
    /// The long option that was meant, as it seems, without its `--`.
    MeantOption(&'a str),
    /// The text of a help.
    Help(&'a str),
}

/// A mistake, the command whose help says more, if there is one, and what follows.
#[derive(Clone, Copy)]
pub struct BadLine<'a> {
    pub mistake: Mistake<'a>,
    pub command: Option<&'a str>,
    pub more: More<'a>,
}

/// Why a command line was not read.
#[derive(Clone, Copy)]
pub enum WordFault<'a> {
    BadLine(BadLine<'a>),
    NoMemory,
}

impl<'a> WordFault<'a> {
    ghost use Rattle.krb_driver.specs.Mistakes.{in_command, word_number};

    /// Returns the same fault, for words of that command.
    pub fn in_command(self, command: &'a str) -> WordFault<'a>
        ensures { result ≡ in_command command.entry self.entry }
    {
        match self {
            WordFault::BadLine(line) => WordFault::BadLine(BadLine {
                command: Some(command),
                ..line
            }),
            WordFault::NoMemory => WordFault::NoMemory,
        }
    }

    /// Returns 1 for a bad line, 2 if an allocation failed.
    pub fn number(self) -> u32
        ensures { result ≡ word_number self.entry }
    {
        match self {
            WordFault::BadLine(_) => 1,
            WordFault::NoMemory => 2,
        }
    }
}

impl From<AllocError> for WordFault<'_> {
    ghost from_gives = { λ _ fault. fault ≡ NoMemory };

    fn from(_error: AllocError) -> Self {
        WordFault::NoMemory
    }
}

impl From<NoMemory> for WordFault<'_> {
    ghost from_gives = { λ _ fault. fault ≡ NoMemory };

    fn from(_error: NoMemory) -> Self {
        WordFault::NoMemory
    }
}

/// A bad line with no command, and nothing after it.
impl<'a> From<Mistake<'a>> for WordFault<'a> {
    ghost from_gives = { λ mistake fault. fault ≡ BadLine (record { mistake = mistake; command = None; more = Nothing }) };

    fn from(mistake: Mistake<'a>) -> Self {
        WordFault::BadLine(BadLine {
            mistake,
            command: None,
            more: More::Nothing,
        })
    }
}
