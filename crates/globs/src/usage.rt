//! What is wrong with a command line.
ghost use Rattle.std.specs.Prelude.{◌≡◌, Some};
ghost use Rattle.globs.specs.Faults.{help_words, instead_words, subject_words, usage_words, why_words};
ghost use Rattle.globs.specs.declared.usage.UsageFault.TheVariants.{Word};

use crate::foreign::commands::habit;
use crate::foreign::{foreign, unknown};
use crate::name::Name;
use crate::visible::Visible;
use std::alloc::{AllocError, AllocFailed};
use std::fmt::{self, Display};

/// Why a word of the command line is wrong.
#[derive(Clone, Copy)]
pub enum Why {
    /// It is not an option of the command.
    Unknown,
    /// It is an option without its value.
    Valueless,
    /// It is not a limit.
    Limit,
    /// It is not a number of names.
    Depth,
    /// It is not a kind.
    Kind,
    /// It is not a name for ignore files.
    RuleFile,
    /// It is an option, and comes after an operand.
    Late,
    /// It is the value of an option, and no operand follows.
    Taken,
    /// An operand is missing. The word is empty.
    Bare,
    /// The text to explain is missing. The word is empty.
    Textless,
    /// It comes after the text to explain.
    Extra,
    /// It comes after the command whose help page is asked for.
    Surplus,
    /// It is not a command.
    Command,
    /// The command is missing. The word is empty.
    Empty,
}

/// Why a command line is refused.
#[derive(Clone, Copy)]
pub enum UsageFault<'a> {
    /// This word is wrong.
    Word(Why, &'a str),
    /// Out of memory: an allocation failed.
    Memory,
}

/// A failed allocation.
impl<T: Drop> From<AllocFailed<T>> for UsageFault<'_> {
    ghost use Rattle.std.specs.Prelude.{◌≡◌};
    ghost use Rattle.globs.specs.declared.usage.UsageFault.TheVariants.{Memory};

    ghost from_gives = { λ _ fault. fault ≡ Memory };

    fn from(_error: AllocFailed<T>) -> Self {
        UsageFault::Memory
    }
}

/// A usage fault. It prints as a line, without the program's name.
#[derive(Clone, Copy)]
pub struct UsageLine<'a> {
    /// The command, if one was given.
    pub name: Option<Name>,
    pub fault: UsageFault<'a>,
}

impl<'a> UsageLine<'a> {
    /// The line for a wrong word.
    pub fn new(name: Option<Name>, why: Why, word: &'a str) -> Self
        ensures { result ≡ record { name = name; fault = Word why word.entry } }
    {
        UsageLine {
            name,
            fault: UsageFault::Word(why, word),
        }
    }
}

impl Display for UsageLine<'_> {
    ghost output = { λ line. Some (usage_words line) };

    fn fmt<W: fmt::Write>(&self, f: &mut fmt::Formatter<W>) -> fmt::Result {
        match self.fault {
            UsageFault::Word(why, word) => {
                let subject = Subject { why, word };
                let help = Help { name: self.name };
                let instead = instead_of(self.name, why, word);
                write!(f, "{subject}{}{instead}: {help}", why.words(self.name))
            }
            UsageFault::Memory => f.write_str("out of memory"),
        }
    }
}

/// The wrong word in backquotes, or nothing if no word is wrong.
#[derive(Clone, Copy)]
struct Subject<'a> {
    why: Why,
    word: &'a str,
}

impl Display for Subject<'_> {
    ghost output = { λ subject. Some (subject_words subject.why subject.word.now) };

    fn fmt<W: fmt::Write>(&self, f: &mut fmt::Formatter<W>) -> fmt::Result {
        let word = Visible { text: self.word };
        match self.why {
            Why::Bare | Why::Textless | Why::Empty => Ok(()),
            Why::Unknown
            | Why::Valueless
            | Why::Limit
            | Why::Depth
            | Why::Kind
            | Why::RuleFile
            | Why::Late
            | Why::Taken
            | Why::Extra
            | Why::Surplus
            | Why::Command => write!(f, "`{word}`"),
        }
    }
}

impl Why {
    /// What the line says after the word.
    fn words(self, name: Option<Name>) -> &'static str
        ensures { result.now ≡ why_words name self }
    {
        match self {
            Why::Unknown => " is not an option",
            Why::Valueless => " needs a value, which is the next word or follows =",
            Why::Limit => " is not a limit: -n needs a whole number below 2^64",
            Why::Depth => " is not a depth: --max-depth needs a whole number below 2^64",
            Why::Kind => " is not a kind: use -t f, -t d or -t l, or several of them",
            Why::RuleFile => " is not a file name: --ignore-files needs one, such as .gitignore",
            Why::Late => " comes after an operand, where it could be a name: put options first",
            Why::Taken => " is the value of the option before it, and no PATTERN follows",
            Why::Bare => match name {
                Some(Name::Find) => "missing PATTERN, as in globs find '**/*.rs'",
                Some(Name::Match) => "missing PATTERN, as in globs match '*.rs' <FILE",
                Some(Name::Ignore) => "missing FILE, as in git ls-files | globs ignore .gitignore",
                Some(Name::Explain) => "missing PATTERN, as in globs explain '*.rs' a.rs",
                Some(Name::Escape) => {
                    "missing TEXT, as in globs escape 'a[1]', or for lines xargs -d '\\n' globs escape --"
                }
                None => "missing PATTERN",
            },
            Why::Textless => "missing TEXT, as in globs explain '*.rs' a.rs",
            Why::Extra => " comes after the text: quote the pattern",
            Why::Surplus => " is one word too many: ask help about one command",
            Why::Command => " is not a command",
            Why::Empty => "missing command",
        }
    }
}

/// What to write instead of a word that another tool would know; nothing for other words.
fn instead_of(name: Option<Name>, why: Why, word: &str) -> &'static str
    ensures { result.now ≡ instead_words name why word.now }
{
    match name {
        Some(name) => {
            if matches!(why, Why::Unknown) {
                unknown(name, word)
            } else if matches!(why, Why::Late) {
                foreign(name, word)
            } else {
                ""
            }
        }
        None => {
            if matches!(why, Why::Command) {
                habit(word)
            } else {
                ""
            }
        }
    }
}

/// Where to find help: `try globs help`, and the command's name, if there is one.
#[derive(Clone, Copy)]
pub struct Help {
    pub name: Option<Name>,
}

impl Display for Help {
    ghost output = { λ help. Some (help_words help.name) };

    fn fmt<W: fmt::Write>(&self, f: &mut fmt::Formatter<W>) -> fmt::Result {
        match self.name {
            Some(name) => write!(f, "try globs help {}", name.word()),
            None => f.write_str("try globs help"),
        }
    }
}

/// The line about the word `help` among the operands of a command.
#[derive(Clone, Copy)]
pub struct HelpWord {
    pub name: Name,
}

impl Display for HelpWord {
    fn fmt<W: fmt::Write>(&self, f: &mut fmt::Formatter<W>) -> fmt::Result {
        let operand = match self.name {
            Name::Find | Name::Match | Name::Explain => "PATTERN",
            Name::Ignore => "FILE",
            Name::Escape => "TEXT",
        };
        let name = self.name.word();
        write!(
            f,
            "`help` was read as a {operand}: globs help {name} writes the help page"
        )
    }
}
