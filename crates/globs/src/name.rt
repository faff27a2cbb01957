//! The names of the commands.
ghost use Rattle.std.specs.Prelude.{◌≡◌};
ghost use Rattle.globs.specs.CommandLine.{name_of};
ghost use Rattle.globs.specs.Faults.{name_word};

/// A command.
#[derive(Clone, Copy, PartialEq, Eq)]
pub enum Name {
    Find,
    Match,
    Ignore,
    Explain,
    Escape,
}

impl Name {
    /// The command that the word names.
    pub fn named(word: &str) -> Option<Self>
        ensures { result ≡ name_of word.now }
    {
        match word {
            "find" => Some(Name::Find),
            "match" => Some(Name::Match),
            "ignore" => Some(Name::Ignore),
            "explain" => Some(Name::Explain),
            "escape" => Some(Name::Escape),
            _ => None,
        }
    }

    /// The word that names it.
    pub fn word(self) -> &'static str
        ensures { result.now ≡ name_word self }
    {
        match self {
            Name::Find => "find",
            Name::Match => "match",
            Name::Ignore => "ignore",
            Name::Explain => "explain",
            Name::Escape => "escape",
        }
    }
}
