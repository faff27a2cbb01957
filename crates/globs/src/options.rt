//! The options of the commands: which command accepts each, and what it sets.
ghost use Rattle.std.specs.Prelude.{◌≡◌, Ok, IfErr, OnOk};
ghost use Rattle.globs.specs.Options.{kind_of, new_options, new_settings, no_kinds, value_taken, valued_of, with_flag, with_kind};
ghost use Rattle.globs.specs.Requests.{IsValueFault};

use crate::name::Name;
use crate::usage::{UsageFault, Why};
use glob_console::{parse_limit, set_match_option};
use glob_pattern::MatchOptions;
use glob_tree::is_proper;
use std::alloc::Allocator;
use std::marker::Model;

/// An option with a value, the word after it.
#[derive(Clone, Copy)]
pub enum Valued {
    Limit,
    Depth,
    Kind,
    Rule,
    File,
    /// The name of ignore files, each for the paths below its directory.
    RuleFile,
    /// The directory where a search begins.
    Directory,
}

/// A kind of paths.
#[derive(Clone, Copy, PartialEq, Eq)]
pub enum Kind {
    /// A regular file.
    File,
    Directory,
    /// A symbolic link.
    Link,
}

/// The kinds of the paths that are written; if none is set, all paths are written.
#[derive(Clone, Copy, PartialEq, Eq)]
pub struct Kinds {
    pub files: bool,
    pub directories: bool,
    pub links: bool,
}

/// What the options set, except for ignore files and rules.
#[derive(Clone, Copy)]
pub struct Settings {
    pub options: MatchOptions,
    /// The byte that ends each record.
    pub end: u8,
    /// Whether to copy the records that no pattern matches, rather than the records that some pattern matches.
    pub inverts: bool,
    /// Whether to name the rule that decides about each path, rather than copy the paths that are not ignored.
    pub names_rules: bool,
    /// How many units the search may spend.
    pub limit: u64,
    /// How many names a path may have.
    pub depth: Option<u64>,
    pub kinds: Kinds,
    /// Whether symbolic links to directories are followed.
    pub follows: bool,
    /// Whether what git ignores is left out.
    pub is_git: bool,
    /// Whether names that are not UTF-8 are skipped, rather than reported.
    pub is_utf8_only: bool,
}

/// Everything that the options set.
#[derive(Drop)]
pub struct Options<'a, A: Allocator> {
    pub settings: Settings,
    /// The ignore files.
    pub files: Vec<&'a str, A>,
    /// Single rules, which come after the rules of the files.
    pub rules: Vec<&'a str, A>,
    /// The names of ignore files, each for the paths below its directory.
    pub rule_files: Vec<&'a str, A>,
    /// The directory where a search begins: the current one, if it is empty.
    pub directory: &'a str,
}

impl<'a, A: Allocator> Model for Options<'a, A> {
    ghost use Rattle.std.specs.Prelude.{map};
    ghost use Rattle.globs.specs.Chosen.{Chosen};

    ghost Value = { Chosen };

    ghost view = { λ o. record {
      settings = o.settings;
      files = map (λ w. w.now) o.files.items;
      rules = map (λ w. w.now) o.rules.items;
      rule_files = map (λ w. w.now) o.rule_files.items;
      directory = o.directory.now;
    } };
}

impl Valued {
    /// The option that the word names, if it has a value and the command accepts it.
    pub fn asked(name: Name, word: &str) -> Option<Self>
        ensures { result ≡ valued_of name word.now }
    {
        match (word, name) {
            ("-n", Name::Find) => Some(Valued::Limit),
            ("-t", Name::Find) => Some(Valued::Kind),
            ("-x", Name::Find) => Some(Valued::Rule),
            ("--max-depth", Name::Find) => Some(Valued::Depth),
            ("--ignore", Name::Find) => Some(Valued::File),
            ("--ignore-files", Name::Find) => Some(Valued::RuleFile),
            ("-C" | "--directory", Name::Find) => Some(Valued::Directory),
            _ => None,
        }
    }
}

impl Kinds {
    /// No kinds.
    pub fn new() -> Self
        ensures { result ≡ no_kinds }
    {
        Kinds {
            files: false,
            directories: false,
            links: false,
        }
    }

    /// These kinds, and one more.
    fn with(self, kind: Kind) -> Self
        ensures { result ≡ with_kind kind self }
    {
        let mut kinds = self;
        match kind {
            Kind::File => kinds.files = true,
            Kind::Directory => kinds.directories = true,
            Kind::Link => kinds.links = true,
        }
        kinds
    }
}

impl Settings {
    /// The defaults of a command.
    pub fn new(name: Name) -> Self
        ensures { result ≡ new_settings name }
    {
        Settings {
            options: MatchOptions {
                require_literal_separator: matches!(name, Name::Find),
                ..MatchOptions::new()
            },
            end: b'\n',
            inverts: false,
            names_rules: false,
            limit: u64::MAX,
            depth: None,
            kinds: Kinds::new(),
            follows: false,
            is_git: false,
            is_utf8_only: false,
        }
    }

    /// These settings with a flag set; `None` unless the word is a flag (an option without a value) of the command.
    pub fn with_flag(self, name: Name, word: &str) -> Option<Self>
        ensures { result ≡ with_flag name word.now self }
    {
        let mut settings = self;
        match (word, name) {
            ("-0", Name::Find | Name::Match | Name::Ignore | Name::Escape) => settings.end = 0,
            ("-v", Name::Match) => settings.inverts = true,
            ("-v", Name::Ignore) => settings.names_rules = true,
            ("-L", Name::Find) => settings.follows = true,
            ("--git", Name::Find | Name::Ignore) => settings.is_git = true,
            ("--utf8-only", Name::Find) => settings.is_utf8_only = true,
            ("-s", Name::Find) => return None,
            (_, Name::Find | Name::Match | Name::Explain)
                if set_match_option(&mut settings.options, word) => {}
            _ => return None,
        }
        Some(settings)
    }
}

impl<'a, A: Allocator + Copy> Options<'a, A> {
    /// The defaults of a command.
    pub fn new(alloc: A, name: Name) -> Self
        ensures { result ≡ new_options name }
    {
        Options {
            settings: Settings::new(name),
            files: Vec::new(alloc),
            rules: Vec::new(alloc),
            rule_files: Vec::new(alloc),
            directory: "",
        }
    }

    /// Sets an option to the value `word`. The error says why `word` is not a value of the option, or that an
    /// allocation failed.
    pub fn take(&mut self, option: Valued, word: &'a str) -> Result<(), UsageFault<'a>>
        ensures taken { OnOk result (value_taken option word.now self.old ≡ Ok self.new) }
        ensures wrong { IfErr result (IsValueFault option word.now self.old) }
    {
        match option {
            Valued::Limit => {
                self.settings.limit = parse_limit(word).ok_or(UsageFault::Word(Why::Limit, word))?;
            }
            Valued::Depth => {
                let depth = parse_limit(word).ok_or(UsageFault::Word(Why::Depth, word))?;
                self.settings.depth = Some(depth);
            }
            Valued::Kind => {
                let kind = parse_kind(word).ok_or(UsageFault::Word(Why::Kind, word))?;
                self.settings.kinds = self.settings.kinds.with(kind);
            }
            Valued::Rule => self.rules.push(word)?,
            Valued::File => self.files.push(word)?,
            Valued::RuleFile => {
                if !is_proper(word) {
                    return Err(UsageFault::Word(Why::RuleFile, word));
                }
                self.rule_files.push(word)?;
            }
            Valued::Directory => self.directory = word,
        }
        Ok(())
    }
}

/// Parses a kind: `f`, `d` or `l`.
fn parse_kind(word: &str) -> Option<Kind>
    ensures { result ≡ kind_of word.now }
{
    match word {
        "f" => Some(Kind::File),
        "d" => Some(Kind::Directory),
        "l" => Some(Kind::Link),
        _ => None,
    }
}
