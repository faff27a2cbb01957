//! The options of a match.
ghost use Rattle.std.specs.Prelude.{◌≡◌};
ghost use Rattle.glob_pattern.specs.Matching.Options.{new_options, default_options, options_of_bits, with_letter, with_letters};

/// How patterns match. Under `MatchOptions::new()`, `*.rs` matches `src/.x.rs`; with `require_literal_separator` it
/// does not.
#[derive(Clone, Copy, Debug, PartialEq, Eq, PartialOrd, Ord, Hash)]
pub struct MatchOptions {
    /// Whether upper and lower case differ. If not, ASCII letters match in either case, also in brackets, but not by
    /// every range: `[A-_]` matches `A` and not `a`. All other characters are compared exactly.
    pub case_sensitive: bool,
    /// The separator rule: only `/` outside brackets and `**` match a `/`.
    pub require_literal_separator: bool,
    /// The dot rule: only `.` outside brackets matches a `.` at the start of the text or right after a `/`.
    pub require_literal_leading_dot: bool,
}

impl MatchOptions {
    /// Case-sensitive, with neither rule: `*` matches `a/b`, and `A*` does not.
    ///
    /// ```text
    /// assert!(MatchOptions::new().case_sensitive);
    /// assert!(!MatchOptions::new().require_literal_separator);
    /// ```
    pub const fn new() -> Self
        ensures { result ≡ new_options }
    {
        MatchOptions {
            case_sensitive: true,
            require_literal_separator: false,
            require_literal_leading_dot: false,
        }
    }

    /// These options plus the one for a letter, as on a command line: `i` for case-insensitive, `s` for the separator
    /// rule, `d` for the dot rule. `None` for any other letter.
    pub fn with_letter(self, letter: char) -> Option<Self>
        ensures { result ≡ with_letter letter self }
    {
        let mut options = self;
        match letter {
            'i' => options.case_sensitive = false,
            's' => options.require_literal_separator = true,
            'd' => options.require_literal_leading_dot = true,
            _ => return None,
        }
        Some(options)
    }

    /// The options of `new()` plus those for the letters, in any order: `is` is case-insensitive with the separator
    /// rule. `None` if a letter has no option.
    pub fn from_letters(letters: &str) -> Option<Self>
        ensures { result ≡ with_letters letters.now new_options }
    {
        let mut options = MatchOptions::new();
        for letter in letters.as_bytes() {
            options = options.with_letter(*letter as char)?;
        }
        Some(options)
    }

    /// The options for three bits: 1 is case-insensitive, 2 the separator rule, 4 the dot rule. Other bits are ignored.
    /// So 3 is case-insensitive with the separator rule.
    pub const fn from_bits(bits: u32) -> Self
        ensures { result ≡ options_of_bits bits }
    {
        MatchOptions {
            case_sensitive: bits & 1 == 0,
            require_literal_separator: bits & 2 == 2,
            require_literal_leading_dot: bits & 4 == 4,
        }
    }
}

impl Default for MatchOptions {
    ghost is_default = { λ options. options ≡ default_options };

    /// Case-insensitive, with neither rule: `A*` matches `a/b`.
    fn default() -> Self {
        MatchOptions {
            case_sensitive: false,
            ..MatchOptions::new()
        }
    }
}
