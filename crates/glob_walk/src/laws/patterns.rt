//! Laws of patterns: each is the contract of a function that does nothing.
ghost use Rattle.std.specs.Prelude.{◌≡◌, ℕ, ◌≤◌, ◌↔◌, List, length};
ghost use Rattle.glob_text.specs.Text.{Text};
ghost use Rattle.glob_pattern.specs.Grammar.Tokens.{Token};
ghost use Rattle.glob_pattern.specs.Grammar.Units.{UnitAt, HasUnits, IsAccepted, HasTokens};
ghost use Rattle.glob_pattern.specs.Grammar.Faults.{Fault, IsFault};
ghost use Rattle.glob_pattern.specs.Computing.Reading.{reading_of};
ghost use Rattle.glob_pattern.specs.Laws.{TokensLoosened, PatternsLoosened, PlainAccepted, PlainMatchesSame, PlainMatchesItself, FoldedMatchSame, EscapedAccepted, EscapedMatchesSame, EscapedMatchesItself, TokensDecided, PatternsDecided, SeparatorRuleSparesNames, JoinedMatchLevels, RootedMatchLevels, PlainTokensStand, OneCharacterEach};

/// The computed reading of a text returns tokens exactly when they are the text's tokens. For `a?` they are the literal
/// `a` and `?`.
pub fn reading_answers_tokens()
    ensures { (text : Text) (tokens : List Token)
        → (reading_of text ≡ Ok tokens) ↔ HasTokens text tokens }
{}

/// The computed reading of a text returns a fault exactly when it is the text's fault. For `a[` it is at place 1.
pub fn reading_answers_fault()
    ensures { (text : Text) (fault : Fault)
        → (reading_of text ≡ Err fault) ↔ IsFault text fault }
{}

/// At most one unit starts at a place: in `[a]b` only the bracket starts at place 0.
pub fn one_unit_at_a_place()
    ensures { (text : Text) (f : ℕ) (t u : Token) (e m : ℕ)
        → UnitAt text f t e → UnitAt text f u m → (t ≡ u) × (e ≡ m) }
{}

/// A text is a concatenation of units in at most one way: `a*` is `a` and `*`, and `a**` is no concatenation at all.
pub fn one_way_of_units()
    ensures { (text : Text) (units others : List Token)
        → HasUnits text units → HasUnits text others → units ≡ others }
{}

/// An accepted text has only one list of tokens: `**/**/a` has the same as `**/a`.
pub fn one_list_of_tokens()
    ensures { (text : Text) (tokens others : List Token)
        → HasTokens text tokens → HasTokens text others → tokens ≡ others }
{}

/// An accepted text has no fault: `a*` has none, and `a**` has one.
pub fn accepted_has_no_fault()
    ensures { (text : Text) (fault : Fault) → IsAccepted text → ¬ (IsFault text fault) }
{}

/// A text that is not accepted has exactly one fault: the fault of `a**[` is at its `a`, and not at the bracket.
pub fn refused_has_one_fault()
    ensures { (text : Text) → ¬ (IsAccepted text) → (fault : Fault) × IsFault text fault
        × ((other : Fault) → IsFault text other → other ≡ fault) }
{}

/// A pattern has at most as many tokens as characters: `[a-z]*` has two tokens and six characters.
pub fn no_more_tokens_than_characters()
    ensures { (text : Text) (tokens : List Token)
        → HasTokens text tokens → length tokens ≤ length text }
{}

/// A match stays a match if a rule is dropped: `*` matches `a` under the dot rule, and so without it.
pub fn looser_rules_keep_a_match()
    ensures tokens { TokensLoosened }
    ensures patterns { PatternsLoosened }
{}

/// A pattern without `?`, `*` and `[` matches itself, and case-sensitively nothing else: `a]` matches only `a]`.
pub fn plain_pattern_matches_itself()
    ensures accepted { PlainAccepted }
    ensures same { PlainMatchesSame }
    ensures itself { PlainMatchesItself }
{}

/// Adjacent `**` match what one of them matches: `**/**/a` matches what `**/a` matches.
pub fn deep_tokens_match_as_one()
    ensures { FoldedMatchSame }
{}

/// An escaped text matches the original under all rules: `[*]`, which is `*` escaped, matches `*`, and case-sensitively
/// nothing else.
pub fn escaped_text_matches_itself()
    ensures accepted { EscapedAccepted }
    ensures same { EscapedMatchesSame }
    ensures itself { EscapedMatchesItself }
{}

/// A computation decides whether tokens and patterns match a text: for example, whether `a*` matches `ab`.
pub fn matching_is_decided()
    ensures tokens { TokensDecided }
    ensures patterns { PatternsDecided }
{}

/// The separator rule changes nothing for a text without separators: `*` matches `ab` with it and without it.
pub fn separator_rule_spares_names()
    ensures { SeparatorRuleSparesNames }
{}

/// Under the separator rule, a pattern matches names joined by `/` exactly when its components take the names. `**`
/// takes any number of names (at least one at the end of the pattern), but under the dot rule no name that begins with a
/// dot; any other component takes one name. For example, `a/**/c` matches `a/b/c`, since `a` takes `a`, `**` takes `b`
/// and `c` takes `c`.
pub fn components_match_level_by_level()
    ensures joined { JoinedMatchLevels }
    ensures rooted { RootedMatchLevels }
{}

/// In each text that the tokens match, neighbouring literal tokens match neighbouring characters. Literals at the start
/// of the pattern match at the start of the text, and literals at the end match at its end: a text that `a*.rs` matches
/// starts with `a` and ends in `.rs`.
pub fn plain_tokens_stand_in_the_text()
    ensures { PlainTokensStand }
{}

/// A text is at least as long as the number of tokens that take one character: a text that `*.r?` matches has at least
/// three characters.
pub fn one_character_for_each_such_token()
    ensures { OneCharacterEach }
{}
