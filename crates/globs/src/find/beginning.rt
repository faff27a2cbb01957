//! How a search begins.
ghost use Rattle.std.specs.Prelude.{◌≡◌, [], Option, Some, IfOk, false, true, map};
ghost use Rattle.glob_search.specs.States.{HasGiven};
ghost use Rattle.glob_search.specs.Visiting.{gifts};
ghost use Rattle.glob_text.specs.Text.{Text};
ghost use Rattle.glob_tree.specs.Content.{Content, is_content};
ghost use Rattle.globs.specs.Find.Aiming.{aim, rule_files};

use crate::find::aim::{last_rules, settings_of};
use crate::options::Options;
use crate::patterns::PatternFault;
use glob_console::ErrorLines;
use glob_rules::IgnoreList;
use glob_search::{RuleTexts, Search};
use glob_set::SetRefusal;
use std::alloc::Allocator;
use std::io::Write;

/// A search that has not begun, and whether some of the rules that ignore files override could not be read or are
/// refused.
pub fn begin<'a, A, X, E>(
    alloc: A,
    lead: &str,
    above: &[&str],
    texts: &mut X,
    list: IgnoreList<A>,
    options: &Options<'_, A>,
    patterns: &[&'a str],
    errors: &mut ErrorLines<'_, A, E>,
) -> Result<(Search<A>, bool), PatternFault<'a>>
where
    A: Allocator + Copy,
    X: RuleTexts<Alloc = A>,
    E: Write,
    ensures kept { X.texts texts.new ≡ X.texts texts.old }
    ensures files { IfOk result (λ begun. begun.0.files ≡ rule_files options.now) }
    ensures fault { IfOk result (λ begun. options.now.settings.is_git ≡ false
        → begun.1 ≡ false) }
    ensures fresh { (c : Content) (text_at : Text → Option Text) → is_content c ≡ true
        → X.texts texts.old ≡ Some text_at → IfOk result (λ begun.
        let a = aim options.now list (map (λ p. p.now) patterns.now)
        (map (λ n. n.now) above.now) text_at in
        HasGiven (gifts c a) c a text_at [] begun.0) }
{
    let last = last_rules(alloc, options.settings.is_git, lead, above, texts, errors)?;
    let has_fault = last.has_fault;
    let settings = settings_of(alloc, options, list, last)?;
    match Search::new(alloc, patterns, settings) {
        Ok(search) => Ok((search, has_fault)),
        Err(refusal) => Err(fault_of(patterns, refusal)),
    }
}

/// The fault for patterns that are refused.
fn fault_of<'a>(patterns: &[&'a str], refusal: SetRefusal) -> PatternFault<'a> {
    match refusal {
        SetRefusal::Syntax(number, error) => match patterns.get(number) {
            Some(pattern) => PatternFault::Syntax(*pattern, error),
            None => PatternFault::Memory,
        },
        SetRefusal::Memory => PatternFault::Memory,
    }
}
