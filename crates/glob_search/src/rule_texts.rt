//! Where the texts of ignore files come from.
ghost use Rattle.std.specs.Prelude.{◌≡◌, ℕ, List, Option, None, Some, IfOk, IfErr, true, false, option_map, string_bytes};
ghost use Rattle.glob_rules.specs.Lists.{refusals_of, rules_of};
ghost use Rattle.glob_search.specs.Private.Faults.{IsOfRules};
ghost use Rattle.glob_search.specs.States.{IsRuleFile, is_last};
ghost use Rattle.glob_text.specs.Text.{Text};
ghost use Rattle.glob_tree.specs.declared.tree.ListError.TheVariants.{Memory};

use crate::fault::SearchFault;
use glob_rules::{IgnoreList, RuleRefusal};
use glob_tree::ListError;
use std::alloc::{AllocError, Allocator, Global};

/// The texts of ignore files, and a function that leaves out more. Contracts see the texts by path as `texts`, if they
/// are known; then nothing more is left out.
pub trait RuleTexts: Drop {
    /// The allocator of the texts.
    type Alloc: Allocator + Copy;

    ghost texts: { Self → Option (List ℕ → Option (List ℕ)) };

    /// The text of the file at a path such as `src/.gitignore`, or `None` if there is no file. The error says why it
    /// cannot be read. If the texts are known, each can be read.
    fn text(&mut self, path: &str) -> Result<Option<String<Self::Alloc>>, ListError>
        ensures kept { texts self.new ≡ texts self.old }
        ensures text { (known : List ℕ → Option (List ℕ)) → texts self.old ≡ Some known
            → IfOk result (λ text. option_map (λ t. string_bytes t) text ≡ known path.now) }
        ensures fails { (known : List ℕ → Option (List ℕ)) → texts self.old ≡ Some known
            → IfErr result (λ e. e ≡ Memory) };

    /// Whether to leave out a path that no rule ignores, and everything below it. A search asks this about each path
    /// that it would find or enter. `is_dir` is also `false` if the search did not learn the kind, which happens only if
    /// it was not asked for kinds.
    fn leaves_out(&mut self, _path: &str, _is_dir: bool) -> Result<bool, AllocError>
        ensures kept { texts self.new ≡ texts self.old }
        ensures none { (known : List ℕ → Option (List ℕ)) → texts self.old ≡ Some known
            → IfOk result (λ out. out ≡ false) }
    {
        Ok(false)
    }
}

/// No ignore files.
#[derive(Debug, Drop)]
pub struct NoRuleTexts;

impl RuleTexts for NoRuleTexts {
    type Alloc = Global;

    ghost texts = { λ _. Some (λ path. None) };

    fn text(&mut self, _path: &str) -> Result<Option<String>, ListError> {
        Ok(None)
    }
}

/// The rules of the file at a path, if there is one, and the refusals of its lines.
pub fn read_list<A: Allocator + Copy, R: RuleTexts<Alloc = A>>(
    alloc: A,
    texts: &mut R,
    path: &str,
) -> Result<Option<(IgnoreList<A>, Vec<RuleRefusal, A>)>, SearchFault<A>>
    ensures texts { R.texts texts.new ≡ R.texts texts.old }
    ensures list { (known : Text → Option Text) → R.texts texts.old ≡ Some known
        → IfOk result (λ read. option_map (λ r. r.0) read ≡ option_map rules_of (known path.now)) }
    ensures refusals { (known : Text → Option Text) → R.texts texts.old ≡ Some known
        → IfOk result
        (λ read. option_map (λ r. r.1.items) read ≡ option_map refusals_of (known path.now)) }
    ensures last { (known : Text → Option Text) → R.texts texts.old ≡ Some known
        → IfErr result (λ fault. is_last fault ≡ true) }
    ensures fails { (files : List Text) → IsRuleFile files path.now
        → IfErr result (IsOfRules files) }
{
    let text = match texts.text(path) {
        Ok(Some(text)) => text,
        Ok(None) => return Ok(None),
        Err(ListError::Read(error)) => {
            return Err(SearchFault::UnreadRules(String::from_str(alloc, path)?, error));
        }
        Err(ListError::Memory) => return Err(SearchFault::Memory),
    };
    Ok(Some(IgnoreList::lenient(alloc, text.as_str())?))
}
