//! The texts of ignore files, but only for a search that uses them.
ghost use Rattle.std.specs.Prelude.{◌≡◌};

use glob_search::RuleTexts;
use glob_tree::ListError;
use std::alloc::AllocError;

/// The texts of ignore files if it `heeds` them, and otherwise no texts.
#[derive(Drop)]
pub struct Heeded<X> {
    pub texts: X,
    pub heeds: bool,
}

impl<X: RuleTexts> RuleTexts for Heeded<X> {
    type Alloc = X::Alloc;

    ghost use Rattle.globs.specs.Find.Aiming.{heeded};

    ghost texts = { λ h. heeded h.heeds (X.texts h.texts) };

    fn text(&mut self, path: &str) -> Result<Option<String<X::Alloc>>, ListError> {
        if self.heeds {
            self.texts.text(path)
        } else {
            Ok(None)
        }
    }

    fn leaves_out(&mut self, path: &str, is_dir: bool) -> Result<bool, AllocError> {
        if self.heeds {
            self.texts.leaves_out(path, is_dir)
        } else {
            Ok(false)
        }
    }
}
