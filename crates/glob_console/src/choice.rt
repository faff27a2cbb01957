//! Which paths of a walk are written, and how its errors are reported.
ghost use Rattle.std.specs.Prelude.{◌≡◌, Bool, IfOk};
ghost use Rattle.glob_console.specs.FoundPaths.{every};
ghost use Rattle.glob_text.specs.Text.{Text};
ghost use Rattle.glob_tree.specs.Answers.{IsTold};
ghost use Rattle.glob_tree.specs.Content.{Content};

use crate::error_lines::ErrorLines;
use glob_tree::Tree;
use glob_walk::GlobError;
use std::alloc::{AllocError, Allocator};
use std::io::Write;

/// Decides which paths of a walk are written, perhaps by looking them up in the tree, and how errors of the walk are
/// reported. A choice always gives the same answer for the same path and content.
///
/// ```text
/// struct Directories;
///
/// impl Choice for Directories {
///     ghost wanted = { λ s c path. is_directory (look_result c path) };
///
///     fn wants<T: Tree>(&self, tree: &mut T, path: &str) -> Result<bool, AllocError> {
///         Ok(matches!(tree.look(path)?, Look::Dir))
///     }
///
///     fn report<A: Allocator + Copy, E: Write>(
///         &self,
///         error: &GlobError<A>,
///         errors: &mut ErrorLines<'_, A, E>,
///     ) {
///         errors.write(error);
///     }
/// }
/// ```
pub trait Choice {
    ghost wanted: { Self → Content → Text → Bool };

    /// Whether a path is written. The error is a failed allocation.
    fn wants<T: Tree>(&self, tree: &mut T, path: &str) -> Result<bool, AllocError>
        ensures content { T.tells tree.new ≡ T.tells tree.old }
        ensures wanted { (c : Content) → IsTold (T.tells tree.old) c
            → IfOk result (λ yes. yes ≡ wanted self.now c path.now) };

    /// Reports an error of the walk: a directory that could not be listed, or, as the last item, a limit that was
    /// reached or a failed allocation.
    fn report<A: Allocator + Copy, E: Write>(
        &self,
        error: &GlobError<A>,
        errors: &mut ErrorLines<'_, A, E>,
    );
}

/// Writes every path, and a line for every error.
pub struct Every;

impl Choice for Every {
    ghost wanted = { λ s c. every };

    fn wants<T: Tree>(&self, _tree: &mut T, _path: &str) -> Result<bool, AllocError> {
        Ok(true)
    }

    fn report<A: Allocator + Copy, E: Write>(
        &self,
        error: &GlobError<A>,
        errors: &mut ErrorLines<'_, A, E>,
    ) {
        errors.write(error);
    }
}
