//! The components of a pattern, each read once.
ghost use Rattle.std.specs.Prelude.{◌≡◌, None, IfOk, IfErr};
ghost use Rattle.std.specs.List.{list_any};
ghost use Rattle.glob_pattern.specs.Grammar.Characters.{is_wildcard};
ghost use Rattle.glob_walk.specs.Components.{is_current_or_parent as is_current_or_parent_text, is_literal as is_literal_text, is_recursive as is_recursive_text};
ghost use Rattle.glob_walk.specs.Private.Forms.{same_texts, takes_name, text_fault};
ghost use Rattle.glob_walk.specs.Walks.{RefusesWith};

use glob_pattern::{MatchOptions, Pattern, PatternRefusal};
use std::alloc::{AllocError, Allocator};
use std::marker::Model;

/// What is kept of a component: the text of a literal component, the pattern of a component with wildcards, and nothing
/// for `**`, since no name is matched against it.
#[derive(Drop)]
enum Form<A: Allocator> {
    Literal(String<A>),
    Recursive,
    Wild(Pattern<A>),
}

/// A component of a pattern. Contracts see its text.
#[derive(Drop)]
pub struct Component<A: Allocator> {
    form: Form<A>,
}

impl<A: Allocator> Model for Component<A> {
    ghost use Rattle.std.specs.Prelude.{List, ℕ};
    ghost use Rattle.glob_walk.specs.Private.Forms.{form_text, KeepsKind};

    ghost Value = { List ℕ };

    ghost view = { λ p. form_text p.form };

    ghost invariant = { λ p. KeepsKind p.form };
}

impl<A: Allocator> Component<A> {
    /// The text of the component.
    pub fn as_str(&self) -> &str
        ensures { result.now ≡ self.now }
    {
        match &self.form {
            Form::Literal(text) => text.as_str(),
            Form::Recursive => "**",
            Form::Wild(pattern) => pattern.as_str(),
        }
    }

    /// Whether it has no wildcard, and so is looked up by name.
    pub fn is_literal(&self) -> bool
        ensures { result ≡ is_literal_text self.now }
    {
        match &self.form {
            Form::Literal(_) => true,
            Form::Recursive | Form::Wild(_) => false,
        }
    }

    /// Whether it is `**`.
    pub fn is_recursive(&self) -> bool
        ensures { result ≡ is_recursive_text self.now }
    {
        match &self.form {
            Form::Recursive => true,
            Form::Literal(_) | Form::Wild(_) => false,
        }
    }
}

impl<A: Allocator + Copy> Component<A> {
    /// Reads a component. The error is its fault, or `Memory` if an allocation failed.
    pub fn read(alloc: A, text: &str) -> Result<Self, PatternRefusal>
        ensures text { IfOk result (λ component. component ≡ text.now) }
        ensures accepted { IfOk result (λ _. text_fault text.now ≡ None) }
        ensures refused { IfErr result (RefusesWith (text_fault text.now)) }
    {
        let form = if is_literal(text) {
            Form::Literal(String::from_str(alloc, text)?)
        } else if is_recursive(text) {
            Form::Recursive
        } else {
            Form::Wild(compile(alloc, text)?)
        };
        Ok(Component { form })
    }

    /// Checks a text for a fault, and keeps nothing. The error is the fault, or `Memory` if an allocation failed.
    pub fn check(alloc: A, text: &str) -> Result<(), PatternRefusal>
        ensures accepted { IfOk result (λ _. text_fault text.now ≡ None) }
        ensures refused { IfErr result (RefusesWith (text_fault text.now)) }
    {
        if is_literal(text) {
            return Ok(());
        }
        compile(alloc, text)?;
        Ok(())
    }

    /// Whether it matches the name; `**` matches no name.
    pub fn matches(&self, name: &str, options: MatchOptions) -> Result<bool, AllocError>
        ensures { IfOk result (λ yes. yes ≡ takes_name options self.now name.now) }
    {
        match &self.form {
            Form::Literal(text) => Ok(is_same_text(name, text.as_str(), options.case_sensitive)),
            Form::Recursive => Ok(false),
            Form::Wild(pattern) => pattern.matches_with(name, options),
        }
    }
}

/// Whether the texts are equal, case-sensitively or not.
fn is_same_text(text: &str, other: &str, case_sensitive: bool) -> bool
    ensures { result ≡ same_texts case_sensitive text.now other.now }
{
    if case_sensitive {
        text == other
    } else {
        text.eq_ignore_ascii_case(other)
    }
}

/// Compiles a text. The error is its fault, or `Memory` if an allocation failed.
fn compile<A: Allocator + Copy>(alloc: A, text: &str) -> Result<Pattern<A>, PatternRefusal>
    ensures text { IfOk result (λ pattern. pattern ≡ text.now) }
    ensures accepted { IfOk result (λ _. text_fault text.now ≡ None) }
    ensures refused { IfErr result (RefusesWith (text_fault text.now)) }
{
    Pattern::new(alloc, text)
}

/// Whether the component is `**`.
pub fn is_recursive(component: &str) -> bool
    ensures { result ≡ is_recursive_text component.now }
{
    component == "**"
}

/// Whether the component has no wildcard, and so matches only its own text.
pub fn is_literal(component: &str) -> bool
    ensures { result ≡ is_literal_text component.now }
{
    !has_wildcard(component)
}

/// Whether some character of the component is a wildcard.
fn has_wildcard(component: &str) -> bool
    ensures { result ≡ list_any is_wildcard component.now }
{
    component
        .as_bytes()
        .iter()
        .any(|&byte| byte == b'?' || byte == b'*' || byte == b'[')
}

/// Whether the component is `.` or `..`.
pub fn is_current_or_parent(component: &str) -> bool
    ensures { result ≡ is_current_or_parent_text component.now }
{
    component == "." || component == ".."
}
