//! The keys of a pattern: literals that every matching text has at its end, at the start of a component, or as a whole
//! component.
ghost use Rattle.std.specs.Prelude.{◌≡◌, ◌+◌, ◌<◌, length, chars, All, IfSome, IsTrue, OnOk};
ghost use Rattle.glob_text.specs.Characters.{slash};
ghost use Rattle.glob_pattern.specs.Computing.Tokens.{tokens_of};
ghost use Rattle.glob_pattern.specs.Matching.Literals.{HasLiteral};
ghost use Rattle.glob_set.specs.Private.Components.{IsInnerRecursive, IsReadAt};
ghost use Rattle.glob_set.specs.Private.Keys.{HasKey};

use crate::components::{Component, hash_before};
use crate::key::Key;
use glob_pattern::{Pattern, TokenKind, literal_at, token_kind, tokens_len};
use std::alloc::{AllocError, Allocator};

/// The greatest length of a beginning or an ending in bytes. A text is looked up by each length that occurs.
const LONGEST: u8 = 8;

/// Replaces the content of `keys` with the keys of the pattern: its endings, its components without wildcards, and the
/// beginnings of its components. All are made of literals.
pub fn find_keys<A: Allocator>(
    pattern: &Pattern<A>,
    keys: &mut Vec<Key, A>,
) -> Result<(), AllocError>
    ensures { OnOk result (All (HasKey pattern.now) keys.new.items) }
{
    keys.clear();
    push_endings(pattern, keys)?;
    push_components(pattern, keys)
}

/// Adds the endings and extensions. For `*1.js` these are the endings `s`, `js`, `.js` and `1.js` and the extension
/// `js`.
fn push_endings<A: Allocator>(
    pattern: &Pattern<A>,
    keys: &mut Vec<Key, A>,
) -> Result<(), AllocError>
    requires { All (HasKey pattern.now) keys.old.items }
    ensures { OnOk result (All (HasKey pattern.now) keys.new.items) }
{
    let mut hash = 0;
    let mut len = 0;
    let mut token = tokens_len(pattern);
    while token > 0 {
        token -= 1;
        let Some(c) = literal_at(pattern, token) else {
            return Ok(());
        };
        if c == '.' {
            keys.push(Key::Extension(hash, len))?;
        }
        hash = hash_before(hash, c);
        len += c.len_utf8() as u8;
        if len > LONGEST {
            return Ok(());
        }
        keys.push(Key::Ending(hash, len))?;
    }
    Ok(())
}

/// Adds the keys of components and of their beginnings.
fn push_components<A: Allocator>(
    pattern: &Pattern<A>,
    keys: &mut Vec<Key, A>,
) -> Result<(), AllocError>
    requires { All (HasKey pattern.now) keys.old.items }
    ensures { OnOk result (All (HasKey pattern.now) keys.new.items) }
{
    let mut component = Some(Component::start());
    for token in 0..tokens_len(pattern) {
        push_key(pattern, token, component, keys)?;
        component = read_token(pattern, token, component);
    }
    if let Some(last) = component {
        keys.push(Key::Component(last.hash))?;
    }
    Ok(())
}

/// Adds the key right before this token, if there is one.
fn push_key<A: Allocator>(
    pattern: &Pattern<A>,
    token: usize,
    component: Option<Component>,
    keys: &mut Vec<Key, A>,
) -> Result<(), AllocError>
    requires component { IfSome component (IsReadAt pattern.now token) }
    requires keys { All (HasKey pattern.now) keys.old.items }
    ensures { OnOk result (All (HasKey pattern.now) keys.new.items) }
{
    if let Some(key) = key_before(pattern, token, component) {
        keys.push(key)?;
    }
    Ok(())
}

/// The key right before this token, given the part of the component before it.
fn key_before<A: Allocator>(
    pattern: &Pattern<A>,
    token: usize,
    component: Option<Component>,
) -> Option<Key>
    requires { IfSome component (IsReadAt pattern.now token) }
    ensures { IfSome result (HasKey pattern.now) }
{
    let component = component?;
    if is_separator(pattern, token) {
        return Some(Key::Component(component.hash));
    }
    if component.len == 0 || component.len > LONGEST {
        return None;
    }
    Some(Key::Beginning(component.hash, component.len))
}

/// The component after this token, if it is known.
fn read_token<A: Allocator>(
    pattern: &Pattern<A>,
    token: usize,
    component: Option<Component>,
) -> Option<Component>
    requires token { token < length (tokens_of (chars pattern.now)) }
    requires component { IfSome component (IsReadAt pattern.now token) }
    ensures { IfSome result (IsReadAt pattern.now (token + 1)) }
{
    if is_separator(pattern, token) {
        return Some(Component::start());
    }
    let component = component?;
    match literal_at(pattern, token) {
        Some(c) => Some(component.after_char(c)),
        None => read_wildcard(pattern, token, component),
    }
}

/// Whether this token is a `/`.
fn is_separator<A: Allocator>(pattern: &Pattern<A>, token: usize) -> bool
    ensures { IsTrue result → HasLiteral (chars pattern.now) token slash }
{
    matches!(literal_at(pattern, token), Some('/'))
}

/// The component after this wildcard, if it is known: after an inner `**` at the start of a component, another one
/// starts.
fn read_wildcard<A: Allocator>(
    pattern: &Pattern<A>,
    token: usize,
    component: Component,
) -> Option<Component>
    requires token { token < length (tokens_of (chars pattern.now)) }
    requires component { IsReadAt pattern.now token component }
    ensures { IfSome result (IsReadAt pattern.now (token + 1)) }
{
    if component.hash == 0 && component.len == 0 && is_inner_recursive(pattern, token) {
        return Some(component);
    }
    None
}

/// Whether this token is a `**` that is not the last token.
fn is_inner_recursive<A: Allocator>(pattern: &Pattern<A>, token: usize) -> bool
    requires { token < length (tokens_of (chars pattern.now)) }
    ensures { IsTrue result → IsInnerRecursive (chars pattern.now) token }
{
    token < tokens_len(pattern) - 1 && matches!(token_kind(pattern, token), TokenKind::Recursive)
}
