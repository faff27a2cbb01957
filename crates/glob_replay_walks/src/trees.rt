//! Rows of calls on a tree in memory: `CALL PATHS => ANSWER`. Each row uses the tree as the rows before it left it.

use glob::{ListError, MemTree, Tree, TreeRefusal};
use glob_replay::asked_tree::Listed;
use glob_replay::calls::Calls;
use glob_replay::ration::Memory;
use glob_replay::report::Report;
use glob_replay::words::{cut, has_word, out_of_memory, text_of, unusable};
use std::alloc::Allocator;
use std::io::{self, ErrorKind, Write};

/// Makes the calls of a row.
pub fn replay<M: Memory>(report: &mut Report<M>, asked: &str, answer: &str) -> io::Result<()> {
    let (alloc, (call, paths)) = (report.alloc(), cut(asked, " ")?);
    for word in paths.split_whitespace() {
        let change = format!(in alloc; "{call} {}", text_of(alloc, word)?)?;
        let mut found = String::new(alloc);
        add_answer(&mut report.tree, &change, &mut found)?;
        let is_alike = are_same_words(found.as_str(), answer);
        let found = if is_alike { answer } else { found.as_str() };
        report.compare(asked, answer, found)?;
    }
    Ok(())
}

/// Whether the texts have the same words, in any order.
fn are_same_words(found: &str, answer: &str) -> bool {
    found.split_whitespace().count() == answer.split_whitespace().count()
        && answer.split_whitespace().all(|word| has_word(found, word))
}

/// Makes the calls on a new tree, and adds their answers. A call that runs out of memory has changed nothing, and is
/// made again.
pub fn change<M: Memory>(calls: &mut Calls<M>, changes: &[&str]) -> io::Result<()> {
    let mut tree = MemTree::new(calls.alloc)?;
    for change in changes {
        if add_answer(&mut tree, change, &mut calls.words).is_err() {
            add_answer(&mut tree, change, &mut calls.words)?;
        }
    }
    Ok(())
}

/// Adds the answer to a call for a path, in words.
fn add_answer<M: Memory>(tree: &mut MemTree<M>, asked: &str, words: &mut String) -> io::Result<()> {
    let (call, path) = cut(asked, " ")?;
    let changed = match call {
        "look" => return Ok(write!(words, "{:?} ", tree.look(path)?)?),
        "list" => return add_entries(words, tree.list(path)),
        "add_dir" => tree.add_dir(path),
        "add_shut" => tree.add_shut(path, ErrorKind::PermissionDenied),
        "add_other" => tree.add_other(path),
        "set_current" => tree.set_current(path),
        _ => return Err(unusable()),
    };
    match changed {
        Ok(()) => Ok(words.push_str("ok ")?),
        Err(TreeRefusal::Memory) => Err(out_of_memory()),
        Err(refusal) => Ok(write!(words, "{refusal:?} ")?),
    }
}

/// Adds the answer of a listing: the names of the entries, with `/` after a directory's name, or `!` and the error.
pub fn add_entries<A: Allocator>(words: &mut String, listed: Listed<A>) -> io::Result<()> {
    match listed {
        Ok(entries) => {
            for entry in entries.iter() {
                words.push_str(entry.name.as_str())?;
                words.push_str(if entry.is_dir { "/ " } else { " " })?;
            }
            Ok(())
        }
        Err(ListError::Read(error)) => Ok(write!(words, "!{error} ")?),
        Err(ListError::Memory) => Err(out_of_memory()),
    }
}
