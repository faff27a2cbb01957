//! Files in memory from the words of a content: `a/` is a directory, `#a` a directory that cannot be listed, `a@` a
//! symbolic link that points nowhere, `a@b` a link to a file, `a@b/` a link to a directory, and `a/?` a name in `a`
//! that is not UTF-8. Any other word is a file. A directory comes before what is in it.

use crate::mem_files::{Keyed, LinkTo, MemFiles};
use glob_replay::contents::{is_directory, name_of};
use glob_tree::Kind;
use std::alloc::{AllocError, Allocator};
use std::io::ErrorKind;

/// The name that is not UTF-8.
const STRAY: &[u8] = b"y\xffz";

/// The files of a content. Directories are read in pieces of at most this many bytes.
pub fn files_of<'a, A: Allocator + Copy>(
    alloc: A,
    content: &'a str,
    piece: usize,
) -> Result<MemFiles<'a, A>, AllocError> {
    let mut files = MemFiles {
        kinds: Vec::new(alloc),
        links: Vec::new(alloc),
        strays: Vec::new(alloc),
        piece,
        alloc,
    };
    add_kind(&mut files, "", Kind::Dir)?;
    for word in content.split_whitespace() {
        add(&mut files, word)?;
    }
    Ok(files)
}

/// Adds what a word stands for.
fn add<'a, A: Allocator + Copy>(
    files: &mut MemFiles<'a, A>,
    word: &'a str,
) -> Result<(), AllocError> {
    if let Some(directory) = word.strip_suffix('?') {
        return add_stray(files, directory);
    }
    if let Some((path, target)) = word.split_once('@') {
        add_link(files, path, target)?;
        return add_kind(files, path, Kind::Other);
    }
    add_kind(files, name_of(word), kind_of(word))
}

/// What a word stands for, if it is not a link.
fn kind_of(word: &str) -> Kind {
    if word.starts_with('#') {
        return Kind::Shut(ErrorKind::PermissionDenied);
    }
    if is_directory(word) {
        return Kind::Dir;
    }
    Kind::Other
}

/// Adds what is at a path.
fn add_kind<'a, A: Allocator + Copy>(
    files: &mut MemFiles<'a, A>,
    path: &'a str,
    what: Kind,
) -> Result<(), AllocError> {
    let key = key_of(files.alloc, path)?;
    files.kinds.push(Keyed { key, what })?;
    Ok(())
}

/// Adds what the link at a path points to.
fn add_link<'a, A: Allocator + Copy>(
    files: &mut MemFiles<'a, A>,
    path: &'a str,
    target: &str,
) -> Result<(), AllocError> {
    let key = key_of(files.alloc, path)?;
    let what = if target.is_empty() {
        LinkTo::Nowhere
    } else if is_directory(target) {
        LinkTo::ADirectory
    } else {
        LinkTo::AFile
    };
    files.links.push(Keyed { key, what })?;
    Ok(())
}

/// Adds the name that is not UTF-8 to a directory.
fn add_stray<'a, A: Allocator + Copy>(
    files: &mut MemFiles<'a, A>,
    directory: &'a str,
) -> Result<(), AllocError> {
    let key = key_of(files.alloc, directory)?;
    files.strays.push(Keyed { key, what: STRAY })?;
    Ok(())
}

/// The names of a path.
fn key_of<'a, A: Allocator + Copy>(alloc: A, path: &'a str) -> Result<Vec<&'a str, A>, AllocError> {
    path.split('/')
        .filter(|name| !name.is_empty())
        .collect(alloc)
}
