//! Where a directory is in its repository. No clause is about this.

use std::alloc::AllocError;
use std::{fs, io};

/// The names from the top of a directory's repository down to the directory, with symbolic links resolved. The top is
/// the nearest directory upwards that has a `.git`. There are no names if the directory is the top, or is in no
/// repository. The error says why the directory's path is not known.
pub fn names_above(rt: HostRuntime, directory: &str) -> io::Result<Vec<String>> {
    let directory = if directory.is_empty() { "." } else { directory };
    let whole = fs::canonicalize(&rt, directory)?;
    for top in whole.ancestors() {
        let git = top.join(rt.alloc(), ".git")?;
        if fs::symlink_metadata(&rt, git).is_ok() {
            let place = match whole.strip_prefix(top) {
                Ok(place) => place.as_str(),
                Err(_) => "",
            };
            return Ok(names_of(rt, place)?);
        }
    }
    Ok(Vec::new(rt.alloc()))
}

/// The names of a path.
fn names_of(rt: HostRuntime, path: &str) -> Result<Vec<String>, AllocError> {
    let mut names = Vec::new(rt.alloc());
    for name in path.split('/') {
        if !name.is_empty() {
            names.push(String::from_str(rt.alloc(), name)?)?;
        }
    }
    Ok(names)
}
