//! Lines about the plain names at the beginning of a pattern of a search that found nothing: where the disk has nothing
//! at their path, or something below which nothing is searched. No clause speaks of them.
use crate::find::kinds::{PathKind, PathKinds};
use crate::find::leads::{place_at, split_lead};
use crate::find::missing::{is_plain, kind_at};
use crate::find::names::{Wanted, least_name};
use crate::find::places::Places;
use crate::options::Options;
use crate::visible::Visible;
use glob_console::ErrorLines;
use std::alloc::Allocator;
use std::fmt::{self, Display};
use std::io::Write;

/// A line about a path at the beginning of a pattern.
#[derive(Clone, Copy)]
enum Way<'a> {
    /// Nothing has this path, whose directory is this.
    Absent(&'a str, &'a str),
    /// Nothing has this path from the root on, but something has it from the start on, where it is this.
    Rooted(&'a str, &'a str),
    /// Nothing has this path, but this directory has this name, which is nearly the last name of the path.
    Near(&'a str, &'a str, &'a str),
    /// Nothing has this path, but this directory has this name, which is the last name of the path in another case.
    Cased(&'a str, &'a str, &'a str),
    /// This path is a symbolic link to a directory.
    Link(&'a str),
    /// This path is not a directory.
    File(&'a str),
}

impl Display for Way<'_> {
    fn fmt<W: fmt::Write>(&self, f: &mut fmt::Formatter<W>) -> fmt::Result {
        match self {
            Way::Absent(path, directory) => {
                let (path, directory) = (Visible { text: *path }, Visible { text: *directory });
                write!(
                    f,
                    "`{path}` is not there, so nothing is found below it: '{directory}*' finds what is there"
                )
            }
            Way::Rooted(path, below) => {
                let (path, below) = (Visible { text: *path }, Visible { text: *below });
                write!(
                    f,
                    "`{path}` is not there, but '{below}' is: a / at the beginning is the root, so leave it out"
                )
            }
            Way::Near(path, directory, name) => {
                let (path, directory) = (Visible { text: *path }, Visible { text: *directory });
                let name = Visible { text: *name };
                write!(f, "`{path}` is not there, but '{directory}{name}' is")
            }
            Way::Cased(path, directory, name) => {
                let (path, directory) = (Visible { text: *path }, Visible { text: *directory });
                let name = Visible { text: *name };
                write!(
                    f,
                    "`{path}` is not there, but '{directory}{name}' is: use -i for both cases"
                )
            }
            Way::Link(path) => {
                let path = Visible { text: *path };
                write!(f, "`{path}` is a symbolic link: use -L to search below it")
            }
            Way::File(path) => {
                let path = Visible { text: *path };
                write!(
                    f,
                    "`{path}` is not a directory, so nothing is found below it: '{path}' finds it"
                )
            }
        }
    }
}

/// Writes what is in the way of a pattern, if its beginning has only plain names, and returns whether something is.
pub fn note_way<P: Places, F: PathKinds, E: Write>(
    alloc: P::Alloc,
    places: &P,
    files: &F,
    options: &Options<'_, P::Alloc>,
    pattern: &str,
    errors: &mut ErrorLines<'_, P::Alloc, E>,
) -> bool {
    if !options.settings.options.case_sensitive || pattern.starts_with('~') {
        return false;
    }
    let (lead, below) = split_lead(pattern);
    for (end, _) in below.match_indices('/') {
        let start = lead.len().saturating_add(end);
        let path = pattern.get(..start).unwrap_or("");
        if !is_plain(below.get(..end).unwrap_or("")) {
            return false;
        }
        match kind_at(alloc, files, options, path) {
            Some(PathKind::Directory) => {}
            Some(PathKind::Other) => {
                note_absent(alloc, places, files, options, path, errors);
                return true;
            }
            Some(PathKind::Link) => {
                errors.write(&Way::Link(path));
                return true;
            }
            Some(PathKind::File) => {
                errors.write(&Way::File(path));
                return true;
            }
            None => return false,
        }
    }
    let is_absent = is_plain(below)
        && kind_at(alloc, files, options, pattern).is_some_and(|kind| kind == PathKind::Other);
    is_absent
        && (note_cased(alloc, places, options, pattern, errors)
            || (below.contains('/') && note_near(alloc, places, options, pattern, errors)))
}

/// Writes that a path is not there, and which name is there instead of its last.
fn note_absent<P: Places, F: PathKinds, E: Write>(
    alloc: P::Alloc,
    places: &P,
    files: &F,
    options: &Options<'_, P::Alloc>,
    path: &str,
    errors: &mut ErrorLines<'_, P::Alloc, E>,
) {
    if note_cased(alloc, places, options, path, errors) {
        return;
    }
    if let Some(below) = path.strip_prefix('/') {
        if kind_at(alloc, files, options, below).is_some_and(|kind| kind != PathKind::Other) {
            errors.write(&Way::Rooted(path, below));
            return;
        }
    }
    if !note_near(alloc, places, options, path, errors) {
        let (directory, _) = split_last(path);
        errors.write(&Way::Absent(path, directory));
    }
}

/// Writes which name is there instead of the last name of a path, if the two are nearly the same, and returns whether
/// one is.
fn note_near<P: Places, E: Write>(
    alloc: P::Alloc,
    places: &P,
    options: &Options<'_, P::Alloc>,
    path: &str,
    errors: &mut ErrorLines<'_, P::Alloc, E>,
) -> bool {
    let (directory, last) = split_last(path);
    if last.len() <= 2 {
        return false;
    }
    let Ok(place) = place_at(alloc, options.directory, directory) else {
        return false;
    };
    match least_name(alloc, places, place.as_str(), Wanted::Near(last)) {
        Some(name) => {
            errors.write(&Way::Near(path, directory, name.as_str()));
            true
        }
        None => false,
    }
}

/// The directory of a path, with its `/`, and the path's last name.
fn split_last(path: &str) -> (&str, &str) {
    let last = match path.rsplit_once('/') {
        Some((_, last)) => last,
        None => path,
    };
    (path.strip_suffix(last).unwrap_or(""), last)
}

/// Writes which name is there instead of the last name of a path, if it differs only in case.
fn note_cased<P: Places, E: Write>(
    alloc: P::Alloc,
    places: &P,
    options: &Options<'_, P::Alloc>,
    path: &str,
    errors: &mut ErrorLines<'_, P::Alloc, E>,
) -> bool {
    let (directory, last) = split_last(path);
    let Ok(place) = place_at(alloc, options.directory, directory) else {
        return false;
    };
    match least_name(alloc, places, place.as_str(), Wanted::AnyCase(last)) {
        Some(name) => {
            errors.write(&Way::Cased(path, directory, name.as_str()));
            true
        }
        None => false,
    }
}
