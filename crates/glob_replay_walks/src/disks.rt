//! Rows about disks: over files in memory, also with a call that fails, and over a scripted system, which counts system
//! calls and can answer as no file system would that stays the same.

pub mod contents;
pub mod failing;
pub mod files;

use crate::trees::add_entries;
use crate::walking::Found;
use ErrorKind::{
    FilesystemLoop, NotADirectory, NotFound, OutOfMemory, PermissionDenied, StaleNetworkFileHandle,
};
use contents::files_of;
use failing::{Failing, Fault};
use files::Kind::{Dir, File, Link, LinkToDir, LinkToFile, Lost, Torn, Unopened, Unread};
use files::{Noted, Planted, SystemCalls, Written};
use glob::{Disk, GlobCause, GlobError, MatchOptions, MemSystem, System, Tree, glob_in, walk_in};
use glob_replay::calls::Calls;
use glob_replay::contents::tree_of;
use glob_replay::ration::Memory;
use glob_replay::streams::error_of;
use glob_replay::words::{are_same, cut, number_of, refused, unusable};
use glob_tree::{Links, PhysicalDisk};
use std::alloc::{AllocError, Global};
use std::cell::Cell;
use std::io::{self, ErrorKind, Write};

/// The disks that rows name.
pub trait Disks: Copy {
    /// Asks the disk with this name over a system, and notes what the disk reports.
    fn ask<M: Memory, R: System>(
        &self,
        calls: &mut Calls<M>,
        files: (R, &SystemCalls),
        disk: &str,
        asked: Asked<'_>,
    ) -> io::Result<()>;
}

/// `disk` is a `Disk`, which follows links; `kept` and `followed` are a `PhysicalDisk` that keeps or follows them.
#[derive(Clone, Copy)]
pub struct PlainDisks;

impl Disks for PlainDisks {
    fn ask<M: Memory, R: System>(
        &self,
        calls: &mut Calls<M>,
        (files, system): (R, &SystemCalls),
        disk: &str,
        asked: Asked<'_>,
    ) -> io::Result<()> {
        let (alloc, noted) = (calls.alloc, Noted { system });
        match disk {
            "disk" => ask(calls, Disk::new(files, alloc), asked),
            "kept" => ask(calls, PhysicalDisk::new(files, noted, alloc), asked),
            "followed" => {
                let links = Links::Followed;
                let followed = PhysicalDisk::with_links(files, noted, alloc, links);
                ask(calls, followed, asked)
            }
            _ => Err(unusable()),
        }
    }
}

/// What a disk with these paths answers, or `$` if an allocation fails that was not refused, and by which system calls.
/// It is an error if memory was refused.
fn answer_of<M: Memory, D: Disks>(
    alloc: M,
    paths: &[Planted<'_>],
    (disks, disk): (D, &str),
    asked: Asked<'_>,
) -> io::Result<(String, SystemCalls)> {
    let (mut calls, made) = (Calls::new(alloc, alloc), SystemCalls::default());
    let system = &made;
    let files = (Written { paths, system }, system);
    match disks.ask(&mut calls, files, disk, asked) {
        Ok(()) => Ok((calls.words, made)),
        Err(error) if alloc.ration().has_refused() => Err(error),
        Err(_) => Ok((String::from_str(alloc.inner(), "$ ")?, made)),
    }
}

/// A call, and the path that it is made for.
pub type Asked<'a> = (&'a str, &'a str);

/// Adds what a tree answers to a call about a path, or to looks at several paths with `,` between them. A look gives
/// `Dir`, `Other` or `Missing`. A listing gives the names, with `/` after a directory's and a blank after each; a walk
/// gives paths in the same way. After `!` comes an error, or the path that a walk could not read.
pub fn ask<M: Memory, T: Tree<Alloc = M>>(
    calls: &mut Calls<M>,
    tree: T,
    (call, path): Asked<'_>,
) -> io::Result<()> {
    let (mut tree, words) = (tree, &mut calls.words);
    match call {
        "look" => {
            for path in path.split(',') {
                write!(words, "{:?} ", tree.look(path)?)?;
            }
            Ok(())
        }
        "list" => add_entries(words, tree.list(path)),
        "names" => add_entries(words, tree.list_names(path)),
        _ => {
            let options = MatchOptions::new();
            let walk = walk_in(calls.alloc, tree, path, options, 1_000).map_err(refused)?;
            Found::of(calls.alloc.inner(), walk)?.add_to(words)?;
            Ok(words.push(' ')?)
        }
    }
}

/// Adds the path and the cause of a walk's first item, which is this error.
fn add_first_error<M: Memory, T: Tree<Alloc = M>>(
    calls: &mut Calls<M>,
    tree: T,
    (pattern, limit): (&str, u64),
    known: io::Error,
) -> io::Result<()> {
    let (alloc, options) = (calls.alloc, MatchOptions::new());
    let mut items = glob_in(alloc, tree, pattern, options, limit).map_err(refused)?;
    match items.next() {
        Some(Err(error)) => add_error(calls, error, known),
        _ => Err(unusable()),
    }
}

/// Adds the path and the cause of a walk's error, and any complaint about the error. Calls on the error take no memory.
/// If memory ran out, its path is not checked.
fn add_error<M: Memory>(
    calls: &mut Calls<M>,
    error: GlobError<M>,
    known: io::Error,
) -> io::Result<()> {
    let (alloc, words) = (calls.alloc, &mut calls.words);
    let asked = alloc.ration().asked();
    match error.cause() {
        GlobCause::Memory => words.push_str("Memory")?,
        cause => write!(words, "{} {cause:?}", error.path().as_str())?,
    }
    if !is_known(alloc.inner(), error, known)? || alloc.ration().asked() != asked {
        words.push_str(", with another error or with memory")?;
    }
    Ok(())
}

/// Whether a walk's error is this one, and prints it.
fn is_known<M: Memory>(
    inner: Global,
    error: GlobError<M>,
    known: io::Error,
) -> Result<bool, AllocError> {
    let path = error.path().as_str();
    let line = format!(in inner; "attempting to read `{path}` resulted in an error: {known}")?;
    let is_printed = format!(in inner; "{error}")? == line;
    let is_same = are_same(inner, error.error(), &known)?;
    Ok(is_printed && is_same && are_same(inner, &error.into_error(), &known)?)
}

/// Calls each disk of the first field with the call of the second, for each path of the third. The words are the answer
/// and the system calls, which are the same for all.
pub fn ask_each<M: Memory, D: Disks>(
    disks: D,
    calls: &mut Calls<M>,
    fields: &[&str],
) -> io::Result<()> {
    let [names, call, paths] = *fields else {
        return Err(unusable());
    };
    for disk in names.split(' ') {
        for path in paths.split(' ') {
            let path = if path == "''" { "" } else { path };
            let asked = (call, path);
            let (mut answer, system) = answer_of(calls.alloc, PATHS, (disks, disk), asked)?;
            add_calls(&mut answer, &system, call)?;
            add_same(&mut calls.words, &answer, (disk, path))?;
        }
    }
    Ok(())
}

/// Adds the answer of a disk; if it differs from the answer before, also the disk.
fn add_same(words: &mut String, answer: &str, disk: (&str, &str)) -> Result<(), AllocError> {
    if words.is_empty() {
        words.push_str(answer)?;
    } else if words.as_str() != answer {
        write!(words, ", and {} {}: {answer}", disk.0, disk.1)?;
    }
    Ok(())
}

/// Makes a call on each disk over files in memory, with directories read in pieces of each size, and on a tree in
/// memory, if the content allows one. The words are the answer, the same for all, and how much was reported.
pub fn ask_in_memory<M: Memory>(calls: &mut Calls<M>, fields: &[&str]) -> io::Result<()> {
    let [names, pieces, content, call, path] = *fields else {
        return Err(unusable());
    };
    let (alloc, asked) = (calls.alloc, (call, path));
    for disk in names.split(' ') {
        for piece in pieces.split(' ') {
            let (number, alike) = (number_of(piece)?, (disk, piece));
            let files = files_of(alloc, content, number)?;
            add_same(
                &mut calls.words,
                &answer_over(alloc, files, disk, asked)?,
                alike,
            )?;
            if !content.contains('@') && !content.contains('?') {
                let tree = tree_of(alloc, alloc.inner(), ("", ""), content)?;
                let files = MemSystem::new(tree, number);
                add_same(
                    &mut calls.words,
                    &answer_over(alloc, files, disk, asked)?,
                    alike,
                )?;
            }
        }
    }
    Ok(())
}

/// The answer of a disk over a system, and how much was reported.
fn answer_over<M: Memory, R: System>(
    alloc: M,
    files: R,
    disk: &str,
    asked: Asked<'_>,
) -> io::Result<String> {
    let (mut made, noted) = (Calls::new(alloc, alloc), SystemCalls::default());
    PlainDisks.ask(&mut made, (files, &noted), disk, asked)?;
    write!(made.words, "{}", noted.reports.get())?;
    Ok(made.words)
}

/// Walks a disk over files in memory, once for each system call of the walk, and lets that call fail. The words are
/// each answer, how much was reported, and `-`.
pub fn ask_failing_in_memory<M: Memory>(calls: &mut Calls<M>, fields: &[&str]) -> io::Result<()> {
    let [disk, piece, content, call, path] = *fields else {
        return Err(unusable());
    };
    let (alloc, piece) = (calls.alloc, number_of(piece)?);
    for at in 0..1_000 {
        let (calls_made, system) = (Cell::new(0), files_of(alloc, content, piece)?);
        let made = Fault {
            at,
            calls: calls_made,
        };
        let fault = &made;
        let files = Failing { system, fault };
        let answer = answer_over(alloc, files, disk, (call, path))?;
        if fault.calls.get() <= at {
            return Ok(());
        }
        write!(calls.words, "{answer} -")?;
    }
    Err(unusable())
}

/// Adds for a look how often a path was looked up, for a walk how often a directory was opened, and for a listing both;
/// then whether something was reported. A look must open nothing.
fn add_calls(words: &mut String, system: &SystemCalls, call: &str) -> Result<(), AllocError> {
    let (lookups, opens) = (system.lookups.get(), system.opens.get());
    match call {
        "look" if opens == 0 => write!(words, "{lookups}")?,
        "walk" => write!(words, "{opens}")?,
        _ => write!(words, "{opens} {lookups}")?,
    }
    match system.reports.get() {
        0 => Ok(()),
        1 => words.push_str(" reported"),
        _ => words.push_str(" reported otherwise"),
    }
}

/// Asks disks over a system that fails with each of the system's errors, and with one that has a message of its own:
/// `a`, the target of the link `l` and the entry of `e` cannot be looked up, `o` cannot be opened, and `r` cannot be
/// read. Adds each disk and number of an error for which the answer differs from the last field, in which `!` is the
/// error.
pub fn ask_failing<M: Memory, D: Disks>(
    disks: D,
    calls: &mut Calls<M>,
    fields: &[&str],
) -> io::Result<()> {
    let [names, call, path, known] = *fields else {
        return Err(unusable());
    };
    for code in 0..134 {
        let error = match code {
            0 => io::Error::new(ErrorKind::InvalidData, "words"),
            _ => io::Error::from_raw_os_error(code),
        };
        let paths = &[
            ("a e/x", Lost(error.kind())),
            ("l", Link(error.kind())),
            ("e/", Dir(&[b"x\0"])),
            ("o/", Unopened(error)),
            ("r/", Unread(error)),
        ];
        let printed = format!(in calls.alloc.inner(); "!{error}")?;
        let known = known.replace(calls.alloc.inner(), "!", &printed)?;
        for disk in names.split(' ') {
            let (answer, _) = answer_of(calls.alloc, paths, (disks, disk), (call, path))?;
            if answer.strip_suffix(' ') != Some(known.as_str()) {
                write!(calls.words, "{disk} {code} {answer}")?;
            }
        }
    }
    Ok(())
}

/// Asks a disk about a directory. The first read gives the first names, and each of this many further reads gives the
/// other names. Adds the answer, the system calls, and how many bytes the reads had room for.
pub fn ask_large<M: Memory>(calls: &mut Calls<M>, fields: &[&str]) -> io::Result<()> {
    let [disk, call, names, reads] = *fields else {
        return Err(unusable());
    };
    let (first, others) = cut(names, " ")?;
    let mut blocks = Vec::new(calls.alloc.inner());
    blocks.push(first.as_bytes())?;
    for _ in 0..number_of(reads)? {
        blocks.push(others.as_bytes())?;
    }
    let paths = &[("a/", Dir(blocks.as_slice()))];
    let disk = (PlainDisks, disk);
    let (mut answer, system) = answer_of(calls.alloc, paths, disk, (call, "a"))?;
    add_calls(&mut answer, &system, call)?;
    Ok(write!(calls.words, "{answer} {}", system.room.get())?)
}

/// Walks a disk on which the path of the first field cannot be looked up, and `a` cannot be opened, with the error of
/// the second field. Adds the first item.
pub fn walk_to_error<M: Memory>(calls: &mut Calls<M>, fields: &[&str]) -> io::Result<()> {
    let [lost, word, pattern, limit] = *fields else {
        return Err(unusable());
    };
    let (known, system) = (error_of(word)?, &SystemCalls::default());
    let paths = &[
        (lost, Lost(known.kind())),
        (". a a/b", Dir(&[])),
        ("a/", Unopened(known)),
    ];
    let disk = Disk::new(Written { paths, system }, calls.alloc);
    add_first_error(calls, disk, (pattern, number_of(limit)? as u64), known)
}

const BLOCKS: &[&[u8]] = &[b"f\0s\0t\0", b"u\0"];

/// A file system with each kind of entry and of failure.
static PATHS: &[Planted] = &[
    (". d d/s d/near/ /f dots/.git dots/... large/d", Dir(&[])),
    ("latin/d c p p/s ./p/s/ p/t/ p/u", Dir(&[])),
    ("d/f c/f c/one/f p/f ./p//f p/s/x", File),
    ("d/near c/one c/two c/one/one p/t", LinkToDir),
    ("d/same", LinkToFile),
    ("d/gone", Link(NotFound)),
    ("d/ring", Link(FilesystemLoop)),
    ("d/hidden", Link(PermissionDenied)),
    ("fades", Link(OutOfMemory)),
    ("d/s/ unseen/a p/u/", Lost(PermissionDenied)),
    ("d/f/", Lost(NotADirectory)),
    ("full full/ fills/a", Lost(OutOfMemory)),
    ("./ /", Dir(&[b"f\0"])),
    ("d/", Dir(&[b"f\0.\0s\0..\0gone\0", b"ring\0near\0same\0"])),
    ("dots/", Dir(&[b"..foo\0.git\0...\0.a\0a~\0-\0~\0"])),
    ("large/", Dir(&[b"a\0", b"b\0", b"c\0d\0", b"e\0"])),
    ("torn/", Torn(&[], StaleNetworkFileHandle)),
    ("tears/", Torn(&[b"a\0b\0", b"c\0"], StaleNetworkFileHandle)),
    ("filling/", Torn(&[b"a\0"], OutOfMemory)),
    ("latin/", Dir(&[b"x\0", b"y\xffz\0d\0"])),
    ("odd/", Dir(&[b"a\0b/c\0"])),
    ("unseen unseen/ fills/", Dir(&[b"a\0"])),
    ("c/", Dir(&[b"f\0one\0two\0"])),
    ("c/one/", Dir(&[b"f\0one\0"])),
    ("p/ ./p/./", Dir(BLOCKS)),
];
