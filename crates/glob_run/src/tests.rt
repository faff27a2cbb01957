//! Replays the rows over streams and trees in memory, and checks that only the right command reads them.
ghost use Rattle.std.specs.Prelude.{None};

mod rows;

use crate::run_words;
use glob::{Entry, ListError, Look, MemTree, Tree, TreeRefusal};
use rows::ROWS;
use std::alloc::{AllocError, Global};
use std::cell::Cell;
use std::io::{self, ErrorKind, Read};

/// The other fields of a row that has only words: a usage fault.
const USAGE: &str =
    "|a⏎|2||usage: glob_run match [-i] [-s] [-d] PATTERN | escape TEXT | find [-i] [-s] [-d] [-n LIMIT] PATTERN⏎";

/// A reader of the bytes of a field, one byte a call, which records whether it was called.
#[derive(Drop)]
struct Source<'a> {
    rest: &'a [u8],
    asked: &'a Cell<bool>,
}

impl Read for Source<'_> {
    ghost remaining = { λ _. None };

    fn read(&mut self, buf: &mut [u8]) -> io::Result<usize> {
        self.asked.set(true);
        let len = buf.len().min(1);
        match self.rest {
            [] => Err(io::Error::from(ErrorKind::Other)),
            [0] => Ok(0),
            _ => self.rest.read(&mut buf[..len]),
        }
    }
}

/// A tree in memory, which records whether it was asked.
#[derive(Drop)]
struct Watched<'a> {
    tree: MemTree,
    asked: &'a Cell<bool>,
}

impl Tree for Watched<'_> {
    type Alloc = Global;

    ghost tells = { λ _. None };

    ghost asks = { λ watched. watched.tree.asks };

    fn look(&mut self, path: &str) -> Result<Look, AllocError> {
        self.asked.set(true);
        self.tree.look(path)
    }

    fn list(&mut self, path: &str) -> Result<Vec<Entry>, ListError> {
        self.asked.set(true);
        self.tree.list(path)
    }
}

/// The bytes that a field stands for, and a zero unless the stream fails. The zero is the end of a reader, and room for
/// more in a writer.
fn bytes_of(alloc: Global, field: &str) -> Result<Vec<u8>, AllocError> {
    let mut bytes = Vec::new(alloc);
    for c in field.chars() {
        match c {
            '⏎' => bytes.push(b'\n')?,
            '␦' => bytes.push(255)?,
            '✗' => return Ok(bytes),
            _ => bytes.extend_from_slice(c.encode_utf8(&mut [0; 4]).as_bytes())?,
        }
    }
    bytes.push(0)?;
    Ok(bytes)
}

/// The tree with these keys.
fn tree_of(alloc: Global, keys: &str) -> Result<MemTree, TreeRefusal> {
    let mut tree = MemTree::new(alloc)?;
    for key in keys.split(' ') {
        let path = format!(in alloc; "/{}", key.trim_end_matches(['/', '#']))?;
        match key.as_bytes().last() {
            Some(b'/') => tree.add_dir(&path)?,
            Some(b'#') => tree.add_shut(&path, ErrorKind::PermissionDenied)?,
            Some(_) => tree.add_other(&path)?,
            None => (),
        }
    }
    Ok(tree)
}

/// Whether only `match` read its input and only `find` its tree, and nothing was read after a usage fault or for an
/// invalid pattern.
fn is_asked_by(words: &str, errors: &str, input: bool, tree: bool) -> bool {
    let is_fault = errors.starts_with("usage") || errors.starts_with("Pattern");
    let may_read = words.starts_with("match") && !is_fault;
    let may_walk = words.starts_with("find") && !is_fault;
    (may_read || !input) && (may_walk || !tree)
}

/// Whether the program, on the words of the row and a tree with these keys, does what the other fields say.
fn does(alloc: Global, keys: &str, row: &str) -> Result<bool, TreeRefusal> {
    let mut row = String::from_str(alloc, row)?;
    if !row.contains('|') {
        row.push_str(USAGE)?;
    }
    let fields: Vec<&str> = row.splitn(5, '|').collect(alloc)?;
    let [line, input, status, output, report] = *fields.as_slice() else {
        return Ok(false);
    };
    let words: Vec<&str> = line.split(' ').filter(|word| *word != "∅").collect(alloc)?;
    let input = bytes_of(alloc, input)?;
    let (output, errors) = (bytes_of(alloc, output)?, bytes_of(alloc, report)?);
    let (read, walked) = (Cell::new(false), Cell::new(false));
    let mut written = vec![in alloc; 0; output.len()]?;
    let mut reported = vec![in alloc; 0; errors.len()]?;
    let (mut stdout, mut stderr) = (written.as_mut_slice(), reported.as_mut_slice());
    let tree = Watched {
        tree: tree_of(alloc, keys)?,
        asked: &walked,
    };
    let source = Source {
        rest: &input,
        asked: &read,
    };
    let found = run_words(alloc, tree, &words, source, &mut stdout, &mut stderr);
    let is_right = status.parse::<u8>() == Ok(found) && written == output && reported == errors;
    Ok(is_right && is_asked_by(line, report, read.get(), walked.get()))
}

#[test]
fn words_do_what_their_rows_say(rt: HostRuntime) {
    for block in ROWS.split("\n+ ") {
        let (keys, rows) = block.split_once('\n').unwrap_or((block, ""));
        for row in rows.lines().filter(|row| !row.starts_with('#')) {
            assert!(rt; matches!(does(rt.alloc(), keys, row), Ok(true)), "{row}");
        }
    }
}
