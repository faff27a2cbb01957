//! Replays rows over a tree in memory, and counts what is asked of it.
ghost use Rattle.std.specs.Prelude.{None};

mod asking;
mod rows;

use crate::{OuterRules, RuleTexts, Search, SearchFault, Settings, Wanted};
use glob_pattern::MatchOptions;
use glob_rules::IgnoreList;
use glob_set::SetRefusal;
use glob_tree::{Asks, Entry, ListError, Look, MemTree, Tree, copy_name};
use rows::{ROWS, SOURCE};
use std::alloc::{AllocError, Global};
use std::io;
use std::io::ErrorKind;

/// A search over a tree.
#[derive(Drop)]
struct Row<'a> {
    /// Its keys, with spaces between.
    keys: &'a str,
    patterns: &'a str,
    /// Options, kinds and the depth.
    letters: &'a str,
    /// The rules that override ignore files and, after a `;`, the rules that they override. Each list follows the path
    /// of the start from the list's directory on, and `:`.
    rules: &'a str,
    /// The names of files with rules.
    rule_files: &'a str,
    /// The texts of these files, with `;` between. `!!` is a file that cannot be read.
    texts: &'a str,
    found: &'a str,
    /// How often directories are listed, and paths looked up.
    lists: usize,
    looks: usize,
}

/// The fields of a row, separated by `|`.
fn row_of(text: &str) -> Option<Row<'_>> {
    let mut fields = text.split('|');
    let keys = fields.next()?;
    let keys = if keys == "SOURCE" { SOURCE } else { keys };
    Some(Row {
        keys,
        patterns: fields.next()?,
        letters: fields.next()?,
        rules: fields.next()?,
        rule_files: fields.next()?,
        texts: fields.next()?,
        found: fields.next()?,
        lists: fields.next()?.parse().ok()?,
        looks: fields.next()?.parse().ok()?,
    })
}

/// A tree in memory that counts what is asked of it. It may repeat the first entry of each listing, as the other kind.
#[derive(Drop)]
struct Counted {
    tree: MemTree,
    asks: Asks,
    repeats: bool,
    alloc: Global,
    looks: usize,
    lists: usize,
}

impl Tree for Counted {
    type Alloc = Global;

    ghost tells = { λ _. None };

    ghost asks = { λ counted. counted.asks };

    fn look(&mut self, path: &str) -> Result<Look, AllocError> {
        self.asks = self.asks.after(1);
        self.looks = self.looks.saturating_add(1);
        self.tree.look(path)
    }

    fn list(&mut self, path: &str) -> Result<Vec<Entry>, ListError> {
        self.asks = self.asks.after(1);
        self.lists = self.lists.saturating_add(1);
        let mut entries = self.tree.list(path)?;
        if self.repeats && !entries.is_empty() {
            let name = copy_name(self.alloc, &entries[0].name)?;
            let is_dir = !entries[0].is_dir;
            entries.push(Entry { name, is_dir })?;
        }
        self.asks = self.asks.after(entries.len());
        Ok(entries)
    }
}

/// The texts of a row, each after its path and `:`, with a space for each line feed. The text `-` leaves its path out.
#[derive(Drop)]
struct RowTexts<'a> {
    files: &'a str,
    alloc: Global,
}

impl RuleTexts for RowTexts<'_> {
    type Alloc = Global;

    ghost texts = { λ _. None };

    fn text(&mut self, path: &str) -> Result<Option<String>, ListError> {
        for file in self.files.split(';') {
            let Some((name, text)) = file.split_once(':') else {
                continue;
            };
            if name == path {
                if text == "!!" {
                    return Err(ListError::Read(io::Error::from(ErrorKind::PermissionDenied)));
                }
                return Ok(Some(lines_of(self.alloc, text)?));
            }
        }
        Ok(None)
    }

    fn leaves_out(&mut self, path: &str, _is_dir: bool) -> Result<bool, AllocError> {
        for file in self.files.split(';') {
            if file.split_once(':') == Some((path, "-")) {
                return Ok(true);
            }
        }
        Ok(false)
    }
}

/// The text with a line feed for each space.
fn lines_of(alloc: Global, text: &str) -> Result<String, AllocError> {
    let mut lines = String::new(alloc);
    for c in text.chars() {
        lines.push(if c == ' ' { '\n' } else { c })?;
    }
    Ok(lines)
}

/// The tree of the keys of a row: directories end in `/`, and those that cannot be listed in `/!`.
fn tree_of(alloc: Global, keys: &str) -> Result<MemTree, AllocError> {
    let mut tree = MemTree::new(alloc)?;
    for key in keys.split_whitespace() {
        let mut path = String::from_str(alloc, "/")?;
        let added = if let Some(key) = key.strip_suffix("/!") {
            path.push_str(key)?;
            tree.add_shut(path.as_str(), ErrorKind::PermissionDenied)
        } else if let Some(key) = key.strip_suffix('/') {
            path.push_str(key)?;
            tree.add_dir(path.as_str())
        } else {
            path.push_str(key)?;
            tree.add_other(path.as_str())
        };
        if added.is_err() {
            return Err(AllocError);
        }
    }
    Ok(tree)
}

/// The settings of a row: the letters `i` and `d` of options, `D` for only directories or `F` for only others, and a
/// digit for the depth, and `L` for a limit of 4. `R` is for the tree.
fn settings_of(alloc: Global, row: &Row) -> Result<Settings, AllocError> {
    let mut settings = Settings::new(alloc);
    for c in row.letters.chars() {
        match c {
            'D' => settings.wanted = Wanted::Directories,
            'F' => settings.wanted = Wanted::Others,
            'L' => settings.limit = 4,
            'R' => {}
            _ => match c.to_digit(10) {
                Some(depth) => settings.depth = depth as usize,
                None => settings.options = settings
                    .options
                    .with_letter(c)
                    .unwrap_or(MatchOptions::new()),
            },
        }
    }
    add_lists(alloc, row.rules, &mut settings)?;
    for name in row.rule_files.split_whitespace() {
        let name = String::from_str(alloc, name)?;
        settings.rule_files.push(name)?;
    }
    Ok(settings)
}

/// Adds the rules of a row that are not in files.
fn add_lists(alloc: Global, rules: &str, settings: &mut Settings) -> Result<(), AllocError> {
    for (number, part) in rules.split(';').enumerate() {
        let (prefix, rules) = part.split_once(':').unwrap_or(("", part));
        let text = lines_of(alloc, rules)?;
        let Ok(list) = IgnoreList::new(alloc, text.as_str()) else {
            continue;
        };
        if number > 0 {
            let prefix = String::from_str(alloc, prefix)?;
            settings.last.push(OuterRules { prefix, list })?;
        } else if !rules.is_empty() {
            settings.first.push(list)?;
        }
    }
    Ok(())
}

/// Adds `!` and the path of a fault, or which fault it is.
fn add_fault(found: &mut String, fault: &SearchFault) -> Result<(), AllocError> {
    found.push('!')?;
    match fault {
        SearchFault::Unread(path, _)
        | SearchFault::UnreadRules(path, _)
        | SearchFault::RefusedRules(path, _) => found.push_str(path.as_str()),
        SearchFault::Limit => found.push_str("limit"),
        SearchFault::Memory => found.push_str("memory"),
    }
}

/// What a search finds, with spaces between. A fault begins with `!`.
fn found_by(alloc: Global, row: &Row, tree: &mut Counted) -> Result<String, AllocError> {
    let mut patterns = Vec::new(alloc);
    for pattern in row.patterns.split_whitespace() {
        patterns.push(pattern)?;
    }
    let mut found = String::new(alloc);
    let Ok(mut search) = Search::new(alloc, patterns.as_slice(), settings_of(alloc, row)?) else {
        found.push_str("refused")?;
        return Ok(found);
    };
    let mut texts = RowTexts {
        files: row.texts,
        alloc,
    };
    for _ in 0..1000 {
        let Some(item) = search.next(tree, &mut texts) else {
            break;
        };
        if !found.is_empty() {
            found.push(' ')?;
        }
        match item {
            Ok(hit) => found.push_str(hit.path.as_str())?,
            Err(fault) => add_fault(&mut found, &fault)?,
        }
    }
    Ok(found)
}

#[test]
fn finds_what_rows_say(rt: HostRuntime) -> Result<(), AllocError> {
    for text in ROWS {
        let Some(row) = row_of(text) else {
            assert!(rt; false, "{text}");
            continue;
        };
        let mut tree = Counted {
            tree: tree_of(rt.alloc(), row.keys)?,
            asks: Asks::new(),
            repeats: row.letters.contains('R'),
            alloc: rt.alloc(),
            looks: 0,
            lists: 0,
        };
        let found = found_by(rt.alloc(), &row, &mut tree)?;
        assert_eq!(rt; found.as_str(), row.found, "{text}");
        assert_eq!(rt; tree.lists, row.lists, "listings: {text}");
        assert_eq!(rt; tree.looks, row.looks, "looks: {text}");
    }
    Ok(())
}

/// `b/[/]` is accepted as a whole, and its component `[` is not.
#[test]
fn refuses_the_first_pattern_with_a_fault(rt: HostRuntime) {
    let patterns = ["a", "b/[/]", "["];
    match Search::new(rt.alloc(), &patterns, Settings::new(rt.alloc())) {
        Err(SetRefusal::Syntax(number, error)) => {
            assert_eq!(rt; number, 1);
            assert_eq!(rt; error.pos, 0);
            assert_eq!(rt; error.msg, "invalid range pattern");
        }
        _ => assert!(rt; false, "accepted, or out of memory"),
    }
}
