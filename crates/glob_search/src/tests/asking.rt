//! Replays rows of paths that the rules of directories are asked about.

use crate::tests::{RowTexts, add_fault, lines_of};
use crate::{DecidingRule, OuterRules, PathRules, RuleList};
use glob_rules::IgnoreList;
use std::alloc::{AllocError, Global};

/// Lists that come first, with `;` between; those that come last, each after the path of the start from its directory
/// on and `:`; the names of ignore files; their texts; the paths that are asked about, in order (those of directories end
/// in `/`); for each path `-`, or the rule that decides, with `!` if it is negative; the faults.
static ROWS: [&str; 20] = [
    "||.i|.i:*.o;src/.i:!a.o tmp/|src/a.o a.o src/tmp/x b src/b.o|src/.i:1! .i:1 src/.i:2 - .i:1|",
    "||.i|.i:a/;a/.i:!x|a/x a a/ a/b/x|.i:1 - .i:1 .i:1|",
    "||.i|a/.i:b/;a/b/.i:!*;a/b/c/.i:!*|a/b/c/x a/b/x a/c/x|a/.i:1 a/.i:1 -|",
    "||.i|.i:a;a/.i:!b|a/b c/a/b|.i:1 .i:1|",
    "||.i|a/.i:x;b/.i:!x|a/x b/x x a/x a/b/x b|a/.i:1 b/.i:1! - a/.i:1 a/.i:1 -|",
    "||.i|a/.i:x|a/x ab/x a a/x/y ab|a/.i:1 - - a/.i:1 -|",
    "||.i|a/b/.i:x;a/b/c/d/.i:!x|a/b/c/d/x a/b/c/x a/x a/b/x|a/b/c/d/.i:1! a/b/.i:1 - a/b/.i:1|",
    "||.i|.i:x;a/.i:!x;a/b/.i:x|a/b/x a/x x a/c/x|a/b/.i:1 a/.i:1! .i:1 a/.i:1!|",
    "||.i|.i:x !x x !y|x y z|.i:3 .i:4! -|",
    "||.i|a/.i:/x y/z|a/x a/b/x a/y/z a/b/y/z|a/.i:1 - a/.i:2 -|",
    "||.i .j|.i:x !y;.j:!x y;a/.i:x|x y a/x a/y|.j:1! .j:2 a/.i:1 .j:2|",
    "!x;y|:x y z|.i|.i:x !z;a/.i:!y|x y z a/y a/z w|first0:1! first1:1 .i:2! first1:1 .i:2! -|",
    "|:x;s:!s/x t/x|.i|a/.i:!x|x a/x t/x b/x|last1:1! a/.i:1! last0:1 last0:1|",
    "|s/t:/s/t/a *.o;:!b.o|.i||a a/x b/a x.o b.o|last0:1 last0:1 - last0:2 last1:1!|",
    "||||x a/b|- -|",
    "||.i|.i:*|/a a//b a// ./a a/../b a/. .. x|- - - - - - - .i:1|",
    "||.i|a/.i:[é] b|a/b c a/c a/b|a/.i:2 - - a/.i:2|!a/.i",
    "||.i|.i:[é];a/.i:!!|a/b c a/b|- - -|!.i !a/.i",
    "||.i .j|.i:[é];.j:[é] x|x a/x|.j:2 .j:2|!.i !.j",
    "||.i|a/.i:b/;a/b/.i:[é]|a/b/c a/b/d/e|a/.i:1 a/.i:1|",
];

/// A row.
#[derive(Drop)]
struct Row<'a> {
    first: &'a str,
    last: &'a str,
    names: &'a str,
    texts: &'a str,
    paths: &'a str,
    answers: &'a str,
    faults: &'a str,
}

/// The fields of a row, separated by `|`.
fn row_of(text: &str) -> Option<Row<'_>> {
    let mut fields = text.split('|');
    Some(Row {
        first: fields.next()?,
        last: fields.next()?,
        names: fields.next()?,
        texts: fields.next()?,
        paths: fields.next()?,
        answers: fields.next()?,
        faults: fields.next()?,
    })
}

/// The rules of a row.
fn rules_of(alloc: Global, row: &Row) -> Result<PathRules, AllocError> {
    let mut first = Vec::new(alloc);
    for rules in row.first.split(';') {
        let text = lines_of(alloc, rules)?;
        if let Ok(list) = IgnoreList::new(alloc, text.as_str()) {
            first.push(list)?;
        }
    }
    let mut last = Vec::new(alloc);
    for part in row.last.split(';') {
        let (prefix, rules) = part.split_once(':').unwrap_or(("", part));
        let text = lines_of(alloc, rules)?;
        if let Ok(list) = IgnoreList::new(alloc, text.as_str()) {
            let prefix = String::from_str(alloc, prefix)?;
            last.push(OuterRules { prefix, list })?;
        }
    }
    let mut names = Vec::new(alloc);
    for name in row.names.split_whitespace() {
        names.push(String::from_str(alloc, name)?)?;
    }
    PathRules::new(alloc, first, names, last)
}

/// `-`, or where the rule is from, its line, and `!` if it is negative.
fn answer_of(alloc: Global, rule: &Option<DecidingRule>) -> Result<String, AllocError> {
    let Some(deciding) = rule else {
        return String::from_str(alloc, "-");
    };
    let line = deciding.rule.line;
    let mark = if deciding.rule.negative { "!" } else { "" };
    Ok(match &deciding.list {
        RuleList::First(number) => format!(in alloc; "first{number}:{line}{mark}")?,
        RuleList::File(path) => format!(in alloc; "{path}:{line}{mark}")?,
        RuleList::Last(number) => format!(in alloc; "last{number}:{line}{mark}")?,
    })
}

/// The path that is asked about, and whether it is that of a directory.
fn asked_of(word: &str) -> (&str, bool) {
    match word.strip_suffix('/') {
        Some(path) => (path, true),
        None => (word, false),
    }
}

/// The faults of the rules, with spaces between.
fn faults_of(alloc: Global, rules: &mut PathRules) -> Result<String, AllocError> {
    let mut faults = String::new(alloc);
    for fault in rules.take_faults() {
        if !faults.is_empty() {
            faults.push(' ')?;
        }
        add_fault(&mut faults, &fault)?;
    }
    Ok(faults)
}

#[test]
fn decides_as_rows_say(rt: HostRuntime) -> Result<(), AllocError> {
    for text in ROWS {
        let Some(row) = row_of(text) else {
            assert!(rt; false, "{text}");
            continue;
        };
        let mut rules = rules_of(rt.alloc(), &row)?;
        let mut texts = RowTexts {
            files: row.texts,
            alloc: rt.alloc(),
        };
        let mut answers = row.answers.split(' ');
        for word in row.paths.split(' ') {
            let (path, is_dir) = asked_of(word);
            let rule = rules.deciding_rule(&mut texts, path, is_dir)?;
            let answer = answer_of(rt.alloc(), &rule)?;
            let expected = answers.next().unwrap_or("");
            assert_eq!(rt; answer.as_str(), expected, "{word}: {text}");
            let ignored = rules.is_ignored(&mut texts, path, is_dir)?;
            assert_eq!(rt;
                ignored,
                expected != "-" && !expected.ends_with('!'),
                "{word}: {text}"
            );
        }
        let faults = faults_of(rt.alloc(), &mut rules)?;
        assert_eq!(rt; faults.as_str(), row.faults, "{text}");
        assert!(rt; rules.take_faults().is_empty(), "{text}");
    }
    Ok(())
}
