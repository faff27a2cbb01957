//! Calls each function of `glob_examples` and each law that takes arguments once, with ample memory: it has to answer.
use glob::laws::{path_matches_as_its_text, text_is_an_equal_pattern};
use glob::{MatchOptions, Pattern};
use glob_examples::copy::{CopyRules, paths_to_copy, pattern_below};
use glob_examples::literals::matches_main;
use glob_examples::names::PathPattern;
use glob_examples::one_file::{OneFile, walk_over_main};
use glob_examples::sources::sources;
use glob_examples::texts::{matches_text, reread};
use std::path::Path;
use std::test::Fail;

#[test]
fn examples_answer(rt: HostRuntime) -> Result<(), Fail> {
    let alloc = rt.alloc();
    assert!(rt; matches_main(alloc)?);
    assert!(rt; !matches_text(alloc, "[", "[")?);
    let pattern = Pattern::new(alloc, "a*")?;
    reread(alloc, &pattern)?;
    text_is_an_equal_pattern(alloc, &pattern)?;
    assert!(rt; path_matches_as_its_text(&pattern, Path::new("a/b"), MatchOptions::new())?);
    pattern_below(alloc, "a[1]")?;
    assert!(rt; walk_over_main(alloc).is_ok());
    assert!(rt; sources(alloc, OneFile::new(alloc, "main.rs"), "*.rs", 3).is_ok());
    let rules = CopyRules::new(alloc, &["*.rs"], &["test*"])?;
    assert!(rt; paths_to_copy(alloc, OneFile::new(alloc, "main.rs"), "*", &rules, 3).is_ok());
    assert!(rt; PathPattern::new(alloc, "a/**/[b-d]?")?.matches("a/x/y/bx")?);
    Ok(())
}
