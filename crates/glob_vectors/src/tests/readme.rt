//! The example of the README, word for word.
use glob::{MatchOptions, Pattern};
use std::test::Fail;

#[test]
fn sources_without_an_underscore(rt: HostRuntime) -> Result<(), Fail> {
    let sources = Pattern::new(rt.alloc(), "src/**/[!_]*.rs")?;
    let options = MatchOptions {
        require_literal_separator: true,
        ..MatchOptions::new()
    };
    assert!(rt; sources.matches_with("src/main.rs", options)?);
    assert!(rt; sources.matches_with("src/walk/lines.rs", options)?);
    assert!(rt; !sources.matches_with("src/walk/_lines.rs", options)?);
    // Without the separator rule `*` takes `/` too: here `[!_]` takes `w`, and `*` takes `alk/_lines`.
    assert!(rt; sources.matches("src/walk/_lines.rs")?);
    Ok(())
}
