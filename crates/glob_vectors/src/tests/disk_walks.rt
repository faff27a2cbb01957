//! The calls `glob` and `glob_with` over a folder that the test makes.
use glob::{FilesSystem, GlobCause, MatchOptions, Pattern, PatternRefusal, glob, glob_with};
use std::io::ErrorKind;
use std::test::Fail;
use std::{env, fs, io};

/// The path of a new folder among the temporary files: the first of a list of names that does not exist yet.
fn new_folder(rt: HostRuntime) -> io::Result<String> {
    let top = env::temp_dir(&rt)?;
    for number in 0..1_000 {
        let folder = format!(in rt.alloc(); "{}/glob_vectors_{number}", top.as_str())?;
        if fs::create_dir(&rt, folder.as_str()).is_ok() {
            return Ok(folder);
        }
    }
    Err(io::Error::from(ErrorKind::AlreadyExists))
}

/// Both calls return the fault of a pattern.
#[test]
fn a_faulty_pattern_is_refused(rt: HostRuntime) {
    for (pattern, pos) in [("a/**b", 4), ("x/a[/]b", 1), ("abc[def", 3)] {
        let refused = [
            glob(rt, rt.alloc(), pattern).err(),
            glob_with(rt, rt.alloc(), pattern, MatchOptions::new()).err(),
        ];
        let are_faults = refused.iter().all(|refusal| match refusal {
            Some(PatternRefusal::Syntax(fault)) => fault.pos == pos,
            _ => false,
        });
        assert!(rt; are_faults, "{pattern}");
    }
}

/// A folder that is removed between being given and being listed is an error, and the walk goes on to its end.
#[test]
fn a_folder_that_is_removed_is_an_error(rt: HostRuntime) -> Result<(), Fail> {
    let folder = new_folder(rt)?;
    let inner = format!(in rt.alloc(); "{folder}/e")?;
    let pattern = format!(in rt.alloc(); "{}/**", Pattern::escape(rt.alloc(), folder.as_str())?)?;
    for options in [None, Some(MatchOptions::new())] {
        fs::create_dir(&rt, inner.as_str())?;
        let mut paths = match options {
            None => glob(rt, rt.alloc(), pattern.as_str())?,
            Some(options) => glob_with(rt, rt.alloc(), pattern.as_str(), options)?,
        };
        let first = paths.next().expect(&rt, "an item")?;
        assert_eq!(rt; first.as_str(), inner.as_str());
        fs::remove_dir(&rt, inner.as_str())?;
        let Some(Err(error)) = paths.next() else {
            panic!(rt; "no error");
        };
        assert_eq!(rt; error.path().as_str(), inner.as_str());
        assert!(rt; error.cause() == GlobCause::Read);
        assert!(rt; error.error().kind() == ErrorKind::NotFound);
        assert!(rt; paths.next().is_none());
    }
    fs::remove_dir(&rt, folder.as_str())?;
    Ok(())
}

/// A walk over any `Files` gives what is in a folder, and then ends.
#[test]
fn any_files_are_walked(rt: HostRuntime) -> Result<(), Fail> {
    let files = FilesSystem { files: rt };
    let folder = new_folder(rt)?;
    let inner = format!(in rt.alloc(); "{folder}/e")?;
    let pattern = format!(in rt.alloc(); "{}/*", Pattern::escape(rt.alloc(), folder.as_str())?)?;
    fs::create_dir(&rt, inner.as_str())?;
    for options in [None, Some(MatchOptions::new())] {
        let mut paths = match options {
            None => glob(files, rt.alloc(), pattern.as_str())?,
            Some(options) => glob_with(files, rt.alloc(), pattern.as_str(), options)?,
        };
        let first = paths.next().expect(&rt, "an item")?;
        assert_eq!(rt; first.as_str(), inner.as_str());
        assert!(rt; paths.next().is_none());
    }
    fs::remove_dir(&rt, inner.as_str())?;
    fs::remove_dir(&rt, folder.as_str())?;
    Ok(())
}
