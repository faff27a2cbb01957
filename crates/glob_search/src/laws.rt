//! Laws about what a search finds: each is the contract of a function that does nothing. No program needs them.
ghost use Rattle.glob_search.specs.Laws.{FindsTheFound, FoundAscend, GiftsAscend, OneFileDecides, OnlyNamedGive, PathsJoinNames, ReportsTheUnread, TakesWholeMatches};

/// Going down the tree finds exactly the keys that are to be found, whatever the patterns, rules and options: over
/// `a/x` and `b/x`, `a/*` finds `a/x` although `b` is never entered.
pub fn search_finds_what_is_to_be_found()
    ensures { FindsTheFound }
{}

/// It reports exactly the directories that cannot be listed and in which something might have been found, each with the
/// reason: if `a` and `b` cannot be listed, `a/*` reports `a`.
pub fn search_reports_what_it_cannot_list()
    ensures { ReportsTheUnread }
{}

/// What a search gives is in ascending order of names, each name compared by its bytes, so nothing comes twice: `a`,
/// then `a/b`, then `a.c`. The error of a directory comes after the directory's own path and before everything in later
/// directories.
pub fn search_goes_in_order()
    ensures all { GiftsAscend }
    ensures found { FoundAscend }
{}

/// With one ignore file at the top and no other rules, a search leaves out exactly what `IgnoreList::is_ignored`
/// ignores: with `b/` and `!b/x`, all of `b`.
pub fn one_file_decides_as_its_list()
    ensures { OneFileDecides }
{}

/// If case matters, a directory is not listed if all beginnings that are alive in it lead on by literal names, and none
/// of them ends in `**`. Entries with other names then give nothing: for `a/b` and `a/c/*`, only `b` and `c` have to be
/// looked up in `a`.
pub fn only_named_entries_give()
    ensures { OnlyNamedGive }
{}

/// Going down by proper names leads to the path that joins them: `a` and then `b` lead to `a/b`.
pub fn paths_join_names()
    ensures { PathsJoinNames }
{}

/// If each component of the patterns is accepted and not empty, a search takes a path by its components exactly when a
/// pattern matches the whole path under the separator rule, whatever the other options: `src/**` takes `src/a/b`.
pub fn search_takes_whole_matches()
    ensures { TakesWholeMatches }
{}
