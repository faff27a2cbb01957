//! Laws of walks: each is the contract of a function that does nothing.
ghost use Rattle.glob_walk.specs.Driven.{DrivesListing};
ghost use Rattle.glob_walk.specs.Private.Walkers.{Walk};
ghost use Rattle.glob_walk.specs.Laws.{EnoughLevelsAgree, EntriesAscend, TakenGoalIsGoal, PlainWalkCosts, TakenWalkGives, PlainWalkOrderly, TakenWalkReaches, PlainMatchesLevels, PlainMatchesNames, SensitiveWalkReaches, SensitiveWalkGives};

use std::alloc::Allocator;

/// If case matters, and under the separator rule, a plain pattern without a `/` at its end matches the path of a key
/// below the start exactly when its components take the key's names, and exactly when they match them: `a/**/c` matches
/// `a/b/c`, since `a` takes `a`, `**` takes `b` and `c` takes `c`.
pub fn plain_pattern_matches_level_by_level()
    ensures levels { PlainMatchesLevels }
    ensures names { PlainMatchesNames }
{}

/// A case-sensitive plain walk finds what the undivided pattern matches, as far as the walk got and as far as it could
/// read. If `d` cannot be listed, `*/*` gives an error for `d` instead of `d/x`.
pub fn plain_walk_reaches_the_goal()
    ensures { SensitiveWalkReaches }
{}

/// Over a readable content a case-sensitive plain walk has no error. Its paths are exactly those that the undivided
/// pattern matches under the separator rule, and under the dot rule if that is set; if the pattern ends in `/` or `**`,
/// only the directories among these. For `**/x` over files `x`, `y` and `d/x` the paths are `d/x` and `x`.
pub fn plain_walk_gives_the_goal()
    ensures { SensitiveWalkGives }
{}

/// Case-sensitively or not, the walk of a plain pattern finds the keys below its start whose names its components take.
/// It finds each once if the pattern has `**` in at most one place (`**/**` is one place), and in order if at most one
/// component follows it: `**/*` gives `d` before `d/x`, and each once. A component without wildcards takes only its own
/// name, unless it is right after `**`; `**` takes any number of names; any other component takes one name that it
/// matches. Over a directory `aaa`, case-insensitively, `AAA` finds nothing, and `AA[A]` and `**/AAA` find `aaa`.
/// Case-sensitively these are the keys whose texts the undivided pattern matches.
pub fn walk_finds_what_its_components_take()
    ensures reaches { TakenWalkReaches }
    ensures gives { TakenWalkGives }
    ensures orderly { PlainWalkOrderly }
    ensures same { TakenGoalIsGoal }
{}

/// The whole walk of a plain pattern costs at most one unit, plus `cost_per_key` units for each key of the content,
/// including the root; so the bound is known before the walk. A component costs one unit for each key. `**` costs two
/// units and, once more for each key, what the components after it cost. For 9 keys, `*/*.rs` costs at most 19 units,
/// and `**/*.rs` at most 100.
pub fn walk_costs_a_polynomial_of_keys()
    ensures { PlainWalkCosts }
{}

/// The written listing limits how many levels `**` descends below a directory, but this limit changes nothing: any
/// limit above the number of names in the longest key gives the same marks. Over `d/x`, a key of two names, three
/// levels give the same as a hundred.
pub fn enough_levels_give_the_same_marks()
    ensures { EnoughLevelsAgree }
{}

/// The written listing has the entries of a directory in ascending byte order of names, each as often as the directory
/// has it: `a`, `a.c` and `b` for the entries `b`, `a` and `a.c`.
pub fn entries_stand_in_ascending_order()
    ensures { EntriesAscend }
{}

/// A new machine has given nothing of the written listing, and what a machine gave is a prefix of the listing's items.
/// As long as all answers come from one content, each step goes on from there, by its clause `steps`: its next item is
/// the next item of the listing, and at `Done` the machine gave all items. A caller's proof keeps `HasGiven` from step
/// to step: over files `x` and `y`, `*` gave nothing, then `x`, then `x` and `y`.
pub fn steps_give_the_listing<A: Allocator>()
    ensures { DrivesListing (Walk A) }
{}
