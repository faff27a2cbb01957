//! Laws of what is written: each is the contract of a function that does nothing.
ghost use Rattle.glob_console.specs.Laws.{EveryPathIsWanted};

/// If every path is wanted, the wanted paths are all paths of the walk.
pub fn every_path_is_wanted()
    ensures { EveryPathIsWanted }
{}
