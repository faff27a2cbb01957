//! Callers of the library, one file for each kind of user, each with promises in its own words.
#![tactic(auto)]

pub mod copy;
pub mod disks;
pub mod faults;
pub mod literals;
pub mod names;
pub mod one_file;
pub mod programs;
pub mod sources;
pub mod texts;
