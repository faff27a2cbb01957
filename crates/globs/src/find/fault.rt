//! Why a search failed, and the lines about what it could not do.
ghost use Rattle.std.specs.Prelude.{◌≡◌, ◌⊎◌, ◌++◌, string_bytes};
ghost use Rattle.globs.specs.Find.Writing.{is_end};

use crate::find::strays::UnsettledLine;
use crate::ignoring::RulesFault;
use glob_console::ErrorLines;
use glob_rules::RuleRefusal;
use glob_search::SearchFault;
use std::alloc::{AllocError, AllocFailed, Allocator};
use std::io::{self, Write};

/// Why a search failed.
#[derive(Drop)]
pub enum FindFault {
    /// Out of memory: an allocation failed.
    Memory,
    /// A line could not be written.
    Write(io::Error),
}

/// A failed allocation.
impl From<AllocError> for FindFault {
    fn from(_error: AllocError) -> FindFault {
        FindFault::Memory
    }
}

/// A failed allocation.
impl<T: Drop> From<AllocFailed<T>> for FindFault {
    fn from(_error: AllocFailed<T>) -> FindFault {
        FindFault::Memory
    }
}

/// A line that could not be written.
impl From<io::Error> for FindFault {
    fn from(error: io::Error) -> FindFault {
        FindFault::Write(error)
    }
}

impl FindFault {
    /// Writes the line of the fault, and returns its exit status.
    pub fn report<A: Allocator + Copy, E: Write>(self, errors: &mut ErrorLines<'_, A, E>) -> u8
        ensures { result ≡ 2 }
    {
        match self {
            FindFault::Memory => errors.memory_fault(),
            FindFault::Write(error) => errors.write_fault(&error),
        }
    }
}

/// Writes the lines about what a search for patterns with a lead could not do. Returns whether this ends the search.
pub fn report_search<A: Allocator + Copy, E: Write>(
    alloc: A,
    lead: &str,
    fault: SearchFault<A>,
    errors: &mut ErrorLines<'_, A, E>,
) -> bool
    ensures { result ≡ is_end fault }
{
    match fault {
        SearchFault::Unread(path, error) => {
            errors.write(&UnsettledLine {
                lead,
                path: path.as_str(),
                error: &error,
            });
            false
        }
        SearchFault::UnreadRules(path, error) => {
            let path = with_lead(alloc, lead, path);
            errors.write(&RulesFault::unread(path.as_str(), error));
            false
        }
        SearchFault::RefusedRules(path, refusals) => {
            let path = with_lead(alloc, lead, path);
            report_refusals(path.as_str(), refusals.as_slice(), errors);
            false
        }
        SearchFault::Limit => {
            errors.write(
                &"the limit of -n is reached, so paths may be missing. It counts units: for a number of paths, pipe them to head",
            );
            true
        }
        SearchFault::Memory => {
            errors.write(&"out of memory");
            true
        }
    }
}

/// A path after a lead. If memory runs out, it is only the path.
pub fn with_lead<A: Allocator + Copy>(alloc: A, lead: &str, path: String<A>) -> String<A>
    ensures { (string_bytes result ≡ lead.now ++ string_bytes path)
        ⊎ (string_bytes result ≡ string_bytes path) }
{
    match format!(in alloc; "{lead}{path}") {
        Ok(led) => led,
        Err(_) => path,
    }
}

/// Writes a line for each refused line of the ignore file at a path.
pub fn report_refusals<A: Allocator + Copy, E: Write>(
    path: &str,
    refusals: &[RuleRefusal],
    errors: &mut ErrorLines<'_, A, E>,
) {
    for refusal in refusals {
        match refusal {
            RuleRefusal::Line(line, reason) => {
                errors.write(&RulesFault::Refused(path, *line, *reason));
            }
            RuleRefusal::Memory => errors.write(&RulesFault::Memory),
        }
    }
}
