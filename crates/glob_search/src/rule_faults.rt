//! What could not be read of ignore files.
ghost use Rattle.std.specs.Prelude.{◌≡◌, false, OnOk};
ghost use Rattle.glob_search.specs.States.{is_last};

use crate::fault::SearchFault;
use std::alloc::{AllocError, Allocator};
use std::mem;

/// The faults of ignore files, those of each file once.
#[derive(Drop)]
pub struct RuleFaults<A: Allocator> {
    /// The faults that were not taken yet.
    faults: Vec<SearchFault<A>, A>,
    /// The paths of all files that had faults, in ascending order.
    files: Vec<String<A>, A>,
}

impl<A: Allocator + Copy> RuleFaults<A> {
    /// No faults.
    pub fn none(alloc: A) -> Self {
        RuleFaults {
            faults: Vec::new(alloc),
            files: Vec::new(alloc),
        }
    }

    /// Adds the fault of a file, unless the file had one before. The error is that memory ran out, here or before.
    pub fn add(&mut self, path: &String<A>, fault: SearchFault<A>) -> Result<(), AllocError>
        ensures { OnOk result (is_last fault ≡ false) }
    {
        if fault.is_last() {
            return Err(AllocError);
        }
        let place = self
            .files
            .as_slice()
            .binary_search_by(|file| file.as_str().cmp(path.as_str()));
        if let Err(place) = place {
            self.faults.push(fault)?;
            self.files.insert(place, path.clone()?)?;
        }
        Ok(())
    }

    /// The faults since the last call.
    pub fn take(&mut self, alloc: A) -> Vec<SearchFault<A>, A> {
        mem::replace(&mut self.faults, Vec::new(alloc))
    }
}
