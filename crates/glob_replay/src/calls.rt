//! The calls that a row or a case is about.

use crate::ration::Memory;
use std::io;

/// The calls that the rows of a subject are about.
pub trait Make {
    /// Makes the calls of a row, and adds their answers. It is an error if memory was refused, or if the row is not
    /// about this subject.
    fn make<M: Memory>(&self, calls: &mut Calls<M>, row: &[&str]) -> io::Result<()>;
}

/// The calls of a row: their memory, which is counted, and their answers.
#[derive(Drop)]
pub struct Calls<M: Memory> {
    pub alloc: M,
    /// Other memory, for the trees and streams that the calls use.
    pub other: M,
    pub words: String,
}

impl<M: Memory> Calls<M> {
    /// Calls without answers so far. The answers are kept in memory that is not counted.
    pub fn new(alloc: M, other: M) -> Self {
        Calls {
            alloc,
            other,
            words: String::new(alloc.inner()),
        }
    }
}
