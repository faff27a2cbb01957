//! A system in which one call fails.

use glob_replay::raise;
use glob_tree::{Directory, DirectoryId, System};
use std::cell::Cell;
use std::fs::Metadata;
use std::io::{self, ErrorKind};

/// The number of the call that fails, counted from 0, and how many calls were made.
#[derive(Drop)]
pub struct Fault {
    pub at: u64,
    pub calls: Cell<u64>,
}

impl Fault {
    /// Makes a call, and returns an error if this is the call that fails.
    fn call(&self) -> io::Result<()> {
        let number = self.calls.get();
        raise(&self.calls, 1);
        if number == self.at {
            return Err(ErrorKind::StaleNetworkFileHandle.into());
        }
        Ok(())
    }
}

/// A system in which one call fails with an error. Contracts know no file system that it holds.
#[derive(Drop)]
pub struct Failing<'a, R: System> {
    pub system: R,
    pub fault: &'a Fault,
}

/// A directory of such a system.
#[derive(Drop)]
pub struct FailingNames<'a, D: Directory> {
    names: D,
    fault: &'a Fault,
}

impl<'a, R: System> System for Failing<'a, R> {
    type Dir = FailingNames<'a, R::Dir>;

    ghost use Rattle.std.specs.Prelude.{None};

    ghost holds = { λ _. None };

    fn lstat(&self, path: &str) -> io::Result<Metadata> {
        self.fault.call()?;
        self.system.lstat(path)
    }

    fn stat(&self, path: &str) -> io::Result<Metadata> {
        self.fault.call()?;
        self.system.stat(path)
    }

    fn directory_id(&self, path: &str) -> io::Result<Option<DirectoryId>> {
        self.fault.call()?;
        self.system.directory_id(path)
    }

    fn open(&self, path: &str) -> io::Result<FailingNames<'a, R::Dir>> {
        let fault = self.fault;
        fault.call()?;
        let names = self.system.open(path)?;
        Ok(FailingNames { names, fault })
    }
}

impl<D: Directory> Directory for FailingNames<'_, D> {
    ghost use Rattle.std.specs.Prelude.{None};

    ghost left = { λ _. None };

    ghost fault = { λ _. None };

    fn read(&mut self, block: &mut [u8]) -> io::Result<usize> {
        self.fault.call()?;
        self.names.read(block)
    }
}
