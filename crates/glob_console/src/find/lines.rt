//! Lines that are gathered before they are written. With `-0` each ends in a NUL instead of a line feed.
ghost use Rattle.std.specs.Prelude.{◌≡◌, ◌++◌, [], IfErr, IfOk, OnErr, OnOk};
ghost use Rattle.glob_lines.specs.Lines.{AppendsFront, ended_record};
ghost use Rattle.glob_console.specs.FoundPaths.{IsWriting};
ghost use Rattle.glob_console.specs.Private.Writing.{Queues};

use crate::find::fault::FindFault;
use glob_lines::write_whole;
use std::alloc::{AllocError, Allocator};
use std::io::{self, Write};

/// After how many units of the walk the waiting lines are written.
const PATIENCE: u64 = 100;

/// How many bytes of lines may wait. The buffer also has room for one more line with the longest path of most systems.
const CAPACITY: usize = 8192;

/// Lines on their way to a writer. The first is written immediately. Later ones are written together: when there are
/// `CAPACITY` bytes, before a question if the walk has spent `PATIENCE` units since the last such time, and by `flush`.
#[derive(Drop)]
pub struct Lines<A: Allocator> {
    waiting: Vec<u8, A>,
    /// How many units the walk had spent when waiting lines were last due before a question.
    spent: u64,
    has_line: bool,
}

impl<A: Allocator> Lines<A> {
    /// No lines yet.
    pub fn new(alloc: A) -> Result<Self, AllocError>
        ensures { IfOk result (λ lines. lines.waiting.items ≡ []) }
    {
        Ok(Lines {
            waiting: Vec::with_capacity(alloc, 2 * CAPACITY)?,
            spent: 0,
            has_line: false,
        })
    }

    /// Adds the text and the byte that ends it. If that fails, the first bytes of the waiting lines and this one may
    /// have been written.
    pub fn add<W: Write>(&mut self, text: &str, end: u8, output: &mut W) -> Result<(), FindFault>
        ensures fault { IfErr result IsWriting }
        ensures line { OnOk result (Queues (W.contents output.old) self.old.waiting.items
            (W.contents output.new) self.new.waiting.items (ended_record end text.now)) }
        ensures some { OnErr result (AppendsFront (W.contents output.old) (W.contents output.new)
            (self.old.waiting.items ++ ended_record end text.now)) }
    {
        self.waiting.extend_from_slice(text.as_bytes())?;
        self.waiting.extend_from_slice(&[end])?;
        if self.has_line && self.waiting.len() < CAPACITY {
            return Ok(());
        }
        self.has_line = true;
        Ok(self.flush(output)?)
    }

    /// Writes the waiting lines before a question, if they may have waited long. The walk has spent `spent` units.
    pub fn before_ask<W: Write>(&mut self, spent: u64, output: &mut W) -> io::Result<()>
        ensures keeps { OnOk result (Queues (W.contents output.old) self.old.waiting.items
            (W.contents output.new) self.new.waiting.items []) }
        ensures some { OnErr result (AppendsFront (W.contents output.old) (W.contents output.new)
            self.old.waiting.items) }
    {
        if spent.saturating_sub(self.spent) < PATIENCE {
            return Ok(());
        }
        self.spent = spent;
        if self.waiting.is_empty() {
            return Ok(());
        }
        self.flush(output)
    }

    /// Writes the waiting lines. If that fails, their first bytes may have been written.
    pub fn flush<W: Write>(&mut self, output: &mut W) -> io::Result<()>
        ensures all { OnOk result (Queues (W.contents output.old) self.old.waiting.items
            (W.contents output.new) self.new.waiting.items []) }
        ensures none { OnOk result (self.new.waiting.items ≡ []) }
        ensures some { OnErr result (AppendsFront (W.contents output.old) (W.contents output.new)
            self.old.waiting.items) }
    {
        write_whole(output, self.waiting.as_slice())?;
        self.waiting.clear();
        output.flush()
    }
}
