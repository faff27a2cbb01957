//! Lines that are gathered before they are written. With `-0` each ends in a NUL instead of a line feed.
ghost use Rattle.std.specs.Prelude.{◌≡◌, ◌++◌, [], IfOk, OnErr, OnOk};
ghost use Rattle.glob_lines.specs.Lines.{AppendsFront, ended_record};
ghost use Rattle.glob_console.specs.Private.Writing.{Queues};

use crate::find::fault::FindFault;
use glob_lines::write_whole;
use std::alloc::{AllocError, Allocator};
use std::io::{self, Write};

/// The number of units since the last write after which a line is written immediately.
const PATIENCE: u64 = 100;

/// How many bytes of lines may wait. The buffer also has room for one more line with the longest path of most systems.
const CAPACITY: usize = 8192;

/// Paths on their way to a writer as lines, each after the lead of its patterns. The first line is written immediately,
/// and so is each line that comes `PATIENCE` units or more after the last write. Others are written together: when
/// there are `CAPACITY` bytes, and by `flush`.
#[derive(Drop)]
pub struct Lines<'l, A: Allocator> {
    pub lead: &'l str,
    end: u8,
    waiting: Vec<u8, A>,
    /// How many units the search had spent when lines were last written.
    spent: u64,
    has_line: bool,
}

impl<'l, A: Allocator> Lines<'l, A> {
    /// No lines yet. Each will begin with the lead, and end in this byte.
    pub fn new(alloc: A, lead: &'l str, end: u8) -> Result<Self, AllocError>
        ensures lead { IfOk result (λ lines. lines.lead.now ≡ lead.now) }
        ensures end { IfOk result (λ lines. lines.end ≡ end) }
        ensures none { IfOk result (λ lines. lines.waiting.items ≡ []) }
    {
        Ok(Lines {
            lead,
            end,
            waiting: Vec::with_capacity(alloc, 2 * CAPACITY)?,
            spent: 0,
            has_line: false,
        })
    }

    /// Adds the line of a path, when the search has spent `spent` units. If that fails, the first bytes of the waiting
    /// lines and this one may have been written.
    pub fn add<W: Write>(&mut self, path: &str, spent: u64, output: &mut W) -> Result<(), FindFault>
        ensures lead { self.new.lead.now ≡ self.old.lead.now }
        ensures end { self.new.end ≡ self.old.end }
        ensures line { OnOk result (Queues (W.contents output.old) self.old.waiting.items
            (W.contents output.new) self.new.waiting.items
            (ended_record self.old.end (self.old.lead.now ++ path.now))) }
        ensures some { OnErr result (AppendsFront (W.contents output.old) (W.contents output.new)
            (self.old.waiting.items
            ++ ended_record self.old.end (self.old.lead.now ++ path.now))) }
    {
        self.waiting.extend_from_slice(self.lead.as_bytes())?;
        self.waiting.extend_from_slice(path.as_bytes())?;
        self.waiting.extend_from_slice(&[self.end])?;
        let is_late = spent.saturating_sub(self.spent) >= PATIENCE;
        if self.has_line && !is_late && self.waiting.len() < CAPACITY {
            return Ok(());
        }
        self.has_line = true;
        self.spent = spent;
        Ok(self.flush(output)?)
    }

    /// Writes the waiting lines. If that fails, their first bytes may have been written.
    pub fn flush<W: Write>(&mut self, output: &mut W) -> io::Result<()>
        ensures lead { self.new.lead.now ≡ self.old.lead.now }
        ensures end { self.new.end ≡ self.old.end }
        ensures all { OnOk result (Queues (W.contents output.old) self.old.waiting.items
            (W.contents output.new) self.new.waiting.items []) }
        ensures none { OnOk result (self.new.waiting.items ≡ []) }
        ensures some { OnErr result (AppendsFront (W.contents output.old) (W.contents output.new)
            self.old.waiting.items) }
    {
        write_whole(output, self.waiting.as_slice())?;
        self.waiting.clear();
        output.flush()
    }
}
