//! Counts requests for memory, their bytes and the blocks that are held, and refuses a chosen request.
ghost use Rattle.std.specs.Prelude.{◌≡◌, false, Option, None, ℕ};

use std::alloc::{Allocator, Global};
use std::cell::Cell;
use std::marker::Model;

/// How many requests for memory there were so far, how many bytes they were for, how many blocks were given back, and
/// which request is refused, if any.
#[derive(Debug, Drop)]
pub struct Ration {
    asked: Cell<u64>,
    given_back: Cell<u64>,
    bytes: Cell<u64>,
    refused: Option<u64>,
}

// A clause sees the number of the refused request, and not the count, which a cell hides.
impl Model for Ration {
    ghost Value = { Option ℕ };

    ghost view = { λ ration. ration.refused };
}

impl Ration {
    /// No requests yet. If there is a number, the request with this number, counted from 1, will be refused.
    pub fn new(refused: Option<u64>) -> Self
        ensures { result ≡ refused }
    {
        Ration {
            asked: Cell::new(0),
            given_back: Cell::new(0),
            bytes: Cell::new(0),
            refused,
        }
    }

    /// How many requests were counted so far, including refused ones.
    pub fn asked(&self) -> u64 {
        self.asked.get()
    }

    /// How many bytes these requests were for, in total. A block that grows counts with its new size.
    pub fn bytes(&self) -> u64 {
        self.bytes.get()
    }

    /// Whether a request was refused.
    pub fn has_refused(&self) -> bool {
        let asked = self.asked.get();
        self.refused
            .is_some_and(|number| 0 < number && number <= asked)
    }

    /// How many blocks are held: those that were requested and not refused, minus those that were given back.
    pub fn held(&self) -> u64 {
        let given = self.asked().saturating_sub(u64::from(self.has_refused()));
        given.saturating_sub(self.given_back.get())
    }

    /// Counts a block that is given back.
    pub fn count_return(&self) {
        let number = self.given_back.get().saturating_add(1);
        self.given_back.set(number);
    }

    /// Counts a request for this many bytes, and returns whether it is the one to be refused.
    pub fn refuses_next(&self, size: usize) -> bool
        ensures { self.now ≡ None → result ≡ false }
    {
        let number = self.asked.get().saturating_add(1);
        self.asked.set(number);
        self.bytes.set(self.bytes.get().saturating_add(size as u64));
        self.refused == Some(number)
    }
}

/// Memory whose requests are counted, one of them perhaps refused. Callers know no more about it.
pub trait Memory: Allocator + Copy {
    /// The requests so far.
    fn ration(&self) -> &Ration;

    /// Memory that is not counted, for output and comparisons.
    fn inner(&self) -> Global;
}
