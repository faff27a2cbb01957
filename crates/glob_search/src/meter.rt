//! The limit of a search, and what is charged to it.
ghost use Rattle.std.specs.Prelude.{◌≡◌, ◌+◌, ◌≤◌, OnOk, OnErr};

/// The next units of work do not fit the limit.
#[derive(Clone, Copy, Debug)]
pub struct OverLimit;

/// How many units of a limit were spent: never more than the limit.
#[derive(Clone, Copy)]
pub struct Meter {
    pub limit: u64,
    pub spent: u64,
    ghost within: { spent ≤ limit },
}

impl Meter {
    /// Charges units, if that many are left.
    pub fn charge(&mut self, units: usize) -> Result<(), OverLimit>
        ensures limit { self.new.limit ≡ self.old.limit }
        ensures charged { OnOk result (self.new.spent ≡ self.old.spent + units) }
        ensures refused { OnErr result (self.new.spent ≡ self.old.spent) }
    {
        let units = units as u64;
        if units > self.limit - self.spent {
            return Err(OverLimit);
        }
        self.spent += units;
        Ok(())
    }
}
