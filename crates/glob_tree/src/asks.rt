//! A counter of what was asked of a tree. Only contracts see it.
ghost use Rattle.std.specs.Prelude.{◌≡◌, ℕ, ◌+◌};
ghost use Rattle.std.specs.Borrow.{ftrue};

use std::marker::Model;

/// How much was asked of a tree, as a number that only contracts see. It costs nothing: it has no bytes, and its
/// methods do nothing at run time.
///
/// If you implement [`Tree`](crate::Tree), keep one in a field and name it in `ghost asks`. A `look` is one ask; a
/// `list` or `list_names` is one, plus one for each entry that it returns:
///
/// ```text
/// struct NoTree {
///     asks: Asks,
/// }
///
/// impl Tree for NoTree {
///     type Alloc = Global;
///
///     ghost tells = { λ _. None };
///
///     ghost asks = { λ tree. tree.asks };
///
///     fn look(&mut self, _path: &str) -> Result<Look, AllocError> {
///         self.asks = self.asks.after(1);
///         Ok(Look::Missing)
///     }
///
///     ..
/// }
/// ```
#[derive(Debug, Drop)]
pub struct Asks {
    count: Count,
}

impl Model for Asks {
    ghost use Rattle.std.specs.Prelude.{ℕ};

    ghost Value = { ℕ };

    ghost view = { λ a. a.count.number };
}

impl Asks {
    /// The count 0: nothing was asked yet.
    pub fn new() -> Self
        ensures { result ≡ 0 }
    {
        Asks {
            count: Count::zero(),
        }
    }

    /// The count after `more` further asks: 2 after two of them. It has no upper bound.
    pub fn after(&self, more: usize) -> Self
        ensures { result ≡ self.now + more }
    {
        Asks {
            count: self.count.plus(more),
        }
    }
}

/// A number without bytes. No code computes it, so what its functions return is proved by hand.
#[derive(Debug, Drop)]
struct Count {
    ghost number: { ℕ },
}

impl Model for Count {
    ghost also_owns = { λ _. ftrue };
}

impl Count {
    fn zero() -> Self
        ensures { result.number ≡ 0 }
    {
        Count {}
    }

    fn plus(&self, _more: usize) -> Self
        ensures { result.number ≡ self.now.number + _more }
    {
        Count {}
    }
}
