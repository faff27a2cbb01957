//! A match of a literal pattern and text, which the proof computes.
ghost use Rattle.std.specs.Prelude.{IsTrue, IfOk};

use glob::{Pattern, PatternRefusal};
use std::alloc::Allocator;

/// Whether `*.rs` matches `main.rs`: always true. The only error is a failed allocation.
pub fn matches_main<A: Allocator + Copy>(alloc: A) -> Result<bool, PatternRefusal>
    ensures { IfOk result (λ yes. IsTrue yes) }
{
    let pattern = Pattern::new(alloc, "*.rs")?;
    Ok(pattern.matches("main.rs")?)
}
