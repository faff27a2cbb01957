//! Why bytes are not a valid pattern.
ghost use Rattle.std.specs.Prelude.{◌≡◌, IfOk, IfErr, IsUtf8, chars};
ghost use Rattle.glob_pattern.specs.Grammar.Units.{IsAccepted};
ghost use Rattle.glob_c.specs.Refusals.{RefusesBytes};

use glob_pattern::{Pattern, PatternRefusal};
use std::alloc::{AllocFailed, Global};

/// Where a text is not a valid pattern, and why.
#[repr(C)]
#[derive(Clone, Copy)]
pub struct Fault {
    /// The place, in characters from 0.
    pub place: usize,
    /// The number of the message.
    pub message: u32,
}

/// Why bytes were refused as a pattern.
#[derive(Drop)]
pub(crate) enum Refusal {
    Syntax(Fault),
    Memory,
    NotUtf8,
}

/// Turns the refusal of a pattern into ours.
impl From<PatternRefusal> for Refusal {
    ghost use Rattle.std.specs.Prelude.{◌≡◌};
    ghost use Rattle.glob_c.specs.Refusals.{refusal_of};

    ghost from_gives = { λ refused refusal. refusal ≡ refusal_of refused };

    fn from(refused: PatternRefusal) -> Refusal {
        match refused {
            PatternRefusal::Syntax(error) => Refusal::Syntax(Fault {
                place: error.pos,
                message: error.kind().number(),
            }),
            PatternRefusal::Memory => Refusal::Memory,
        }
    }
}

/// A failed allocation.
impl<T: Drop> From<AllocFailed<T>> for Refusal {
    ghost use Rattle.std.specs.Prelude.{◌≡◌};
    ghost use Rattle.glob_c.specs.declared.fault.Refusal.TheVariants.{Memory};

    ghost from_gives = { λ _ refusal. refusal ≡ Memory };

    fn from(_error: AllocFailed<T>) -> Refusal {
        Refusal::Memory
    }
}

/// Parses the bytes as a pattern, in a box.
pub(crate) fn parse(alloc: Global, bytes: &[u8]) -> Result<Box<Pattern<Global>, Global>, Refusal>
    ensures utf8 { IfOk result (λ _. IsUtf8 bytes.now) }
    ensures accepted { IfOk result (λ _. IsAccepted (chars bytes.now)) }
    ensures text { IfOk result (λ b. b.value ≡ bytes.now) }
    ensures refused { IfErr result (RefusesBytes bytes.now) }
{
    let text = str::from_utf8(bytes).map_err(|_| Refusal::NotUtf8)?;
    let pattern = Pattern::new(alloc, text)?;
    Ok(Box::new(alloc, pattern)?)
}
