//! Laws about the definitions in the contracts, for patterns and for walks, with worked examples. Each is the contract
//! of a function: those of `calls` make the calls that they are about, the others have empty bodies. No program needs
//! them.

pub mod calls;
pub mod patterns;
pub mod walks;
