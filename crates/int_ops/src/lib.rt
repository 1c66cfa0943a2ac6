//! The operators on integers of 128 bits (Van Roy and Haridi, *Concepts, Techniques, and Models of Computer
//! Programming*, section 3.2).
//!
//! What it promises: `apply` gives exactly what `result_of` of `kernel_syntax` says, or the fault that it says. It takes
//! no memory, and stands on that definition alone; `operators_divide` of `kernel_syntax` says in the subject's own words
//! what `div` and `mod` are. Tests (`unit_tests`) show the operators at both ends of 128 bits, by values from outside.
#![tactic(auto)]

mod operators;

pub use operators::{OpFault, Value, apply};
