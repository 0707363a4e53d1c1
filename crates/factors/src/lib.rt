//! Sparse LU factors of a simplex basis over exact fractions, with the exchanges of its columns since as etas.
//! Nothing is promised of what they solve but its form.
#![tactic(auto)]

mod access;
mod arithmetic;
mod columns;
mod elimination;
mod factors;
mod nucleus;
mod places;
mod sides;
mod triangles;
mod vectors;

pub use access::{at, keep, put};
pub use arithmetic::{is_zero, quotient, signed, size, width};
pub use columns::{Columns, Entry};
pub use factors::Factors;
pub use vectors::SparseVector;
