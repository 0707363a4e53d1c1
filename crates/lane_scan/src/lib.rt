//! Scans of bytes, and sets of bits in words.
#![tactic(auto)]

mod bits;
mod kinds;
mod lanes;
mod scans;

pub use bits::{count, first_bit, has_bit, meets, put_bit, subset};
pub use kinds::{Blank, Byte, is_blank_byte};
pub use lanes::{Kind, first_of, lowest_bit};
pub use scans::{first_foreign, next_end, next_nonblank};
