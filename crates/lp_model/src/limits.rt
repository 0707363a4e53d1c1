//! The limits of a program.

/// The most rows.
pub const MOST_ROWS: usize = 20_000;

/// The most columns.
pub const MOST_COLUMNS: usize = 40_000;

/// The most rows without sides that a text may have; the first of them may be the objective.
pub const MOST_FREE_ROWS: usize = 10_000;

/// The most numbers that a text may give rows and the objective.
pub const MOST_ENTRIES: usize = 400_000;

/// The most bytes of a name.
pub const LONGEST_NAME: usize = 255;
