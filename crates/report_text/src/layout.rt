//! How many lines the parts of a report have.
ghost use Rattle.std.specs.Prelude.{◌≡◌, ◌≤◌, length, filter, not};
ghost use Rattle.rational.specs.Rational.{zero_ℚ, eq_ℚ};
ghost use Rattle.report_text.specs.Grammar.{point_phrases};
ghost use Rattle.report_text.specs.Places.{PlacesLaw};

use certs::Point;
use frac128::Frac;

/// How many lines stand before the notes: the head.
pub const HEAD_LINES: u32 = 1;

/// How many lines of an entry stand before its point, its members or its witnesses: that of the command, and that which
/// tells what the answer is.
pub const OPENING_LINES: u32 = 2;

/// How many lines of a member with its witness stand before the point: that of the member.
pub const MEMBER_LINES: u32 = 1;

/// How many lines of a proof stand before its first leaf: that of the proof.
pub const PROOF_LINES: u32 = 1;

/// How many lines of a least violation stand before its point: that of the command, that which tells what the answer is, and
/// that of the total.
pub const LEAST_LINES: u32 = 3;

/// How many lines of a total with its price stand before the line that tells that the price follows: that of the total.
pub const TOTAL_LINES: u32 = 1;

/// How many lines of a dual stand before the line that tells that its uses follow: that of its bound.
pub const BOUND_LINES: u32 = 1;

// How many values are not 0.
fn count_values(values: &[Frac]) -> u64
    ensures count { result ≡ length (filter (λ v. not (eq_ℚ v zero_ℚ)) values.now) }
    ensures few { result ≤ length values.now }
{
    let zero = Frac::whole(0);
    let mut count: u64 = 0;
    for value in values {
        if *value != zero {
            count += 1;
        }
    }
    count
}

/// How many lines a point has: one that tells that it follows, and one for each value that is not 0.
pub fn point_length(point: &Point) -> u64
    ensures { result ≡ length (point_phrases point.now) }
{
    1 + count_values(point.values.as_slice())
}

/// What stands behind so many lines of a report, an entry, a witness and a proof. It does nothing when it runs.
pub fn places_law()
    ensures { PlacesLaw }
{}
