//! Arithmetic in which an operation with an operand 0 is not made.
ghost use Rattle.std.specs.Prelude.{◌≡◌, ◌≢◌, MatchResult, Some, None};
ghost use Rattle.rational.specs.Rational.{◌+ℚ◌, ◌-ℚ◌, ◌*ℚ◌, ◌/ℚ◌, zero_ℚ, eq_ℚ};
ghost use Rattle.frac128.specs.Calculation.{first_wide};
ghost use Rattle.certs.specs.Turns.{counted};

use frac128::{Exact, Op, Wide};

/// Whether a number is 0.
pub(crate) fn is_zero<N: Exact>(a: N) -> bool
    ensures { result ≡ eq_ℚ (N.value a) zero_ℚ }
{
    a == N::zero()
}

/// The product, or the operation where it is too wide. None is made where an operand is 0.
pub fn product<N: Exact>(a: N, b: N) -> Result<N, Wide>
    ensures { MatchResult result
        (λ r. (N.value r ≡ N.value a *ℚ N.value b) × (first_wide N.most (counted Op.Times (N.value a) (N.value b)) ≡ None))
        (λ w. first_wide N.most (counted Op.Times (N.value a) (N.value b)) ≡ Some w) }
{
    if is_zero(a) {
        return Ok(N::zero());
    }
    if is_zero(b) {
        return Ok(N::zero());
    }
    a.times(b)
}

/// The sum, or the operation where it is too wide. None is made where an operand is 0.
pub fn sum<N: Exact>(a: N, b: N) -> Result<N, Wide>
    ensures { MatchResult result
        (λ r. (N.value r ≡ N.value a +ℚ N.value b) × (first_wide N.most (counted Op.Plus (N.value a) (N.value b)) ≡ None))
        (λ w. first_wide N.most (counted Op.Plus (N.value a) (N.value b)) ≡ Some w) }
{
    if is_zero(a) {
        return Ok(b);
    }
    if is_zero(b) {
        return Ok(a);
    }
    a.plus(b)
}

/// The difference, or the operation where it is too wide. None is made where an operand is 0.
pub fn difference<N: Exact>(a: N, b: N) -> Result<N, Wide>
    ensures { MatchResult result
        (λ r. (N.value r ≡ N.value a -ℚ N.value b) × (first_wide N.most (counted Op.Minus (N.value a) (N.value b)) ≡ None))
        (λ w. first_wide N.most (counted Op.Minus (N.value a) (N.value b)) ≡ Some w) }
{
    if is_zero(a) {
        return Ok(b.negate());
    }
    if is_zero(b) {
        return Ok(a);
    }
    a.minus(b)
}

/// The quotient by a number that is not 0, or the operation where it is too wide. None is made where the dividend is 0.
pub fn quotient<N: Exact>(a: N, b: N) -> Result<N, Wide>
    requires { N.value b ≢ zero_ℚ }
    ensures { MatchResult result
        (λ r. (N.value r ≡ N.value a /ℚ N.value b) × (first_wide N.most (counted Op.Over (N.value a) (N.value b)) ≡ None))
        (λ w. first_wide N.most (counted Op.Over (N.value a) (N.value b)) ≡ Some w) }
{
    if is_zero(a) {
        return Ok(N::zero());
    }
    a.over(b)
}
