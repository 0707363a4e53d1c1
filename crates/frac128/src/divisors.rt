//! The greatest common divisor.
ghost use Rattle.std.specs.Prelude.{◌≡◌, ◌*◌, ◌%◌, ◌^◌, ◌<◌};
ghost use Rattle.std.specs.Int.{trailing_zeros, w64, w128};
ghost use Rattle.algebra.specs.Gcd.{gcd};

// The greatest number of 64 bits, whose arithmetic takes an instruction each.
pub const WORD_MAX: u128 = 18446744073709551615;

// The greatest common divisor: by a step of Euclid's algorithm, which makes the numbers alike in size, and then by
// differences and shifts (Stein, *Computational problems associated with Racah algebra*, 1967).
pub fn greatest_divisor(a: u128, b: u128) -> u128
    ensures { result ≡ gcd a b }
{
    if a <= WORD_MAX && b <= WORD_MAX {
        return word_divisor(a as u64, b as u64) as u128;
    }
    let (less, more) = if a < b { (a, b) } else { (b, a) };
    if less == 0 {
        return more;
    }
    let rest = more % less;
    if less <= WORD_MAX {
        return word_divisor(less as u64, rest as u64) as u128;
    }
    if rest == 0 {
        return less;
    }
    let twos = less.trailing_zeros().min(rest.trailing_zeros());
    odd_divisor(odd_part(less), odd_part(rest)) << twos
}

// The same of 64-bit numbers.
pub fn word_divisor(a: u64, b: u64) -> u64
    ensures { result ≡ gcd a b }
{
    let (less, more) = if a < b { (a, b) } else { (b, a) };
    if less == 0 {
        return more;
    }
    let rest = more % less;
    if rest == 0 {
        return less;
    }
    let twos = less.trailing_zeros().min(rest.trailing_zeros());
    odd_word_divisor(odd_word_part(less), odd_word_part(rest)) << twos
}

// The number without its factors 2.
fn odd_part(n: u128) -> u128
    requires { 0 < n }
    ensures odd { result % 2 ≡ 1 }
    ensures back { result * 2 ^ trailing_zeros w128 n ≡ n }
{
    n >> n.trailing_zeros()
}

// The same of a 64-bit number.
fn odd_word_part(n: u64) -> u64
    requires { 0 < n }
    ensures odd { result % 2 ≡ 1 }
    ensures back { result * 2 ^ trailing_zeros w64 n ≡ n }
{
    n >> n.trailing_zeros()
}

// The greatest common divisor of odd numbers: it divides their difference, which is even, so it divides the odd part of that.
fn odd_divisor(a: u128, b: u128) -> u128
    requires left { a % 2 ≡ 1 }
    requires right { b % 2 ≡ 1 }
    ensures { result ≡ gcd a b }
{
    let mut x = a;
    let mut y = b;
    while x > WORD_MAX || y > WORD_MAX {
        if x == y {
            return x;
        }
        let apart = x.abs_diff(y);
        y = x.min(y);
        x = odd_part(apart);
    }
    odd_word_divisor(x as u64, y as u64) as u128
}

// The same of 64-bit numbers.
fn odd_word_divisor(a: u64, b: u64) -> u64
    requires left { a % 2 ≡ 1 }
    requires right { b % 2 ≡ 1 }
    ensures { result ≡ gcd a b }
{
    let mut x = a;
    let mut y = b;
    while x != y {
        let apart = x.abs_diff(y);
        y = x.min(y);
        x = odd_word_part(apart);
    }
    x
}
