// The root of the sum of two squares, by the bits of two numbers P and Q, Q at most P.
// 1. From 27 exponents apart on it is P: Q's square adds less than half of P's last digit.
// 2. Else P² + Q² is m² + w² / 4^d, in units of P's last digit squared, with the digits m and w and the exponents d apart. Two products give its leading
//    digits (`leading`), and `near` of these a number c of 53 digits, in steps of 2^k: the root is c or c + 1 of them (`root_below`).
// 3. Which, the leading digits tell where they lie by 3 units or more on one side of the middle's square (`sum_root`); but for one pair in 250 they do.
// 4. Else, and where the root is no normal number, the whole sum is compared with that square (`careful`, `subnormal`).
// Infinity's bits go the same way: they stand for 2^2098 units, from where on a root is infinite.
ghost use Rattle.std.specs.Prelude.{◌≡◌, ◌+◌, ◌*◌, ◌/◌, ◌^◌, ◌<◌, ◌≤◌};
ghost use Rattle.roots.specs.Root.{RootBits};
ghost use Rattle.roots.specs.Patterns.{top, Fields, square_sum};

use super::digits::{LEADING, TWICE};
use super::two_squares::TwoSquares;

// Infinity's bits: what lies past the largest finite value.
const INFINITE: u64 = 0x7ff0_0000_0000_0000;

// 3 * 2^44: from there on below the middle's square, the leading digits tell.
const SURE: u64 = 0x3000_0000_0000;

// The digits and the exponent of a number: m * 2^e units.
#[derive(Clone, Copy)]
struct Number {
    m: u64,
    e: u64,
}

impl Number {
    fn of_bits(b: u64) -> Self
        requires { b ≤ top }
        ensures { Fields b result.m result.e }
    {
        let e = b / LEADING;
        if e == 0 {
            Number { m: b, e }
        } else {
            Number {
                m: b % LEADING + LEADING,
                e: e - 1,
            }
        }
    }
}

// The bits of √(P² + Q²), for p and q the bits of P and Q, both subnormal. They are whole numbers of units, and so is the root. Its
// digits are those of numbers z places up, moved down again before the comparison.
fn subnormal(p: u64, q: u64) -> u64
    requires { (q ≤ p) × (p < 2 ^ 52) }
    ensures { RootBits (square_sum p q) result }
{
    if p == 0 {
        return 0;
    }
    let z = p.leading_zeros() - 11;
    let up = TwoSquares {
        m: p << z,
        w: q << z,
        d: 0,
    };
    let r = up.root_below();
    let sum = TwoSquares { m: p, w: q, d: 0 };
    sum.rounded(r.below.c >> (z as u64 - r.k), 0)
}

// The bits of √(P² + Q²), for p and q twice the bits of P and Q, which are at most 26 exponents apart: by a comparison of squares.
fn careful(p: u64, q: u64) -> u64
    requires { (q ≤ p) × (p ≤ 2 * top) × (p / 2 ^ 53 ≤ q / 2 ^ 53 + 26) }
    ensures { RootBits (square_sum (p / 2) (q / 2)) result }
{
    if p < TWICE {
        return subnormal(p / 2, q / 2);
    }
    let x = Number::of_bits(p / 2);
    let y = Number::of_bits(q / 2);
    let sum = TwoSquares {
        m: x.m,
        w: y.m,
        d: x.e - y.e,
    };
    let r = sum.root_below();
    let bits = (x.e + r.k) * LEADING + sum.rounded(r.below.c, r.k);
    bits.min(INFINITE)
}

// The same, at any distance, by the leading digits where these can tell. From a field of 28 on both numbers are normal.
pub fn sum_root(p: u64, q: u64) -> u64
    requires { (q ≤ p) × (p ≤ 2 * top) }
    ensures { RootBits (square_sum (p / 2) (q / 2)) result }
{
    let e = p / TWICE;
    let d = e - q / TWICE;
    if 27 <= d {
        return p / 2;
    }
    let sum = TwoSquares {
        m: p / 2 % LEADING + LEADING,
        w: q / 2 % LEADING + LEADING,
        d,
    };
    let r = sum.root_below();
    let below = r.below;
    let field = e + r.k;
    if field < 28 || 2046 < field {
        return careful(p, q);
    }
    if below.base.wrapping_sub(below.test) < SURE {
        return careful(p, q);
    }
    (field - 1) * LEADING + below.c + u64::from(below.base < below.test)
}
