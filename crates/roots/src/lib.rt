// The square root and hypot, correctly rounded. Both are total.
#![tactic(auto)]

mod digits;
mod lines;
mod near;
mod sums;
mod two_squares;

ghost use Rattle.std.specs.Prelude.{◌≡◌, ◌^◌, ◌<◌, ◌≤◌, true, ◌||◌, is_nan, to_bits};
ghost use Rattle.std.specs.Float.{binary64};
ghost use Rattle.roots.specs.Root.{sqrt_of};
ghost use Rattle.roots.specs.Hypot.{hypot_of};

use digits::{LEADING, root_of};
use sums::sum_root;

// 1021 * 2^52. A number with the field f is m * 2^(f + 1073) units of 2^-2148, and `root_of` has 52 less than that exponent above m.
const LIFT: u64 = 0x3fd0_0000_0000_0000;

// The root of a number above 0 that is finite and not subnormal.
fn root_of_normal(x: f64) -> f64
    requires { (2 ^ 52 ≤ to_bits binary64 x) × (to_bits binary64 x < 0x7ff0_0000_0000_0000) }
    ensures { result ≡ sqrt_of x }
{
    root_of(x.to_bits() + LIFT)
}

// IEEE 754's squareRoot: the value nearest to the root, a tie to the even one. The root of -0 is -0.
pub fn sqrt(x: f64) -> f64
    ensures { result ≡ sqrt_of x }
{
    // two tests: a match on partial_cmp would say no more plainly that the zeros and a NaN are left
    if x < 0.0 {
        return f64::NAN;
    }
    if 0.0 < x {
        let b = x.to_bits();
        return match b / LEADING {
            2047 => x,
            0 => {
                let z = b.leading_zeros() - 11;
                root_of((b << z) + (1021 - z as u64) * LEADING)
            }
            _ => root_of_normal(x),
        };
    }
    x
}

// √(x² + y²): the value nearest to it, a tie to the even one, and infinity beyond the range. An infinity wins over a NaN.
pub fn hypot(x: f64, y: f64) -> f64
    ensures { result ≡ hypot_of x y }
{
    if x.is_nan() || y.is_nan() {
        return beside_nan(x, y);
    }
    let p = x.to_bits() << 1;
    let q = y.to_bits() << 1;
    f64::from_bits(sum_root(p.max(q), p.min(q)))
}

// The same where one is a NaN.
fn beside_nan(x: f64, y: f64) -> f64
    requires { (is_nan x || is_nan y) ≡ true }
    ensures { result ≡ hypot_of x y }
{
    if x.is_infinite() || y.is_infinite() {
        f64::INFINITY
    } else {
        f64::NAN
    }
}
