// The steps that ln and ln_1p share (specs/Ln.antt has the method), and their constants.
ghost use Rattle.std.specs.Prelude.{◌≡◌};
ghost use Rattle.elementary.specs.Ln.{ln_rest, ln_normal};

use crate::exponential::{LN_2_FIRST, LN_2_REST};
use crate::patterns::{digits, field, raised};
use crate::polynomials::horner;
use floats::bits::bits_of;

// ln(1 + f) / s - 2 in powers of z = s^2, s = f / (2 + f): those of z^6, z^4, z^2, and those of z^7,
// z^5, z^3, z.
const LN_EVEN: [f64; 3] = [
    0.15331699633543858, // 3fc39fe42e9740a7  z^6, near 2/13
    0.2222221112572281, // 3fcc71c62e26208b  z^4, near 2/9
    0.3999999999989938, // 3fd99999999952cc  z^2, near 2/5
];

const LN_ODD: [f64; 4] = [
    0.14616721179861816, // 3fc2b59b713616c9  z^7
    0.18182889786191042, // 3fc7462b58e46ebe  z^5, near 2/11
    0.28571428626031065, // 3fd2492492df3ba9  z^3, near 2/7
    0.666666666666667, // 3fe5555555555558  z, near 2/3
];

// sqrt(1/2) - 1
pub const F_LEAST: f64 = -0.2928932188134524; // bfd2bec333018866

// f - (ln(1 + f) + g), for f from sqrt(1/2) - 1 to sqrt(2) - 1.
pub fn ln_rest(f: f64, g: f64) -> f64
    ensures { result ≡ ln_rest f g }
{
    let s = f / (2.0 + f);
    let z = s * s;
    let w = z * z;
    let h = 0.5 * f * f;
    h - (s * (h + (w * horner(&LN_EVEN, w) + z * horner(&LN_ODD, w))) + g)
}

// ln(w) + c of a normal w > 0, `bias` being what its exponent field counts from.
pub fn ln_normal(w: f64, bias: f64, c: f64) -> f64
    ensures { result ≡ ln_normal w bias c }
{
    let b = raised(bits_of(w));
    let k = field(b) - bias;
    let f = digits(b) - 1.0;
    k * LN_2_FIRST - (ln_rest(f, c + k * LN_2_REST) - f)
}
