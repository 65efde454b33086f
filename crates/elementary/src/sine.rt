// The steps of sin (specs/Sin.antt has the method), and its constants.
ghost use Rattle.std.specs.Prelude.{◌≡◌, ◌<◌};
ghost use Rattle.elementary.specs.Sin.{sin_kernel, cos_kernel, quarter_turns, sin_reduced};

use crate::polynomials::horner;
use floats::bits::bits_of;

// pi/2 in four parts.
const HALF_PI_FIRST: f64 = 1.5707963267341256; // 3ff921fb54400000  its first 33 digits

const HALF_PI_NEXT: f64 = 6.077100506303966e-11; // 3dd0b4611a600000  the next 33

const HALF_PI_THIRD: f64 = 2.0222662487111665e-21; // 3ba3198a2e000000  the next 33

const HALF_PI_REST: f64 = 8.4784276603689e-32; // 397b839a252049c1  the rest

// Taylor's coefficients.
const SIN: [f64; 8] = [
    2.8114572543455206e-15, // 3ce952c77030ad4a  1/17!
    -7.647163731819816e-13, // bd6ae7f3e733b81f  -1/15!
    1.6059043836821613e-10, // 3de6124613a86d09  1/13!
    -2.505210838544172e-08, // be5ae64567f544e4  -1/11!
    2.7557319223985893e-06, // 3ec71de3a556c734  1/9!
    -0.0001984126984126984, // bf2a01a01a01a01a  -1/7!
    0.008333333333333333, // 3f81111111111111  1/5!
    -0.16666666666666666, // bfc5555555555555  -1/3!
];

const COS: [f64; 7] = [
    4.779477332387385e-14, // 3d2ae7f3e733b81f  1/16!
    -1.1470745597729725e-11, // bda93974a8c07c9d  -1/14!
    2.08767569878681e-09, // 3e21eed8eff8d898  1/12!
    -2.755731922398589e-07, // be927e4fb7789f5c  -1/10!
    2.48015873015873e-05, // 3efa01a01a01a01a  1/8!
    -0.001388888888888889, // bf56c16c16c16c17  -1/6!
    0.041666666666666664, // 3fa5555555555555  1/4!
];

// 2/pi, what is added so that the last digits of the sum are k's, and the end of the reduction.
const PER_HALF_PI: f64 = 0.6366197723675814; // 3fe45f306dc9c883

const SHIFT: f64 = 6755399441055744.0; // 4338000000000000

pub const FURTHEST: f64 = 1647099.0; // 413921fb00000000

// sin(r - c), for |r| <= 0.786 and c below a unit in its last place.
fn sin_kernel(r: f64, c: f64) -> f64
    ensures { result ≡ sin_kernel r c }
{
    let z = r * r;
    r - (c * (1.0 - 0.5 * z) - r * z * horner(&SIN, z))
}

// cos(r - c), in the same range.
fn cos_kernel(r: f64, c: f64) -> f64
    ensures { result ≡ cos_kernel r c }
{
    let z = r * r;
    let h = 0.5 * z;
    let w = 1.0 - h;
    w + (((1.0 - w) - h) + (z * z * horner(&COS, z) + r * c))
}

// The sine of q quarter turns and r - c. Both kernels are worked out, so that a loop of it has no branch. q is a number and no kind: turns are
// counted with it.
fn quarter_turns(q: u64, r: f64, c: f64) -> f64
    requires { q < 4 }
    ensures { result ≡ quarter_turns q r c }
{
    let s = sin_kernel(r, c);
    let k = cos_kernel(r, c);
    let size = if q % 2 == 0 { s } else { k };
    if q < 2 { size } else { -size }
}

// sin(x), for |x| up to FURTHEST.
pub fn sin_reduced(x: f64) -> f64
    ensures { result ≡ sin_reduced x }
{
    let t = x * PER_HALF_PI + SHIFT;
    let k = t - SHIFT;
    let a = x - k * HALF_PI_FIRST;
    let b = k * HALF_PI_NEXT;
    let m = a - b;
    let d = k * HALF_PI_THIRD;
    let r = m - d;
    let c = ((d - (m - r)) + (b - (a - m))) + k * HALF_PI_REST;
    quarter_turns(bits_of(t) % 4, r, c)
}
