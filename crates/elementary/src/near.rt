// The steps of atan and ln_1p near a point of the table (specs/Near.antt has the method), and their constants.
ghost use Rattle.std.specs.Prelude.{◌≡◌, ◌<◌, T};
ghost use Rattle.std.specs.Float.Ieee.{lt};
ghost use Rattle.elementary.specs.Near.{reach, place_of, angle_rest, angle_near, log_near};

use crate::polynomials::horner;

// Below it a number has a place in the table.
pub const REACH: f64 = 4000000.0; // 414e848000000000

// What is added to y: the octaves of the sum that the table goes by begin with it. 2^-10.
const LEAST: f64 = 0.0009765625; // 3f50000000000000

// (atan t / t - 1) / z in powers of z = t^2: z^3, z^2, z, 1.
const ANGLE: [f64; 4] = [
    0.1109337203975779, // 3fbc6626fd2196aa  near 1/9
    -0.14285703460281474, // bfc24923a9cfb254  near -1/7
    0.1999999999788553, // 3fc99999998df9bf  near 1/5
    -0.3333333333333327, // bfd555555555554a  near -1/3
];

// (ln((1 + s) / (1 - s)) / s - 2) / z in powers of z = s^2: z^3, z^2, z, 1.
const LOG: [f64; 4] = [
    0.22335659254197074, // 3fcc96f2e6282959  near 2/9
    0.285712079562574, // 3fd2491b5172c727  near 2/7
    0.4000000013720597, // 3fd999999b12bfb8  near 2/5
    0.6666666666665334, // 3fe55555555550a5  near 2/3
];

// The row of the table that serves y, from 0 to below REACH.
#[tactic(auto, unfolding(crate::specs::Near::place_of))]
pub fn place(y: f64) -> usize
    requires { T (lt y reach) }
    ensures bound { result < 128 }
    ensures value { result ≡ place_of y }
{
    let b = f64::to_bits(y + LEAST);
    let k = std::num::wrapping_add_u64(b, 0xc0b0_0000_0000_0000) / 0x4_0000_0000_0000 % 128;
    k as usize
}

// atan t - t, for |t| to 1/32.
#[tactic(auto, unfolding(crate::specs::Near::angle_rest))]
pub fn angle_rest(t: f64) -> f64
    ensures { result ≡ angle_rest t }
{
    let z = t * t;
    t * (z * horner(&ANGLE, z))
}

// atan a, a being near p, whose angle is g.
#[tactic(auto, unfolding(crate::specs::Near::angle_near))]
pub fn angle_near(a: f64, p: f64, g: f64) -> f64
    ensures { result ≡ angle_near a p g }
{
    let t = (a - p) / (1.0 + p * a);
    g + (t + angle_rest(t))
}

// ln(1 + y), y being near p^2, and g being ln(1 + p^2).
#[tactic(auto, unfolding(crate::specs::Near::log_near))]
pub fn log_near(y: f64, p: f64, g: f64) -> f64
    ensures { result ≡ log_near y p g }
{
    let q = p * p;
    let r = (y - q) / (1.0 + q);
    let s = r / (2.0 + r);
    let z = s * s;
    g + (r - s * (r - z * horner(&LOG, z)))
}
