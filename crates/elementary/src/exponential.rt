// The steps of exp (specs/Exp.antt has the method), and its constants.
ghost use Rattle.std.specs.Prelude.{◌≡◌};
ghost use Rattle.elementary.specs.Exp.{exp_reduced, scaled};

use crate::patterns::two_to;
use crate::polynomials::horner;

// ln 2 in two parts.
pub const LN_2_FIRST: f64 = 0.6931471805592082; // 3fe62e42fefa2000  its first 40 digits

pub const LN_2_REST: f64 = 7.371002565167799e-13; // 3d69ef35793c7673  the rest

// Taylor's coefficients.
const EXP: [f64; 12] = [
    1.6059043836821613e-10, // 3de6124613a86d09  1/13!
    2.08767569878681e-09, // 3e21eed8eff8d898  1/12!
    2.505210838544172e-08, // 3e5ae64567f544e4  1/11!
    2.755731922398589e-07, // 3e927e4fb7789f5c  1/10!
    2.7557319223985893e-06, // 3ec71de3a556c734  1/9!
    2.48015873015873e-05, // 3efa01a01a01a01a  1/8!
    0.0001984126984126984, // 3f2a01a01a01a01a  1/7!
    0.001388888888888889, // 3f56c16c16c16c17  1/6!
    0.008333333333333333, // 3f81111111111111  1/5!
    0.041666666666666664, // 3fa5555555555555  1/4!
    0.16666666666666666, // 3fc5555555555555  1/3!
    0.5, // 3fe0000000000000  1/2!
];

// 1 / ln 2, and what is added so that the last digits of the sum are k + 2046.
pub const PER_LN_2: f64 = 1.4426950408889634; // 3ff71547652b82fe

pub const SHIFT: f64 = 6755399441057790.0; // 43380000000007fe

// That sum at k = -1146 and at k = 1034.
pub const LEAST: f64 = 6755399441056644.0; // 4338000000000384

pub const GREATEST: f64 = 6755399441058824.0; // 4338000000000c08

// e^(x - k ln 2)
pub fn exp_reduced(x: f64, k: f64) -> f64
    ensures { result ≡ exp_reduced x k }
{
    let hi = x - k * LN_2_FIRST;
    let lo = k * LN_2_REST;
    let r = hi - lo;
    let c = (hi - r) - lo;
    let y = 1.0 + r;
    y + ((r - (y - 1.0)) + (r * r * horner(&EXP, r) + c))
}

// y 2^(j - 2046), rounded once: the first product is exact.
pub fn scaled(y: f64, j: u64) -> f64
    ensures { result ≡ scaled y j }
{
    y * two_to(j / 2) * two_to(j - j / 2)
}
