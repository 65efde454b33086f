// Elementary functions and the tails of the normal law, as plain float steps, each rounded once: the
// same bits on every machine. Every function is total, but for near::place, which asks for a y below the reach. Each promise names the list of
// steps that the function is proved equal to; specs/ has the lists, with the method in numbered steps, the
// ranges, the measured error and where the constants come from.
#![tactic(auto)]

mod arctangent;
mod exponential;
mod logarithm;
pub mod near;
mod patterns;
pub mod points;
mod polynomials;
mod sine;
mod tails;

ghost use Rattle.std.specs.Prelude.{◌≡◌};
ghost use Rattle.elementary.specs.Exp.{exp_of};
ghost use Rattle.elementary.specs.Ln.{ln_of, ln1p_by, ln1p_of};
ghost use Rattle.elementary.specs.Atan.{atan_by, atan_of};
ghost use Rattle.elementary.specs.Sin.{sin_of};
ghost use Rattle.elementary.specs.Tails.{lower_tail, upper_tail};

use arctangent::atan_size;
use exponential::{exp_reduced, scaled};
use floats::bits::bits_of;
use logarithm::{ln_normal, ln_rest};
use near::{log_near, place};
use points::POINTS;
use roots::sqrt;
use sine::sin_reduced;
use tails::tail_beyond;

// e^x, by k nearest to x / ln 2, e^(x - k ln 2) by Taylor's polynomial, and 2^k in two factors.
// +infinity above 709.782712893384, +0 below -745.1332191019412, NaN at a NaN. Error found: 0.710
// ulp at most, 0.803 where the result is subnormal. The value comes before the tests of the range, so
// that a loop of it has no branch.
#[tactic(auto, unfolding(crate::specs::Exp::exp_of))]
pub fn exp(x: f64) -> f64
    ensures { result ≡ exp_of x }
{
    let t = x * exponential::PER_LN_2 + exponential::SHIFT;
    let y = scaled(exp_reduced(x, t - exponential::SHIFT), bits_of(t) % 4096);
    let above = if t > exponential::GREATEST {
        f64::INFINITY
    } else {
        y
    };
    if t < exponential::LEAST { 0.0 } else { above }
}

// ln x, by x = 2^k (1 + f) with f near 0, the series in f / (2 + f), and k ln 2 in two parts.
// -infinity at both zeros, +infinity at +infinity, NaN below 0 and at a NaN. Error found: 0.886 ulp
// at most.
#[tactic(auto, unfolding(crate::specs::Ln::ln_of))]
pub fn ln(x: f64) -> f64
    ensures { result ≡ ln_of x }
{
    if x >= f64::MIN_POSITIVE {
        if x <= f64::MAX {
            return ln_normal(x, 1023.0, 0.0);
        }
        return x;
    }
    if x > 0.0 {
        return ln_normal(x * 18014398509481984.0, 1077.0, 0.0);
    }
    if x == 0.0 {
        return f64::NEG_INFINITY;
    }
    f64::NAN
}

// ln(1 + x). From 0 to below 4000000 by the table that it shares with atan; below 0 by the series of ln
// at f = x where x is near 0; else by ln w + d / w, with w = 1 + x and d what w lost. -0 at -0, -infinity at
// -1, +infinity at +infinity, NaN below -1 and at a NaN. Error found: 0.766 ulp at most from 0 up, 0.884
// below.
#[tactic(auto, unfolding(crate::specs::Ln::ln1p_of, crate::specs::Points::points))]
pub fn ln_1p(x: f64) -> f64
    ensures { result ≡ ln1p_of x }
{
    ln_1p_by(&POINTS, x)
}

// The same with the table lent. Kept beside ln_1p, as atan_by beside atan: docs name the four, and each pair shares its steps.
#[tactic(auto, unfolding(crate::specs::Ln::ln1p_by))]
pub fn ln_1p_by(points: &[f64; 384], x: f64) -> f64
    ensures { result ≡ ln1p_by points.now x }
{
    if x >= 0.0 {
        if x < near::REACH {
            let i = place(x);
            return log_near(x, points[i], points[256 + i]);
        }
        if x <= f64::MAX {
            let w = 1.0 + x;
            return ln_normal(w, 1023.0, (1.0 - (w - x)) / w);
        }
        return x;
    }
    if x > logarithm::F_LEAST {
        return x - ln_rest(x, 0.0);
    }
    if x > -1.0 {
        let w = 1.0 + x;
        return ln_normal(w, 1023.0, (x - (w - 1.0)) / w);
    }
    if x == -1.0 {
        return f64::NEG_INFINITY;
    }
    f64::NAN
}

// The angle from -pi/2 to pi/2 whose tangent is x: turned back by the angle of the table's nearest point,
// or beyond 2000 in size of infinity, then an odd polynomial. -0 at -0, NaN at a NaN. Error found: 0.750
// ulp at most.
#[tactic(auto, unfolding(crate::specs::Atan::atan_of, crate::specs::Points::points))]
pub fn atan(x: f64) -> f64
    ensures { result ≡ atan_of x }
{
    atan_by(&POINTS, x)
}

// The same with the table lent.
#[tactic(auto, unfolding(crate::specs::Atan::atan_by))]
pub fn atan_by(points: &[f64; 384], x: f64) -> f64
    ensures { result ≡ atan_by points.now x }
{
    if floats::signs::is_minus(x) {
        return -atan_size(points, -x);
    }
    atan_size(points, x)
}

// The sine of x: quarter turns taken off with pi/2 in four parts, then Taylor's polynomials. -0 at -0.
// NaN beyond 1647099 in size, where the reduction ends, and at a NaN. Error found: 0.790
// ulp at most to 256, 0.810 beyond.
#[tactic(auto, unfolding(crate::specs::Sin::sin_of))]
pub fn sin(x: f64) -> f64
    ensures { result ≡ sin_of x }
{
    let y = sin_reduced(x);
    let below = if x < -sine::FURTHEST { f64::NAN } else { y };
    if x > sine::FURTHEST { f64::NAN } else { below }
}

// The normal law with this mean and this variance.
#[derive(Clone, Copy)]
pub struct NormalLaw {
    pub mean: f64,
    pub variance: f64,
}

// The chance that the law gives a number up to x. Within 3e-16; in 0 .. 1 for a finite mean, a
// finite variance above 0 and an x that is no NaN (specs/Bounds.antt). NaN where one of them is a NaN,
// and for a variance below 0.
#[tactic(auto, unfolding(crate::specs::Tails::lower_tail))]
pub fn lower_tail(law: NormalLaw, x: f64) -> f64
    ensures { result ≡ lower_tail law x }
{
    tail_beyond(-((x - law.mean) / sqrt(law.variance)))
}

// The chance that the law gives a number beyond x. The same holds. Kept beside lower_tail, and both no methods: docs name the two.
#[tactic(auto, unfolding(crate::specs::Tails::upper_tail))]
pub fn upper_tail(law: NormalLaw, x: f64) -> f64
    ensures { result ≡ upper_tail law x }
{
    tail_beyond((x - law.mean) / sqrt(law.variance))
}
