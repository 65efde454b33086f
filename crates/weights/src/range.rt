// The ends of the range of the integral over s = ln u. Each cut leaves out at most 2.5e-12 of it.
ghost use Rattle.std.specs.Prelude.{◌≡◌, ◌≤◌, length};
ghost use Rattle.floats.specs.Limits.{max_rows};
ghost use Rattle.weights.specs.Range.{half_abs_sum, half_log_prod, two_by_count, low_end, high_end};

use elementary::ln;
use floats::signs::abs;

// A quarter of 1e-11.
const CUT: f64 = 2.5e-12;

fn half_abs_sum(weights: &[f64]) -> f64
    ensures { result ≡ half_abs_sum weights.now }
{
    0.5 * weights.iter().fold(-0.0, |s, w| s + abs(*w))
}

fn half_log_prod(weights: &[f64]) -> f64
    ensures { result ≡ half_log_prod weights.now }
{
    0.5 * weights.iter().fold(-0.0, |s, w| s + ln(abs(*w)))
}

fn two_by_count(weights: &[f64]) -> f64
    requires { length weights.now ≤ max_rows }
    ensures { result ≡ two_by_count weights.now }
{
    2.0 / weights.len() as f64
}

// The integral from 0 to u is at most u times half the sum of the weights' sizes.
pub fn low_end(weights: &[f64]) -> f64
    ensures { result ≡ low_end weights.now }
{
    ln(CUT / half_abs_sum(weights))
}

// The integral from u on is at most (2 / m) u^(-m/2) / prod |w|^(1/2), m the number of weights.
pub fn high_end(weights: &[f64]) -> f64
    requires { length weights.now ≤ max_rows }
    ensures { result ≡ high_end weights.now }
{
    let t = two_by_count(weights);
    t * (ln(t) - ln(CUT) - half_log_prod(weights))
}
