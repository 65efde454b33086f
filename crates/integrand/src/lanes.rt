// The steps of the integrand at sixteen points at once. The points are the lanes, and the compiler takes two of them to an instruction where a loop has no branch and
// no early return. Each point has its own sums, weights first to last.
ghost use Rattle.std.specs.Prelude.{◌≡◌, cond, ℕ, ◌<◌, T};
ghost use Rattle.std.specs.Float.Ieee.{lt, neg};
ghost use Rattle.floats.specs.Words.{◌‼◌, ◌⊗◌, square_of};
ghost use Rattle.floats.specs.Tables.{table};
ghost use Rattle.elementary.specs.Atan.{atan_of};
ghost use Rattle.elementary.specs.Exp.{exp_of};
ghost use Rattle.elementary.specs.Ln.{ln1p_of};
ghost use Rattle.elementary.specs.Near.{reach, angle_by, log_by};
ghost use Rattle.elementary.specs.Points.{points};
ghost use Rattle.elementary.specs.Sin.{sin_of};
ghost use Rattle.integrand.specs.Integrand.{quarter};
ghost use Rattle.integrand.specs.Lanes.{added_to, Upto};
ghost use Rattle.elementary.specs.Patterns.{half};

use elementary::near;
use elementary::points::POINTS;

// A number for each of the sixteen points.
pub type Lanes = [f64; 16];

// r, or -r of a weight below 0.
fn signed(minus: bool, r: f64) -> f64
    ensures { result ≡ cond minus (neg r) r }
{
    if minus { -r } else { r }
}

// Adds the terms of a weight of size a at sixteen u, each of them near a point of the table; the angles of a weight below 0 are taken off. No branch: this
// is the loop that nearly all of an integral is spent in.
fn add_near(a: f64, minus: bool, u: &Lanes, angles: &mut Lanes, logs: &mut Lanes)
    requires { (j : ℕ) → j < 16 → T (lt (square_of (a ⊗ u.now ‼ j)) reach) }
    ensures angles_after { angles.new ≡ added_to (λ x. cond minus (neg (angle_by points (a ⊗ x))) (angle_by points (a ⊗ x))) u.now angles.old }
    ensures logs_after { logs.new ≡ added_to (λ x. log_by points (square_of (a ⊗ x))) u.now logs.old }
{
    // both sums by their place: at zip over iter_mut a proof knows no element
    for (j, u) in u.iter().enumerate() {
        let x = a * *u;
        let y = x * x;
        let i = near::place(y);
        angles[j] = angles[j] + signed(minus, near::angle_near(x, POINTS[i], POINTS[128 + i]));
        logs[j] = logs[j] + near::log_near(y, POINTS[i], POINTS[256 + i]);
    }
}

// Adds the terms of any weight w, one u after another. Kept beside add_near: that one has no branch, and asks that each u is near a point.
fn add_any(w: f64, u: &Lanes, angles: &mut Lanes, logs: &mut Lanes)
    ensures angles_after { angles.new ≡ added_to (λ x. atan_of (w ⊗ x)) u.now angles.old }
    ensures logs_after { logs.new ≡ added_to (λ x. ln1p_of (square_of (w ⊗ x))) u.now logs.old }
{
    // as in add_near
    for (j, u) in u.iter().enumerate() {
        let x = w * *u;
        angles[j] = angles[j] + elementary::atan(x);
        logs[j] = logs[j] + elementary::ln_1p(x * x);
    }
}

// The largest of sixteen numbers; NaN where one is not above 0.
pub fn largest(u: &Lanes) -> f64
    ensures { Upto u.now result }
{
    let mut most = 0.0f64;
    for x in u {
        if !(*x > 0.0) {
            return f64::NAN;
        }
        if most < *x {
            most = *x;
        }
    }
    most
}

// Adds the terms of the weight w. Where its product with the largest u is near a point of the table, so is that with every other. The sign is asked here, so that
// each sign has a loop of its own.
pub fn add_weight(w: f64, most: f64, u: &Lanes, angles: &mut Lanes, logs: &mut Lanes)
    requires { Upto u.now most }
    ensures angles_after { angles.new ≡ added_to (λ x. atan_of (w ⊗ x)) u.now angles.old }
    ensures logs_after { logs.new ≡ added_to (λ x. ln1p_of (square_of (w ⊗ x))) u.now logs.old }
{
    let x = w * most;
    if x * x < near::REACH {
        if floats::signs::is_minus(w) {
            add_near(-w, true, u, angles, logs);
        } else {
            add_near(w, false, u, angles, logs);
        }
    } else {
        add_any(w, u, angles, logs);
    }
}

// e^x for each x.
pub fn exps(xs: &mut Lanes)
    ensures { xs.new ≡ table (λ j. exp_of (xs.old ‼ j)) 16 }
{
    for x in xs.iter_mut() {
        *x = elementary::exp(*x);
    }
}

// Each sum of logarithms becomes 1 / rho, e^(-1/4 of it).
pub fn one_over_rho(logs: &mut Lanes)
    ensures { logs.new ≡ table (λ j. exp_of (neg (quarter ⊗ logs.old ‼ j))) 16 }
{
    for x in logs.iter_mut() {
        *x = -(0.25 * *x);
    }
    exps(logs);
}

// sin(theta) / rho of each sum of angles and the factor 1 / rho beside it.
pub fn sine_over_rho(angles: &Lanes, factors: &Lanes, s: &mut Lanes)
    ensures { s.new ≡ table (λ j. sin_of (half ⊗ angles.now ‼ j) ⊗ factors.now ‼ j) 16 }
{
    for (j, x) in s.iter_mut().enumerate() {
        *x = elementary::sin(0.5 * angles[j]) * factors[j];
    }
}
