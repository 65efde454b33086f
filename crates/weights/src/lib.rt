// The weights of Imhof's (1961) quadratic form, their signs, and the ends of the range of its integral.
#![tactic(auto)]

ghost use Rattle.std.specs.Prelude.{◌≡◌, ◌++◌, ◌≤◌, length, drop};
ghost use Rattle.weights.specs.Weights.{weights_of, all_above, all_below};

pub mod range;

// The eigenvalues less the statistic, zeros left out, from the front of `weights` on; how many there are.
pub fn shift(eigenvalues: &[f64], d: f64, weights: &mut [f64]) -> usize
    requires { length eigenvalues.now ≤ length weights.old }
    ensures count { result ≡ length (weights_of eigenvalues.now d) }
    ensures weights_after { weights.new ≡ weights_of eigenvalues.now d ++ drop (length (weights_of eigenvalues.now d)) weights.old }
{
    // stored by the place m: at zip over iter_mut a proof knows no element
    let mut m = 0;
    for x in eigenvalues {
        let w = *x - d;
        if w != 0.0 {
            weights[m] = w;
            m += 1;
        }
    }
    m
}

// Whether every weight is above 0.
pub fn all_above(weights: &[f64]) -> bool
    ensures { result ≡ all_above weights.now }
{
    weights.iter().all(|w| *w > 0.0)
}

// Whether every weight is below 0.
pub fn all_below(weights: &[f64]) -> bool
    ensures { result ≡ all_below weights.now }
{
    weights.iter().all(|w| *w < 0.0)
}
