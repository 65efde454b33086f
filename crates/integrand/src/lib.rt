// Imhof's (1961) integrand over s = ln u, at sixteen points at once.
#![tactic(auto)]

mod lanes;

ghost use Rattle.std.specs.Prelude.{◌≡◌, map};
ghost use Rattle.integrand.specs.Integrand.{integrand_of};

use lanes::{Lanes, add_weight, exps, largest, one_over_rho, sine_over_rho};

// Each s becomes sin(theta) / rho at u = e^s: theta is half the sum of atan(w u), ln rho a quarter of the sum of ln(1 + (w u)²).
pub fn integrands(weights: &[f64], s: &mut [f64; 16])
    ensures { s.new ≡ map (integrand_of weights.now) s.old }
{
    exps(s);
    let most = largest(s);
    let mut angles: Lanes = [-0.0; 16];
    let mut logs: Lanes = [-0.0; 16];
    for w in weights {
        add_weight(*w, most, s, &mut angles, &mut logs);
    }
    one_over_rho(&mut logs);
    sine_over_rho(&angles, &logs, s);
}
