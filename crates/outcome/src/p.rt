// p by an alternative: from the lower tail that Imhof's probability is, and from the tails of a normal law.
ghost use Rattle.std.specs.Prelude.{◌≡◌};
ghost use Rattle.outcome.specs.P.{smaller, exact_p, normal_p};

use super::Alternative;
use elementary::{NormalLaw, lower_tail, upper_tail};
use floats::signs::abs;

// kept beside f64::min, which gives the other number where one is NaN: exact_p says this for every pattern
fn min(x: f64, y: f64) -> f64
    ensures { result ≡ smaller x y }
{
    if y < x { y } else { x }
}

// From the lower tail q.
pub fn exact_p(q: f64, alternative: Alternative) -> f64
    ensures { result ≡ exact_p q alternative }
{
    match alternative {
        Alternative::Greater => q,
        Alternative::Less => 1.0 - q,
        Alternative::TwoSided => 2.0 * min(q, 1.0 - q),
    }
}

// By the normal law.
pub fn normal_p(law: NormalLaw, statistic: f64, alternative: Alternative) -> f64
    ensures { result ≡ normal_p law statistic alternative }
{
    match alternative {
        Alternative::Greater => lower_tail(law, statistic),
        Alternative::Less => upper_tail(law, statistic),
        Alternative::TwoSided => 2.0 * upper_tail(law, law.mean + abs(statistic - law.mean)),
    }
}
