// The first number of a run that is not finite.
ghost use Rattle.std.specs.Prelude.{◌≡◌};
ghost use Rattle.floats.specs.Search.{first_bad};
ghost use Rattle.floats.specs.Held.{HeldBy};

use super::signs::is_finite;

pub fn first_bad(xs: &[f64]) -> Option<usize>
    ensures value { result ≡ first_bad xs.now }
    ensures held_by { HeldBy result xs.now }
{
    xs.iter().position(|&x| !is_finite(x))
}
