// Adaptive quadrature over the part room: the part of greatest error is bisected until the summed error is small enough.
ghost use Rattle.std.specs.Prelude.{◌≡◌, ◌<◌, ◌≤◌, ◌+◌, ◌*◌, ◌^◌, length};
ghost use Rattle.floats.specs.Limits.{max_rows};
ghost use Rattle.floats.specs.Count.{no_work, one_bisection};
ghost use Rattle.floats.specs.Turns.{turns};
ghost use Rattle.floats.specs.declared.tally.Tally.{Tally};
ghost use Rattle.imhof.specs.Imhof.{integral_of, small_sum, quadrature_of, last_stage};
ghost use Rattle.imhof.specs.Integrand.{integrand_of};
ghost use Rattle.imhof.specs.Parts.{most_bisections, most_parts, one_rule, stage, next_stage, stage_after};
ghost use Rattle.imhof.specs.Room.{PartRoom, parts_in, laid_out};
ghost use Rattle.imhof.specs.Rule.{rule_size};
ghost use Rattle.imhof.specs.declared.Standing.TheVariants.{Open};

use super::room::Parts;
use super::rule::{RULE_SIZE, bisect, gk15};
use super::{Integral, MOST_BISECTIONS, NotFinite, Standing};
use floats::signs::is_finite;
use floats::tally::Tally;

// Half of 1e-11: the cuts of the range and the quadrature share it.
pub const TOLERANCE: f64 = 5e-12;

impl<'a> Parts<'a> {
    // One turn: if the summed error is at most the tolerance the parts are settled, else the one of greatest error is bisected.
    // Where a half's value or error is not finite they stay as they were. How they stand does not depend on the tally t.
    fn advance(&mut self, weights: &[f64]) -> Standing
        requires { self.old.n < most_parts }
        ensures same_room { self.new.room.ghost_name ≡ self.old.room.ghost_name }
        ensures value { (t : Tally) → result ≡ (next_stage (integrand_of weights.now) (stage (parts_in self.old.n self.old.room.now) t Open)).standing }
        ensures count { (t : Tally) → self.new.n ≡ length (next_stage (integrand_of weights.now) (stage (parts_in self.old.n self.old.room.now) t Open)).parts }
        ensures room_after { (t : Tally) → self.new.room.now ≡ laid_out (next_stage (integrand_of weights.now) (stage (parts_in self.old.n self.old.room.now) t Open)).parts self.old.room.now }
    {
        if self.error_sum() <= TOLERANCE {
            return Standing::Settled;
        }
        let w = self.worst();
        let h = bisect(weights, self.part_at(w));
        if !h.are_finite() {
            return Standing::Refused;
        }
        self.replace(w, h.left, h.right);
        Standing::Open
    }

    // What they add up to.
    fn total(&self, tally: Tally) -> Integral
        ensures { result ≡ integral_of (stage (parts_in self.now.n self.now.room.now) tally Open) }
    {
        Integral {
            value: self.value_sum(),
            error: self.error_sum(),
            tally,
        }
    }
}

// One turn over the first n parts of a lent slice: kept beside the method, since it is public and promises this of a bare slice.
pub fn advance(weights: &[f64], parts: &mut [f64], n: usize) -> Standing
    requires { (0 < n) × (n < most_parts) × PartRoom parts.old }
    ensures value { (t : Tally) → result ≡ (next_stage (integrand_of weights.now) (stage (parts_in n parts.old) t Open)).standing }
    ensures parts_after { (t : Tally) → parts.new ≡ laid_out (next_stage (integrand_of weights.now) (stage (parts_in n parts.old) t Open)).parts parts.old }
{
    Parts { room: parts, n }.advance(weights)
}

// The tally after one more bisection: a rule for each half.
pub fn with_bisection(tally: Tally) -> Tally
    requires { (tally.bisections + 1 < 2 ^ 64) × (tally.evaluations + 2 * rule_size < 2 ^ 64) }
    ensures { result ≡ one_rule (one_rule (one_bisection tally)) }
{
    tally.bisected().evaluated(RULE_SIZE).evaluated(RULE_SIZE)
}

// Whether the summed error is at most the tolerance. The turns ask it before each bisection; the last sum, which the most bisections may leave unasked, is asked by this.
pub fn is_small(i: Integral) -> bool
    ensures { result ≡ small_sum i }
{
    i.error <= TOLERANCE
}

// The integral from lo to hi: one part, then at most MOST_BISECTIONS turns.
pub fn integrate(
    weights: &[f64],
    lo: f64,
    hi: f64,
    parts: &mut [f64],
) -> Result<Integral, NotFinite>
    requires { PartRoom parts.old }
    ensures value { result ≡ quadrature_of (stage_after most_bisections (integrand_of weights.now) lo hi) }
    ensures parts_after { parts.new ≡ laid_out (stage_after most_bisections (integrand_of weights.now) lo hi).parts parts.old }
{
    let whole = gk15(weights, lo, hi);
    if !whole.is_finite() {
        return Err(NotFinite);
    }
    let mut held = Parts { room: parts, n: 1 };
    held.put(0, whole);
    let mut tally = Tally::new().evaluated(RULE_SIZE);
    for _ in 0..MOST_BISECTIONS {
        match held.advance(weights) {
            Standing::Open => tally = with_bisection(tally),
            Standing::Settled => return Ok(held.total(tally)),
            Standing::Refused => return Err(NotFinite),
        }
    }
    Ok(held.total(tally))
}

// The integral over the weights' own range.
#[tactic(auto, using(crate::proofs::HeldLaws::laid_none))]
pub fn over_range(weights: &[f64], parts: &mut [f64]) -> Result<Integral, NotFinite>
    requires { (length weights.now ≤ max_rows) × PartRoom parts.old }
    ensures value { result ≡ quadrature_of (last_stage weights.now) }
    ensures parts_after { parts.new ≡ laid_out (last_stage weights.now).parts parts.old }
{
    let lo = weights::range::low_end(weights);
    let hi = weights::range::high_end(weights);
    if is_finite(lo) && is_finite(hi) {
        return integrate(weights, lo, hi, parts);
    }
    Err(NotFinite)
}
