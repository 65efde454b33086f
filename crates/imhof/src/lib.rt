// Imhof's (1961) probability that a quadratic form in normal variables is below zero, by adaptive
// Gauss-Kronrod quadrature: from the eigenvalues and the statistic to the exact lower tail.
#![tactic(auto)]

ghost use Rattle.std.specs.Prelude.{◌≡◌, true, ◌≤◌, length};
ghost use Rattle.floats.specs.Limits.{max_rows};
ghost use Rattle.floats.specs.Count.{no_work};
ghost use Rattle.imhof.specs.Imhof.{imhof_of, outcome_by, estimate_by, estimate_of};
ghost use Rattle.imhof.specs.declared.ExactError.TheVariants.{NotFinite};
ghost use Rattle.imhof.specs.Parts.{finite_part};
ghost use Rattle.weights.specs.Weights.{signs_of};
ghost use Rattle.imhof.specs.Room.{PartRoom, laid_out};

use floats::limits::MAX_ROWS;
use floats::signs::is_finite;
use floats::tally::Tally;

pub mod adaptive;
mod room;
pub mod rule;

// The quadrature stops after so many bisections.
pub const MOST_BISECTIONS: usize = 2_000;

// Each bisection makes one part more.
pub const MOST_PARTS: usize = MOST_BISECTIONS + 1;

// The part room's length: four numbers for each part.
pub const PART_ROOM: usize = 4 * MOST_PARTS;

// A part of the range: its ends, its integral by Kronrod's rule, and the distance from Gauss's.
#[derive(Clone, Copy, Default)]
pub struct Part {
    pub lo: f64,
    pub hi: f64,
    pub value: f64,
    pub error: f64,
}

impl Part {
    // Whether its value and its error estimate are finite.
    pub fn is_finite(self) -> bool
        ensures { result ≡ finite_part self }
    {
        is_finite(self.value) && is_finite(self.error)
    }
}

// Whether another bisection may follow, the errors are small enough, or a number was not finite. Three plain cases, of which the theorems on stages speak: no Option or Result.
#[derive(Clone, Copy)]
pub enum Standing {
    Open,
    Settled,
    Refused,
}

// The sums of the parts' values and of their errors, first to last, and the work.
#[derive(Clone, Copy)]
pub struct Integral {
    pub value: f64,
    pub error: f64,
    pub tally: Tally,
}

// A number was not finite on the way: an end of the range, or a part's value or error estimate.
#[derive(Clone, Copy, Debug, PartialEq, Eq)]
pub struct NotFinite;

// A probability as it came out, the same clamped to [0, 1], the work it took, and whether the final error sum is small enough:
// yes where no integral was needed. A mark and no Result: the value stands either way.
#[derive(Clone, Copy)]
pub struct Estimate {
    pub raw: f64,
    pub probability: f64,
    pub tally: Tally,
    // a mark: the estimate beside it is there either way
    pub small: bool,
}

// Why there is no exact value.
#[derive(Clone, Copy, Debug, PartialEq, Eq)]
pub enum ExactError {
    // Each eigenvalue equals the statistic.
    NoWeight,
    // An end of the range, or a part's value or error estimate, is not finite.
    NotFinite,
}

impl From<NotFinite> for ExactError {
    ghost from_gives = { λ _ e. e ≡ NotFinite };

    fn from(_e: NotFinite) -> ExactError {
        ExactError::NotFinite
    }
}

// The estimate whose probability came out as raw.
fn clamped(raw: f64, tally: Tally, small: bool) -> Estimate
    ensures { result ≡ estimate_of raw tally small }
{
    Estimate {
        raw,
        probability: raw.clamp(0.0, 1.0),
        tally,
        small,
    }
}

// A probability that took no work.
fn certain(p: f64) -> Estimate
    ensures { result ≡ estimate_of p no_work true }
{
    clamped(p, Tally::new(), true)
}

// 1/2 - integral / pi.
fn from_integral(i: Integral) -> Estimate
    ensures { result ≡ estimate_by i }
{
    clamped(
        0.5 - i.value / 3.141592653589793,
        i.tally,
        adaptive::is_small(i),
    )
}

// The probability for given weights, none of them 0. Takes the bare slice, which over_range wants as its callers lend it.
#[tactic(auto, using(crate::proofs::HeldLaws::laid_none))]
fn below_zero(weights: &[f64], parts: &mut [f64]) -> Result<Estimate, ExactError>
    requires { (length weights.now ≤ max_rows) × PartRoom parts.old }
    ensures value { result ≡ (outcome_by (signs_of weights.now) weights.now).answer }
    ensures parts_after { parts.new ≡ laid_out (outcome_by (signs_of weights.now) weights.now).parts parts.old }
{
    if weights.is_empty() {
        return Err(ExactError::NoWeight);
    }
    if weights::all_above(weights) {
        return Ok(certain(0.0));
    }
    if weights::all_below(weights) {
        return Ok(certain(1.0));
    }
    Ok(from_integral(adaptive::over_range(weights, parts)?))
}

// P(sum of (eigenvalue - d) z² < 0) for independent standard normal z: the lower tail of the statistic at d.
// `parts` is the part room, at least PART_ROOM numbers; it keeps the parts of the last stage.
pub fn prob_below_zero(
    eigenvalues: &[f64],
    d: f64,
    parts: &mut [f64],
) -> Result<Estimate, ExactError>
    requires { (length eigenvalues.now ≤ max_rows) × PartRoom parts.old }
    ensures value { result ≡ (imhof_of eigenvalues.now d).answer }
    ensures parts_after { parts.new ≡ laid_out (imhof_of eigenvalues.now d).parts parts.old }
{
    let mut weights = [0.0f64; MAX_ROWS];
    let m = weights::shift(eigenvalues, d, &mut weights);
    below_zero(&weights[..m], parts)
}
