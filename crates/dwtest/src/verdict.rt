// What the statistic decides from the eigenvalues, and from the law where that is due.
ghost use Rattle.std.specs.Prelude.{◌≡◌, ◌≤◌, length, take, drop};
ghost use Rattle.floats.specs.Limits.{max_rows};
ghost use Rattle.imhof.specs.Imhof.{imhof_of};
ghost use Rattle.imhof.specs.Room.{PartRoom};
ghost use Rattle.outcome.specs.Rooms.{part_room};
ghost use Rattle.dwtest.specs.Verdict.{said_in, to_law, by_law, by_imhof, by_spectrum, kept_in, Counted};

use design::LEAST_FOR_LAW;
use eigen::{Numbers, SpectrumError};
use elementary::NormalLaw;
use imhof::{Estimate, ExactError};
use outcome::p::{exact_p, normal_p};
use outcome::refusals::{Stage, TestError};
use outcome::{Asked, Leaving, Outcome, Path, accepted, fallen_back, no_law, worked_out};

// What is said before any law is worked out: an answer, or that the law is due, with what the exact way leaves to it.
// kept as an enum of its own: the test goes on from both, so neither is an error or an absence
#[derive(Clone, Copy)]
pub enum Said {
    Answered(Outcome),
    LawDue(Leaving),
}

// The law is due, unless there are too few rows for one.
pub fn to_law(asked: Asked, left: Leaving) -> Said
    ensures { result ≡ to_law asked left }
{
    if asked.rows < LEAST_FOR_LAW {
        return Said::Answered(accepted(asked, 1.0, Path::FewForLaw.into(), left, no_law()));
    }
    Said::LawDue(left)
}

// The answer by a law that serves.
pub fn by_law(law: NormalLaw, asked: Asked, left: Leaving) -> Outcome
    ensures { result ≡ by_law (Ok law) asked left }
{
    let p = normal_p(law, asked.statistic, asked.alternative);
    accepted(asked, p, Path::Law.into(), left, law)
}

// From Imhof's probability. `s` is how many eigenvalues are kept and what they took.
fn by_imhof(
    found: Result<Estimate, ExactError>,
    s: Numbers,
    asked: Asked,
) -> Result<Said, TestError>
    ensures { said_in result ≡ by_imhof found s asked }
{
    match found {
        Ok(q) => {
            let p = exact_p(q.probability, asked.alternative);
            let left = worked_out(s, q);
            Ok(Said::Answered(accepted(asked, p, Path::Imhof.into(), left, no_law())))
        }
        Err(ExactError::NoWeight) => Ok(to_law(asked, fallen_back(s))),
        Err(ExactError::NotFinite) => Err(TestError::NotFinite(Stage::Integral)),
    }
}

// Imhof's probability for the first `count` numbers of `kept`.
fn probability(
    kept: &[f64],
    count: usize,
    d: f64,
    parts: &mut [f64],
) -> Result<Estimate, ExactError>
    requires { (count ≤ length kept.now) × (count ≤ max_rows) × (PartRoom parts.old) }
    ensures value { result ≡ (imhof_of (take count kept.now) d).answer }
    ensures parts_unchanged { drop part_room parts.new ≡ drop part_room parts.old }
{
    imhof::prob_below_zero(&kept[..count], d, parts)
}

// From the eigenvalues, which stand at the front of `kept`. Of the part room only its first PART_ROOM numbers change.
pub fn by_spectrum(
    found: Result<Numbers, SpectrumError>,
    kept: &[f64],
    asked: Asked,
    parts: &mut [f64],
) -> Result<Said, TestError>
    requires { (Counted found kept.now) × (PartRoom parts.old) }
    ensures value { said_in result ≡ by_spectrum found (kept_in found kept.now) asked }
    ensures parts_unchanged { drop part_room parts.new ≡ drop part_room parts.old }
{
    let s = found?;
    by_imhof(probability(kept, s.count, asked.statistic, parts), s, asked)
}
