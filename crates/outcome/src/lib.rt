// The answer of the test: what is asked for, document 01's refusals and paths, the result with its marks, and the lengths of
// the lent rooms. The crates below say in their own words what they found; document 01's numbers stand here.
#![tactic(auto)]

ghost use Rattle.std.specs.Prelude.{◌≡◌};
ghost use Rattle.outcome.specs.Codes.{alternative_of, choice_of, code_of, alternative_in, choice_in};
ghost use Rattle.outcome.specs.Result.{path_number, no_law, direct, fallen_back, worked_out, refused_of, accepted_of, wants_exact};

pub mod p;
pub mod refusals;
pub mod rooms;

use eigen::Numbers;
use elementary::NormalLaw;
use floats::tally::Tally;
use imhof::Estimate;

// Of autocorrelation: positive, negative, or either.
#[derive(Clone, Copy, Debug, PartialEq, Eq)]
pub enum Alternative {
    Greater,
    Less,
    TwoSided,
}

// Exact by default below EXACT_BELOW rows, else normal.
#[derive(Clone, Copy, Debug, PartialEq, Eq)]
pub enum Choice {
    Default,
    Exact,
    Normal,
}

// What a sheet is asked once its runs are checked: the statistic, the alternative, and how many rows it has.
#[derive(Clone, Copy)]
pub struct Asked {
    pub statistic: f64,
    pub alternative: Alternative,
    pub rows: usize,
}

// A code that names no alternative, or no choice.
#[derive(Clone, Copy, Debug, PartialEq, Eq)]
pub struct UnknownCode(pub u32);

// How an answer was reached. A refused sheet has no path. The result has its number, as document 01 does: `accepted` takes whatever number it is given.
#[derive(Clone, Copy, Debug, PartialEq, Eq)]
pub enum Path {
    None,
    // Fewer than three rows: p is 1.
    FewRows,
    Imhof,
    Law,
    // The normal path with too few rows for a law: p is 1.
    FewForLaw,
}

// Document 01's number and place of a refusal; 0 and 0 where nothing is refused. Kept as two numbers, which a line prints; the reasons are
// `refusals::TestError`.
#[derive(Clone, Copy, Debug, PartialEq, Eq)]
pub struct Refusal {
    pub number: usize,
    pub place: usize,
}

// What the exact way did: whether it fell back, how many eigenvalues it kept, its work, and whether what it did came to its end.
#[derive(Clone, Copy)]
pub struct Leaving {
    pub fallback: bool,
    pub kept: usize,
    pub work: Tally,
    pub settled: bool,
}

// What the test answers. A refusal holds its number, its place and zeros: `refusal` keeps the two numbers, of which document 01's table and the
// theorems on refusals speak.
#[derive(Clone, Copy)]
pub struct Outcome {
    pub refusal: Refusal,
    pub statistic: f64,
    pub p: f64,
    pub alternative: Alternative,
    pub n: usize,
    // the number of a Path
    pub path: usize,
    // the exact path gave no value, and another answered
    pub fallback: bool,
    // eigenvalues kept
    pub kept: usize,
    pub work: Tally,
    // accepted; no index of the QL step still had a coupling left after its last sweep; and where an integral was needed, the
    // final sum of its errors is small enough
    pub settled: bool,
    // zero where it was not used
    pub law: NormalLaw,
}

// With fewer rows than this nothing is worked out.
pub const LEAST_ROWS: usize = 3;

// The default is exact below so many rows.
pub const EXACT_BELOW: usize = 100;

// The alternative of a code: 0 greater, 1 less, 2 (and any other) two-sided. Kept beside TryFrom, as `choice_of` is: it is total by its promise.
pub fn alternative_of(code: u64) -> Alternative
    ensures { result ≡ alternative_of code }
{
    match code {
        0 => Alternative::Greater,
        1 => Alternative::Less,
        _ => Alternative::TwoSided,
    }
}

// The same of a code that is one of these.
impl TryFrom<u32> for Alternative {
    type Error = UnknownCode;

    ghost try_from_gives = { λ code found. found ≡ alternative_in code };

    fn try_from(code: u32) -> Result<Alternative, UnknownCode> {
        match code {
            0..=2 => Ok(alternative_of(u64::from(code))),
            _ => Err(UnknownCode(code)),
        }
    }
}

// Back to its code.
impl From<Alternative> for u32 {
    ghost from_gives = { λ alternative code. code ≡ code_of alternative };

    fn from(alternative: Alternative) -> u32 {
        match alternative {
            Alternative::Greater => 0,
            Alternative::Less => 1,
            Alternative::TwoSided => 2,
        }
    }
}

// The choice of a code: 0 default, 1 exact, 2 (and any other) normal.
pub fn choice_of(code: u64) -> Choice
    ensures { result ≡ choice_of code }
{
    match code {
        0 => Choice::Default,
        1 => Choice::Exact,
        _ => Choice::Normal,
    }
}

// The same of a code that is one of these.
impl TryFrom<u32> for Choice {
    type Error = UnknownCode;

    ghost try_from_gives = { λ code found. found ≡ choice_in code };

    fn try_from(code: u32) -> Result<Choice, UnknownCode> {
        match code {
            0..=2 => Ok(choice_of(u64::from(code))),
            _ => Err(UnknownCode(code)),
        }
    }
}

// Document 01's number of a path.
impl From<Path> for usize {
    ghost from_gives = { λ path number. number ≡ path_number path };

    fn from(path: Path) -> usize {
        match path {
            Path::None => 0,
            Path::FewRows => 1,
            Path::Imhof => 2,
            Path::Law => 3,
            Path::FewForLaw => 4,
        }
    }
}

// The same as a word of a line.
impl From<Path> for u64 {
    ghost from_gives = { λ path number. number ≡ path_number path };

    fn from(path: Path) -> u64 {
        usize::from(path) as u64
    }
}

pub fn wants_exact(choice: Choice, n: usize) -> bool
    ensures { result ≡ wants_exact choice n }
{
    match choice {
        Choice::Default => n < EXACT_BELOW,
        Choice::Exact => true,
        Choice::Normal => false,
    }
}

// kept as a function: a Default of NormalLaw would say that a law with no spread is the usual one
pub fn no_law() -> NormalLaw
    ensures { result ≡ no_law }
{
    NormalLaw {
        mean: 0.0,
        variance: 0.0,
    }
}

// Where the exact way was not gone.
// kept as a function: the mark is true here, so that no Default derives it
pub fn direct() -> Leaving
    ensures { result ≡ direct }
{
    Leaving {
        fallback: false,
        kept: 0,
        work: Tally::new(),
        settled: true,
    }
}

// Where no weight is left: the sweeps decided that, and no integral was needed.
pub fn fallen_back(s: Numbers) -> Leaving
    ensures { result ≡ fallen_back s }
{
    Leaving {
        fallback: true,
        kept: s.count,
        work: s.work,
        settled: !s.stuck,
    }
}

// With a value: the sweeps and the integral.
pub fn worked_out(s: Numbers, q: Estimate) -> Leaving
    ensures { result ≡ worked_out s q }
{
    let work = Tally {
        sweeps: s.work.sweeps,
        bisections: q.tally.bisections,
        evaluations: q.tally.evaluations,
    };
    Leaving {
        fallback: false,
        kept: s.count,
        work,
        settled: !s.stuck & q.small,
    }
}

pub fn refused(why: Refusal) -> Outcome
    ensures { result ≡ refused_of why }
{
    Outcome {
        refusal: why,
        statistic: 0.0,
        p: 0.0,
        alternative: Alternative::Greater,
        n: 0,
        path: usize::from(Path::None),
        fallback: false,
        kept: 0,
        work: Tally::new(),
        settled: false,
        law: no_law(),
    }
}

// An answer by a path.
pub fn accepted(asked: Asked, p: f64, path: usize, left: Leaving, law: NormalLaw) -> Outcome
    ensures { result ≡ accepted_of asked p path left law }
{
    Outcome {
        refusal: Refusal {
            number: 0,
            place: 0,
        },
        statistic: asked.statistic,
        p,
        alternative: asked.alternative,
        n: asked.rows,
        path,
        fallback: left.fallback,
        kept: left.kept,
        work: left.work,
        settled: left.settled,
        law,
    }
}
