// Replays the sets of measure/imhof/stored: Imhof's probability, and the adaptive step at ends of its own, against the answers of the
// oracle's first build. Prints each set that ends otherwise, and the counts. The comparison with many sets, measure/imhof/compare, asks it too.
// A set is 9 words of 8 bytes, the least byte first: what is asked (0 the probability, 1 the integral between two ends), how many numbers
// follow, MAX_ROWS at most, the statistic or the low end, the high end; then how it must end. Last the numbers: eigenvalues or weights.
#![tactic(auto)]

ghost use Rattle.std.specs.Prelude.{◌+◌, ◌*◌, ◌^◌, ◌<◌, ◌≤◌, length};
ghost use Rattle.floats.specs.Limits.{max_rows};

use floats::bits::{bits_of, float_at, little_endian};
use floats::limits::MAX_ROWS;
use floats::tally::Tally;
use imhof::{Estimate, ExactError, Integral, NotFinite, PART_ROOM};
use std::io::Read;
use std::{fmt, io};

const MOST_SETS: usize = 1_000_000;

// What is answered: a value has the probability before it is clamped and after, or the integral and the summed error, and the work.
#[derive(Clone, Copy)]
enum Answer {
    NoWeight,
    NotFinite,
    Value {
        value: f64,
        beside: f64,
        work: Tally,
    },
}

impl From<Result<Estimate, ExactError>> for Answer {
    fn from(found: Result<Estimate, ExactError>) -> Answer {
        match found {
            Ok(e) => Answer::Value {
                value: e.raw,
                beside: e.probability,
                work: e.tally,
            },
            Err(ExactError::NoWeight) => Answer::NoWeight,
            Err(ExactError::NotFinite) => Answer::NotFinite,
        }
    }
}

impl From<Result<Integral, NotFinite>> for Answer {
    fn from(found: Result<Integral, NotFinite>) -> Answer {
        match found {
            Ok(i) => Answer::Value {
                value: i.value,
                beside: i.error,
                work: i.tally,
            },
            Err(NotFinite) => Answer::NotFinite,
        }
    }
}

// How a set ends, in the words of the input: 0 no weight, 1 not finite or 2 a value; then the value's words, 0 where there is none.
#[derive(Clone, Copy, PartialEq, Eq)]
struct Ending {
    kind: u64,
    value: u64,
    beside: u64,
    bisections: u64,
    evaluations: u64,
}

impl Ending {
    fn without_value(kind: u64) -> Ending {
        Ending {
            kind,
            value: 0,
            beside: 0,
            bisections: 0,
            evaluations: 0,
        }
    }

    // As the set of this head has it.
    fn stored(head: &[u8; 72]) -> Ending {
        Ending {
            kind: little_endian(head, 32, 8),
            value: little_endian(head, 40, 8),
            beside: little_endian(head, 48, 8),
            bisections: little_endian(head, 56, 8),
            evaluations: little_endian(head, 64, 8),
        }
    }
}

impl From<Answer> for Ending {
    fn from(answer: Answer) -> Ending {
        match answer {
            Answer::NoWeight => Ending::without_value(0),
            Answer::NotFinite => Ending::without_value(1),
            Answer::Value {
                value,
                beside,
                work,
            } => Ending {
                kind: 2,
                value: bits_of(value),
                beside: bits_of(beside),
                bisections: work.bisections as u64,
                evaluations: work.evaluations as u64,
            },
        }
    }
}

impl fmt::Display for Ending {
    fn fmt<W: fmt::Write>(&self, f: &mut fmt::Formatter<W>) -> fmt::Result {
        let e = *self;
        write!(
            f,
            "{} {:016x} {:016x} {} {}",
            e.kind, e.value, e.beside, e.bisections, e.evaluations
        )
    }
}

fn answer_to(head: &[u8; 72], numbers: &[f64]) -> Answer
    requires { length numbers.now ≤ max_rows }
{
    let mut parts = [0.0f64; PART_ROOM];
    let from = float_at(head, 16);
    if little_endian(head, 0, 8) == 0 {
        return imhof::prob_below_zero(numbers, from, &mut parts).into();
    }
    imhof::adaptive::integrate(numbers, from, float_at(head, 24), &mut parts).into()
}

fn print_cut(rt: &impl Print) -> io::Result<()> {
    println!(rt; "the input is cut short")
}

// The numbers whose patterns stand in `bytes`. Each program reads its own input: a crate for these lines would be longer.
fn read_numbers(bytes: &[u8], numbers: &mut [f64])
    requires { 8 * length numbers.old ≤ length bytes.now }
{
    for (t, x) in numbers.iter_mut().enumerate() {
        *x = float_at(bytes, 8 * t);
    }
}

// Sets by how they end, where that is as stored, and the others.
#[derive(Clone, Copy, Default)]
struct Score {
    empty: usize,
    broken: usize,
    value: usize,
    wrong: usize,
}

impl Score {
    // One set more: what was answered where that is as stored, else nothing.
    fn count(&mut self, right: Option<Answer>)
        requires { (self.old.empty < 2 ^ 32) × (self.old.broken < 2 ^ 32) × (self.old.value < 2 ^ 32) × (self.old.wrong < 2 ^ 32) }
        ensures { (self.new.empty ≤ self.old.empty + 1) × (self.new.broken ≤ self.old.broken + 1) × (self.new.value ≤ self.old.value + 1) × (self.new.wrong ≤ self.old.wrong + 1) }
    {
        match right {
            Some(Answer::NoWeight) => self.empty += 1,
            Some(Answer::NotFinite) => self.broken += 1,
            Some(Answer::Value { .. }) => self.value += 1,
            None => self.wrong += 1,
        }
    }

    fn print(self, rt: &impl Print, sets: usize) -> io::Result<()> {
        let (empty, broken, value, wrong) = (self.empty, self.broken, self.value, self.wrong);
        print!(rt; "sets: {sets}, without a weight {empty}, not finite {broken}")?;
        println!(rt; ", with a value {value}; not as stored: {wrong}")
    }
}

// What set `i`, whose head was read, is answered, where it ends as stored. The rooms are as long as the set.
fn replay(
    rt: &(impl Input + Print),
    i: usize,
    head: &[u8; 72],
    bytes: &mut [u8],
    numbers: &mut [f64],
) -> io::Result<Option<Answer>>
    requires { (length numbers.old ≤ max_rows) × (8 * length numbers.old ≤ length bytes.old) }
{
    if rt.reader().read_exact(bytes).is_err() {
        print_cut(rt)?;
        return Ok(None);
    }
    read_numbers(bytes, numbers);
    let answer = answer_to(head, numbers);
    let got = Ending::from(answer);
    let want = Ending::stored(head);
    if got == want {
        return Ok(Some(answer));
    }
    println!(rt; "set {i} ends {got}, not {want}")?;
    Ok(None)
}

fn replay_set(rt: &(impl Input + Print), i: usize, head: &[u8; 72]) -> io::Result<Option<Answer>> {
    let count = little_endian(head, 8, 8) as usize;
    if count > MAX_ROWS {
        println!(rt; "a set is too long")?;
        return Ok(None);
    }
    let mut bytes = [0u8; 8 * MAX_ROWS];
    let mut numbers = [0.0f64; MAX_ROWS];
    replay(rt, i, head, &mut bytes[..8 * count], &mut numbers[..count])
}

// The next set's head, if there is one. Where the input ends in the midst of it, it says so.
fn read_head(rt: &(impl Input + Print)) -> io::Result<Option<[u8; 72]>> {
    let mut head = [0u8; 72];
    let mut input = rt.reader();
    if input.read_exact(&mut head[..1]).is_err() {
        return Ok(None);
    }
    if input.read_exact(&mut head[1..]).is_err() {
        print_cut(rt)?;
        return Ok(None);
    }
    Ok(Some(head))
}

fn main(rt: HostRuntime) -> io::Result<()> {
    let mut score = Score::default();
    // a count: i is the set's number, which is printed, and a loop has to end
    for i in 0..MOST_SETS {
        let Some(head) = read_head(&rt)? else {
            return score.print(&rt, i);
        };
        score.count(replay_set(&rt, i, &head)?);
    }
    Ok(())
}
