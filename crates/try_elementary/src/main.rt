// Replays the stored vectors of measure/elementary/vectors.sh: answers within the functions' measured errors of the truth, and edges to
// the bit. Prints what fails, and the counts. The input is words of 8 bytes, the least byte first: how many vectors each of the seven
// functions has, then function by function its vectors: the arguments, and the least and the greatest answer allowed.
#![tactic(auto)]

ghost use Rattle.std.specs.Prelude.{◌+◌, ◌*◌, ◌^◌, ◌<◌, ◌≤◌, IfOk};

use elementary::NormalLaw;
use floats::bits::{bits_of, of_bits};
use std::io::Read;
use std::{fmt, io};

// No more of the input is read.
const MOST_BYTES: u64 = 65_536;

// A word of the input.
type Word = [u8; 8];

// Word k, and 0 past the end.
fn word(words: &[Word], k: usize) -> u64 {
    words.get(k).map_or(0, |w| u64::from_le_bytes(*w))
}

#[derive(Clone, Copy)]
enum Function {
    Exp,
    Ln,
    Ln1p,
    Atan,
    Sin,
    LowerTail,
    UpperTail,
}

// All of them, in the order of the input.
const FUNCTIONS: [Function; 7] = [
    Function::Exp,
    Function::Ln,
    Function::Ln1p,
    Function::Atan,
    Function::Sin,
    Function::LowerTail,
    Function::UpperTail,
];

impl fmt::Display for Function {
    fn fmt<W: fmt::Write>(&self, f: &mut fmt::Formatter<W>) -> fmt::Result {
        f.write_str(match self {
            Function::Exp => "exp",
            Function::Ln => "ln",
            Function::Ln1p => "ln_1p",
            Function::Atan => "atan",
            Function::Sin => "sin",
            Function::LowerTail => "lower_tail",
            Function::UpperTail => "upper_tail",
        })
    }
}

impl Function {
    // How many arguments it has: a tail the mean, the variance and the point.
    fn arguments(self) -> usize
        ensures { (1 ≤ result) × (result ≤ 3) }
    {
        match self {
            Function::LowerTail | Function::UpperTail => 3,
            _ => 1,
        }
    }

    // The answer to the arguments from word k on.
    fn answer(self, words: &[Word], k: usize) -> f64
        requires { k < 2 ^ 32 }
    {
        let x = of_bits(word(words, k));
        let law = NormalLaw {
            mean: x,
            variance: of_bits(word(words, k + 1)),
        };
        let point = of_bits(word(words, k + 2));
        match self {
            Function::Exp => elementary::exp(x),
            Function::Ln => elementary::ln(x),
            Function::Ln1p => elementary::ln_1p(x),
            Function::Atan => elementary::atan(x),
            Function::Sin => elementary::sin(x),
            Function::LowerTail => elementary::lower_tail(law, point),
            Function::UpperTail => elementary::upper_tail(law, point),
        }
    }
}

// A vector: the bits of the last argument, the answer, and the bits of the least and the greatest answer allowed.
#[derive(Clone, Copy)]
struct Vector {
    function: Function,
    x: u64,
    got: f64,
    least: u64,
    greatest: u64,
}

impl fmt::Display for Vector {
    fn fmt<W: fmt::Write>(&self, f: &mut fmt::Formatter<W>) -> fmt::Result {
        let Vector {
            function,
            x,
            got,
            least,
            greatest,
        } = *self;
        let got = bits_of(got);
        write!(
            f,
            "{function} {x:016x} is {got:016x}, not {least:016x} to {greatest:016x}"
        )
    }
}

impl Vector {
    // The vector of a function from word k on.
    fn read(function: Function, words: &[Word], k: usize) -> Self
        requires { k < 2 ^ 32 }
    {
        let last = k + function.arguments();
        Vector {
            function,
            x: word(words, last - 1),
            got: function.answer(words, k),
            least: word(words, last),
            greatest: word(words, last + 1),
        }
    }

    // Where least and greatest are one pattern the answer has to have it: a NaN's, an infinity's, a zero's with its sign.
    fn is_met(&self) -> bool {
        if self.least == self.greatest {
            return bits_of(self.got) == self.least;
        }
        of_bits(self.least) <= self.got && self.got <= of_bits(self.greatest)
    }
}

// Replays a function's vectors, from word `from` on, and gives the word after them.
fn replay_function(
    rt: &impl Print,
    words: &[Word],
    function: Function,
    from: usize,
    count: usize,
) -> io::Result<usize>
    requires { (from < 2 ^ 20) × (count < 2 ^ 16) }
    ensures { IfOk result (λ k. k ≤ from + 5 * count) }
{
    let mut met: usize = 0;
    let mut k = from;
    // kept as a count: words past the end are 0, so the vectors are no run that chunks walk
    for _vector in 0..count {
        let v = Vector::read(function, words, k);
        if v.is_met() {
            met += 1;
        } else {
            println!(rt; "{v}")?;
        }
        k += function.arguments() + 2;
    }
    println!(rt; "{function}: {count}, met {met}")?;
    Ok(k)
}

fn replay(rt: &impl Print, s: &[u8]) -> io::Result<()> {
    let (words, _) = s.as_chunks::<8>();
    let mut from: usize = 7;
    for function in FUNCTIONS {
        let count = word(words, function as usize);
        if count >= 4096 {
            return println!(rt; "a count is too large");
        }
        from = replay_function(rt, words, function, from, count as usize)?;
    }
    if s.len() != from * 8 {
        println!(rt; "the vectors do not end where their counts say")?;
    }
    Ok(())
}

fn main(rt: HostRuntime) -> io::Result<()> {
    let mut bytes = Vec::new(rt.alloc());
    rt.reader().take(MOST_BYTES).read_to_end(&mut bytes)?;
    replay(&rt, &bytes[..])
}
