// Replays the stored vectors of measure/roots/vectors.py: square roots and hypots, each to the bit. Prints what is not right, and the
// counts. The input is words of 8 bytes, the least byte first: how many roots, how many pairs, then a number and its root, and two
// numbers and their hypot.
#![tactic(auto)]

ghost use Rattle.std.specs.Prelude.{◌*◌, ◌≤◌, length};

use floats::bits::{bits_of, of_bits};
use std::io::Read;
use std::{fmt, io};

// No more of the input is read.
const MOST_BYTES: u64 = 65_536;

// A word of the input.
type Word = [u8; 8];

#[derive(Clone, Copy)]
enum Function {
    Sqrt,
    Hypot,
}

impl fmt::Display for Function {
    fn fmt<W: fmt::Write>(&self, f: &mut fmt::Formatter<W>) -> fmt::Result {
        f.write_str(match self {
            Function::Sqrt => "sqrt",
            Function::Hypot => "hypot",
        })
    }
}

// A vector: the function asked, the bits of its arguments, those of its answer, and those that are stored.
#[derive(Clone, Copy)]
struct Vector {
    function: Function,
    x: u64,
    y: u64,
    got: u64,
    want: u64,
}

impl fmt::Display for Vector {
    fn fmt<W: fmt::Write>(&self, f: &mut fmt::Formatter<W>) -> fmt::Result {
        let Vector {
            function,
            x,
            y,
            got,
            want,
        } = *self;
        write!(
            f,
            "{function} {x:016x} {y:016x} is {got:016x}, not {want:016x}"
        )
    }
}

fn root(words: &[Word; 2]) -> Vector {
    let x = u64::from_le_bytes(words[0]);
    Vector {
        function: Function::Sqrt,
        x,
        y: 0,
        got: bits_of(roots::sqrt(of_bits(x))),
        want: u64::from_le_bytes(words[1]),
    }
}

fn pair(words: &[Word; 3]) -> Vector {
    let x = u64::from_le_bytes(words[0]);
    let y = u64::from_le_bytes(words[1]);
    Vector {
        function: Function::Hypot,
        x,
        y,
        got: bits_of(roots::hypot(of_bits(x), of_bits(y))),
        want: u64::from_le_bytes(words[2]),
    }
}

// How many of the vectors are right. Each is `read` from its words.
fn count_right<T, F: Fn(&T) -> Vector>(rt: &impl Print, vectors: &[T], read: F) -> io::Result<usize>
    requires { F.IsAlwaysCallable read }
{
    let mut right: usize = 0;
    for words in vectors {
        let v = read(words);
        if v.got == v.want {
            right += 1;
        } else {
            println!(rt; "{v}")?;
        }
    }
    Ok(right)
}

// The first `roots` vectors have two words, the others three.
fn replay(rt: &impl Print, vectors: &[Word], roots: usize) -> io::Result<()>
    requires { 2 * roots ≤ length vectors.now }
{
    let (first, others) = vectors.split_at(2 * roots);
    let (roots, _) = first.as_chunks::<2>();
    let (pairs, _) = others.as_chunks::<3>();
    let right_roots = count_right(rt, roots, root)?;
    let right_pairs = count_right(rt, pairs, pair)?;
    println!(rt; "roots: {}, to the bit {right_roots}", roots.len())?;
    println!(rt; "pairs: {}, to the bit {right_pairs}", pairs.len())
}

fn main(rt: HostRuntime) -> io::Result<()> {
    let mut bytes = Vec::new(rt.alloc());
    rt.reader().take(MOST_BYTES).read_to_end(&mut bytes)?;
    let (words, rest) = bytes[..].as_chunks::<8>();
    if let [roots, pairs, vectors @ ..] = words {
        let m = u64::from_le_bytes(*roots);
        let k = u64::from_le_bytes(*pairs);
        if m < 4096 && k < 4096 && rest.is_empty() && vectors.len() as u64 == 2 * m + 3 * k {
            return replay(&rt, vectors, m as usize);
        }
    }
    println!(rt; "the vectors are cut short")
}
