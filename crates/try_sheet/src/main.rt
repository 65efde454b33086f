// Reads sheet files one after another from standard input and prints what the crate `sheet` makes of each: its label with the file
// refusal's line, or with one line an entry: index, alternative, choice, digests of the residuals and of the columns, rows, columns, offset,
// positions byte, digest of the positions. The input is made by measure/sheet/stored: for each file its length and how many of its bytes
// are given (4 bytes each, the least first; those not given are zeros), a label of 24 bytes, and the bytes given.
#![tactic(auto)]

ghost use Rattle.std.specs.Prelude.{◌≤◌, length};

use floats::bits::{bits_of, little_endian};
use lines::LONGEST;
use sheet::file::{Entry, LARGEST, MOST_NUMBERS};
use sheet::reader::Reader;
use std::io;
use std::io::Read;

// A digest is a word that depends on each pattern and on their order: three times the word of those before, and the pattern.
fn digest_more(word: u64, pattern: u64) -> u64 {
    word.wrapping_mul(3).wrapping_add(pattern)
}

fn digest(run: &[f64]) -> u64 {
    run.iter().fold(0, |word, x| digest_more(word, bits_of(*x)))
}

// Of an entry's positions; 0 where it has none.
fn digest_positions(file: &[u8], e: Entry) -> u64 {
    if e.positions == 0 {
        return 0;
    }
    (0..e.rows as usize).fold(0, |word, t| {
        digest_more(word, sheet::file::position_at(file, e, t))
    })
}

fn print_line(rt: &impl Print, label: &[u8], line: &[u8]) -> io::Result<()> {
    rt.write_all(label)?;
    rt.write_all(line)
}

fn print_entry(rt: &impl Print, label: &[u8], file: &[u8], i: usize, e: Entry) -> io::Result<()> {
    let mut run = [0.0f64; MOST_NUMBERS];
    let n = sheet::file::read_residuals(file, e, &mut run);
    let residuals = digest(&run[..n]);
    let m = sheet::file::read_columns(file, e, &mut run);
    let columns = digest(&run[..m]);
    let words = [
        i as u64,
        e.alternative as u64,
        e.choice as u64,
        residuals,
        columns,
        e.rows as u64,
        e.columns as u64,
        e.offset as u64,
        e.positions as u64,
        digest_positions(file, e),
    ];
    let mut out = [0u8; LONGEST];
    let n = lines::write_words(&words, &[3, 4], &mut out);
    print_line(rt, label, &out[..n])
}

fn print_file(rt: &impl Print, label: &[u8], file: &[u8]) -> io::Result<()> {
    if let Err(refusal) = sheet::file::check_file(file) {
        let mut out = [0u8; LONGEST];
        let n = lines::write_file_refusal(refusal, &mut out);
        return print_line(rt, label, &out[..n]);
    }
    for (i, e) in Reader::new(file).enumerate() {
        print_entry(rt, label, file, i, e)?;
    }
    Ok(())
}

// A file of `size` bytes, the first `given` of which are read.
fn print_given(
    rt: &(impl Input + Print),
    label: &[u8],
    file: &mut [u8],
    size: usize,
    given: usize,
) -> io::Result<()>
    requires { (given ≤ size) × (size ≤ length file.old) }
{
    // Where the input ends before, the rest are zeros.
    let _ = rt.reader().read_exact(&mut file[..given]);
    print_file(rt, label, &file[..size])
}

// Whether there was another file.
fn print_next(rt: &(impl Input + Print)) -> io::Result<bool> {
    let mut head = [0u8; 32];
    if rt.reader().read_exact(&mut head).is_err() {
        return Ok(false);
    }
    let size = little_endian(&head, 0, 4) as usize;
    let given = little_endian(&head, 4, 4) as usize;
    if size > LARGEST + 1 || given > size {
        return Ok(false);
    }
    let mut file = [0u8; LARGEST + 1];
    print_given(rt, &head[8..], &mut file, size, given)?;
    Ok(true)
}

fn main(rt: HostRuntime) -> io::Result<()> {
    // kept as a count: a loop has to end
    for _ in 0u64..1_000_000 {
        if !print_next(&rt)? {
            break;
        }
    }
    Ok(())
}
