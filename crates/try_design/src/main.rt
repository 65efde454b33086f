// Works out designs read from standard input and prints each step: the inverse, the normal law and p,
// or the refusal with its number and place. The stored input meets every refusal of this layer; other
// input comes from compare.py, which holds the steps against the oracle's.
// A call is 5 words of 8 bytes, the least byte first: n, k, how many numbers follow, the alternative
// (0 greater, 1 less, 2 two-sided), the statistic's pattern; then the patterns of the columns' numbers.
#![tactic(auto)]

mod print;

ghost use Rattle.std.specs.Prelude.{◌*◌, ◌≤◌, length};

use columns::Sheet;
use design::Matrix;
use floats::bits::{float_at, little_endian};
use floats::limits::{MAX_COLUMNS, MAX_ROWS};
use outcome::Asked;
use outcome::p::normal_p;
use outcome::refusals::{TestError, check_inverse, check_rows};
use print::{print_line, print_matrix, print_refusal};
use std::io;
use std::io::Read;

const MOST_CALLS: usize = 1_000_000;

// The numbers of a sheet with a row more than the largest.
const MOST_NUMBERS: usize = MAX_COLUMNS * (MAX_ROWS + 1);

// The inverse for a sheet, or why there is none.
fn inverted(sheet: Sheet) -> Result<Matrix, TestError> {
    check_rows(sheet.size)?;
    let mut l = [[0.0f64; MAX_COLUMNS]; MAX_COLUMNS];
    design::factor(sheet, &mut l)?;
    let k = sheet.size.columns;
    check_inverse(design::inverse_of_factor(l, k), k)
}

fn law_step(rt: &impl Print, sheet: Sheet, inverse: Matrix, asked: Asked) -> io::Result<()> {
    print_matrix(rt, &inverse, sheet.size.columns)?;
    if sheet.size.rows < design::LEAST_FOR_LAW {
        return print_line(rt, "p", 1.0);
    }
    let law = design::normal_law(sheet, inverse);
    print_line(rt, "mean", law.mean)?;
    print_line(rt, "variance", law.variance)?;
    match design::check_law(law) {
        Ok(usable) => {
            let alternative = asked.alternative;
            print_line(rt, "p", normal_p(usable, asked.statistic, alternative))
        }
        Err(why) => print_refusal(rt, TestError::from(why)),
    }
}

fn work_out(rt: &impl Print, columns: &[f64], n: usize, k: usize, asked: Asked) -> io::Result<()> {
    let sheet = match Sheet::new(columns, n, k) {
        Ok(sheet) => sheet,
        Err(why) => return print_refusal(rt, TestError::from(why)),
    };
    match inverted(sheet) {
        Ok(inverse) => law_step(rt, sheet, inverse, asked),
        Err(why) => print_refusal(rt, why),
    }
}

// The numbers whose patterns stand in `bytes`, at the start of `columns`. Each program reads its own input: a crate for these lines would be longer.
fn read_numbers(bytes: &[u8], columns: &mut [f64]) {
    for (x, word) in columns.iter_mut().zip(bytes.chunks_exact(8)) {
        *x = float_at(word, 0);
    }
}

fn asked_in(head: &[u8; 40]) -> Asked {
    let alternative = outcome::alternative_of(little_endian(head, 24, 8));
    Asked {
        statistic: float_at(head, 32),
        alternative,
        rows: little_endian(head, 0, 8) as usize,
    }
}

// A call of `count` numbers, with room for them; false where the input ends.
fn call_of(
    rt: &(impl Input + Print),
    head: &[u8; 40],
    count: usize,
    bytes: &mut [u8],
    columns: &mut [f64],
) -> io::Result<bool>
    requires { (8 * count ≤ length bytes.old) × (count ≤ length columns.old) }
{
    let size = 8 * count;
    if rt.reader().read_exact(&mut bytes[..size]).is_err() {
        return Ok(false);
    }
    read_numbers(&bytes[..size], columns);
    let n = little_endian(head, 0, 8) as usize;
    let k = little_endian(head, 8, 8) as usize;
    work_out(rt, &columns[..count], n, k, asked_in(head))?;
    Ok(true)
}

// A call whose head was read; false where it has more numbers than any sheet, or the input ends.
fn one_call(rt: &(impl Input + Print), head: &[u8; 40]) -> io::Result<bool> {
    let count = little_endian(head, 16, 8) as usize;
    if count > MOST_NUMBERS {
        return Ok(false);
    }
    let mut bytes = [0u8; 8 * MOST_NUMBERS];
    let mut columns = [0.0f64; MOST_NUMBERS];
    call_of(rt, head, count, &mut bytes, &mut columns)
}

fn main(rt: HostRuntime) -> io::Result<()> {
    // a count: i is the call's number, which is printed, and a loop has to end
    for i in 0..MOST_CALLS {
        let mut head = [0u8; 40];
        if rt.reader().read_exact(&mut head).is_err() {
            return Ok(());
        }
        print::print_call(&rt, i)?;
        if !one_call(&rt, &head)? {
            return print::print_cut(&rt);
        }
    }
    Ok(())
}
