// Eigenvalues of designs read from standard input, one line a design. The stored input is made by cases.py and the stored lines come from the
// oracle; compare.py compares other designs the same way.
// A design is 3 words of 8 bytes, the least byte first: n, k, and 1 where the inverse is given, 0 where it is worked out from the columns; then the
// patterns of 64 numbers, the inverse row by row in its first k rows and columns, and of the columns' k n numbers. The line: index, refusal
// and place; where there is none, how many eigenvalues are kept, the sweeps, 1 where an index of the QL step still had a coupling left after its
// turn and else 0, and the eigenvalues' patterns. The room is not cleared between designs.
#![tactic(auto)]

mod print;

ghost use Rattle.std.specs.Prelude.{◌*◌, ◌≤◌, ◌<◌};
ghost use Rattle.floats.specs.Limits.{max_rows, max_columns};

use columns::{Sheet, SheetSize};
use design::Matrix;
use eigen::Numbers;
use floats::bits::{float_at, little_endian};
use floats::limits::{MAX_COLUMNS, MAX_ROWS};
use outcome::refusals::{TestError, check_inverse};
use print::{print_cut, print_kept, print_refusal};
use std::io;
use std::io::Read;

const MOST_DESIGNS: usize = 1_000_000;

// The bytes of an inverse, which come first, and the numbers, the bytes and the room of the largest sheet.
const INVERSE_BYTES: usize = 8 * MAX_COLUMNS * MAX_COLUMNS;

const MOST_NUMBERS: usize = MAX_COLUMNS * MAX_ROWS;

const MOST_BYTES: usize = INVERSE_BYTES + 8 * MOST_NUMBERS;

const MATRIX_ROOM: usize = MAX_ROWS * (MAX_ROWS + 1);

// The inverse of X'X, worked out from the columns.
fn inverse_by_columns(sheet: Sheet) -> Result<Matrix, TestError> {
    let k = sheet.size.columns;
    let mut l = [[0.0f64; MAX_COLUMNS]; MAX_COLUMNS];
    design::factor(sheet, &mut l)?;
    check_inverse(design::inverse_of_factor(l, k), k)
}

// The spectrum by the inverse that is given, or else by that of the columns.
fn spectrum_of(
    sheet: Sheet,
    given: Option<Matrix>,
    room: &mut [f64; MATRIX_ROOM],
    kept: &mut [f64; MAX_ROWS],
) -> Result<Numbers, TestError>
    requires { sheet.size.columns ≤ sheet.size.rows }
{
    let inverse = match given {
        Some(inverse) => inverse,
        None => inverse_by_columns(sheet)?,
    };
    Ok(eigen::ma_eigenvalues(sheet, inverse, room, kept)?)
}

// Row i of the inverse that is given.
fn row_in(bytes: &[u8; MOST_BYTES], i: usize) -> [f64; MAX_COLUMNS]
    requires { i < max_columns }
{
    let mut row = [0.0f64; MAX_COLUMNS];
    for (j, x) in row.iter_mut().enumerate() {
        *x = float_at(bytes, 8 * (MAX_COLUMNS * i + j));
    }
    row
}

fn inverse_in(bytes: &[u8; MOST_BYTES]) -> Matrix {
    let mut inverse = [[0.0f64; MAX_COLUMNS]; MAX_COLUMNS];
    for (i, row) in inverse.iter_mut().enumerate() {
        *row = row_in(bytes, i);
    }
    inverse
}

// The columns' numbers, whose patterns stand behind the inverse; +0 behind the first `count`.
fn columns_in(bytes: &[u8; MOST_BYTES], count: usize) -> [f64; MOST_NUMBERS]
    requires { count ≤ max_columns * max_rows }
{
    let mut run = [0.0f64; MOST_NUMBERS];
    for (t, x) in run[..count].iter_mut().enumerate() {
        *x = float_at(bytes, INVERSE_BYTES + 8 * t);
    }
    run
}

// A design of a size that fits; false where the input ends.
fn design_of(
    rt: &(impl Input + Print),
    i: usize,
    head: &[u8; 24],
    size: SheetSize,
    room: &mut [f64; MATRIX_ROOM],
) -> io::Result<bool>
    requires { (size.rows ≤ max_rows) × (size.columns ≤ max_columns) × (size.columns ≤ size.rows) }
{
    let mut bytes = [0u8; MOST_BYTES];
    let count = size.columns * size.rows;
    let all = INVERSE_BYTES + 8 * count;
    if rt.reader().read_exact(&mut bytes[..all]).is_err() {
        return Ok(false);
    }
    let run = columns_in(&bytes, count);
    let sheet = Sheet {
        run: &run[..count],
        size,
    };
    let given = if little_endian(head, 16, 8) == 0 {
        None
    } else {
        Some(inverse_in(&bytes))
    };
    let mut kept = [0.0f64; MAX_ROWS];
    match spectrum_of(sheet, given, room, &mut kept) {
        Ok(numbers) => print_kept(rt, i, numbers, &kept)?,
        Err(why) => print_refusal(rt, i, why.into())?,
    }
    Ok(true)
}

// A design whose head was read; false where it is larger than any sheet's, has more columns than rows, or the input ends.
fn one_design(
    rt: &(impl Input + Print),
    i: usize,
    head: &[u8; 24],
    room: &mut [f64; MATRIX_ROOM],
) -> io::Result<bool> {
    let n = little_endian(head, 0, 8) as usize;
    let k = little_endian(head, 8, 8) as usize;
    let Ok(size) = SheetSize::new(n, k) else {
        return Ok(false);
    };
    if size.columns > size.rows {
        return Ok(false);
    }
    design_of(rt, i, head, size, room)
}

fn designs(rt: &(impl Input + Print), room: &mut [f64; MATRIX_ROOM]) -> io::Result<()> {
    // kept as an index loop: i is the number that a design's line begins with
    for i in 0..MOST_DESIGNS {
        let mut head = [0u8; 24];
        if rt.reader().read_exact(&mut head).is_err() {
            return Ok(());
        }
        if !one_design(rt, i, &head, room)? {
            return print_cut(rt);
        }
    }
    Ok(())
}

fn main(rt: HostRuntime) -> io::Result<()> {
    let mut room = [0.0f64; MATRIX_ROOM];
    designs(&rt, &mut room)
}
