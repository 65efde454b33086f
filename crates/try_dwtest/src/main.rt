// Calls of the test read from standard input, with rooms for 256 rows; one line a call. The stored input is made by cases.py and the stored lines come
// from the oracle; oracle/at-scale compares other input the same way.
// A call is 7 words of 8 bytes, the least byte first: how many residuals, how many numbers of columns, k, the codes of the alternative and of the choice (the
// least byte alone is read), how many numbers of the matrix room and of the part room are lent; then the patterns of the residuals
// and of the columns' numbers. The line: the sheet program's fields, then n and alternative of the answer, the law's mean and variance, and a
// word for each room: 0 it is as it was in every bit, 1 its first n (n + 1), or PART_ROOM, numbers are +0 and the others as they were, 2 anything else.
#![tactic(auto)]

mod print;
mod rooms;

ghost use Rattle.std.specs.Prelude.{◌*◌, ◌≤◌, length};

use floats::bits::{float_at, little_endian};
use imhof::PART_ROOM;
use outcome::{Alternative, Choice, alternative_of, choice_of};
use std::io;
use std::io::Read;

const MOST_CALLS: usize = 1_000_000;

const MOST_NUMBERS: usize = 4096;

// A call as its head says: how many residuals and how many numbers of columns follow, k, what is asked for, and how much of the rooms is lent.
#[derive(Clone, Copy)]
struct Call {
    residuals: usize,
    columns: usize,
    k: usize,
    alternative: Alternative,
    choice: Choice,
    matrix: usize,
    parts: usize,
}

fn call_in(head: &[u8; 56]) -> Call {
    Call {
        residuals: little_endian(head, 0, 8) as usize,
        columns: little_endian(head, 8, 8) as usize,
        k: little_endian(head, 16, 8) as usize,
        alternative: alternative_of(little_endian(head, 24, 1)),
        choice: choice_of(little_endian(head, 32, 1)),
        matrix: little_endian(head, 40, 8) as usize,
        parts: little_endian(head, 48, 8) as usize,
    }
}

// The numbers whose patterns stand in `bytes`. Each program reads its own input: a crate for these lines would be longer.
fn read_numbers(bytes: &[u8], run: &mut [f64])
    requires { 8 * length run.old ≤ length bytes.now }
{
    for (t, x) in run.iter_mut().enumerate() {
        *x = float_at(bytes, 8 * t);
    }
}

// Fills both rooms, calls the test, and prints the line of call `i`.
fn test(
    rt: &impl Print,
    i: usize,
    call: Call,
    residuals: &[f64],
    columns: &[f64],
    matrix: &mut [f64],
    parts: &mut [f64],
) -> io::Result<()>
    requires { length residuals.now ≤ 4096 }
{
    rooms::fill(matrix);
    rooms::fill(parts);
    let outcome = dwtest::durbin_watson_test(
        residuals,
        columns,
        call.k,
        call.alternative,
        call.choice,
        matrix,
        parts,
    );
    print::print_outcome(rt, i, outcome)?;
    let n = residuals.len();
    print::print_rooms(
        rt,
        rooms::held(matrix, n * (n + 1)),
        rooms::held(parts, PART_ROOM),
    )
}

// A call with the rooms that it is lent; false where it has more numbers than there is room for, or the input ends.
fn one_call(
    rt: &(impl Input + Print),
    i: usize,
    call: Call,
    matrix: &mut [f64],
    parts: &mut [f64],
) -> io::Result<bool> {
    let n = call.residuals;
    if n > MOST_NUMBERS || call.columns > MOST_NUMBERS - n {
        return Ok(false);
    }
    let count = n + call.columns;
    let mut bytes = [0u8; 8 * MOST_NUMBERS];
    let mut run = [0.0f64; MOST_NUMBERS];
    if rt.reader().read_exact(&mut bytes[..8 * count]).is_err() {
        return Ok(false);
    }
    read_numbers(&bytes, &mut run[..count]);
    test(rt, i, call, &run[..n], &run[n..count], matrix, parts)?;
    Ok(true)
}

fn calls(rt: &(impl Input + Print), matrix: &mut [f64], parts: &mut [f64]) -> io::Result<()> {
    // a count: i is the call's number, which is printed, and a loop has to end
    for i in 0..MOST_CALLS {
        let mut head = [0u8; 56];
        if rt.reader().read_exact(&mut head).is_err() {
            return Ok(());
        }
        let call = call_in(&head);
        if call.matrix > matrix.len() || call.parts > parts.len() {
            return print::print_cut(rt);
        }
        let (matrix, parts) = (&mut matrix[..call.matrix], &mut parts[..call.parts]);
        if !one_call(rt, i, call, matrix, parts)? {
            return print::print_cut(rt);
        }
    }
    Ok(())
}

fn main(rt: HostRuntime) -> io::Result<()> {
    let mut matrix = rooms::matrix_room();
    let mut parts = rooms::part_room();
    calls(&rt, &mut matrix, &mut parts)
}
