// Lines of the answer.
ghost use Rattle.std.specs.Prelude.{◌≤◌};
ghost use Rattle.floats.specs.Limits.{max_columns};

use design::Matrix;
use floats::bits::bits_of;
use outcome::Refusal;
use outcome::refusals::TestError;
use std::io;

fn print_bits(rt: &impl Print, x: f64) -> io::Result<()> {
    let bits = bits_of(x);
    print!(rt; " {bits:016x}")
}

pub fn print_line(rt: &impl Print, name: &str, x: f64) -> io::Result<()> {
    print!(rt; "{name}")?;
    print_bits(rt, x)?;
    println!(rt)
}

pub fn print_matrix(rt: &impl Print, a: &Matrix, k: usize) -> io::Result<()>
    requires { k ≤ max_columns }
{
    print!(rt; "inverse")?;
    for row in &a[..k] {
        for x in &row[..k] {
            print_bits(rt, *x)?;
        }
    }
    println!(rt)
}

pub fn print_refusal(rt: &impl Print, why: TestError) -> io::Result<()> {
    let Refusal { number, place } = Refusal::from(why);
    println!(rt; "refusal {number} {place}")
}

pub fn print_call(rt: &impl Print, i: usize) -> io::Result<()> {
    println!(rt; "call {i}")
}

pub fn print_cut(rt: &impl Print) -> io::Result<()> {
    println!(rt; "the input is cut short")
}
