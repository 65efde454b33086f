// The line of a design.
use eigen::Numbers;
use floats::bits::bits_of;
use outcome::Refusal;
use std::io;

fn print_pattern(rt: &impl Print, x: f64) -> io::Result<()> {
    let bits = bits_of(x);
    print!(rt; " {bits:016x}")
}

pub fn print_refusal(rt: &impl Print, i: usize, why: Refusal) -> io::Result<()> {
    let (number, place) = (why.number, why.place);
    println!(rt; "{i} {number} {place}")
}

pub fn print_kept(rt: &impl Print, i: usize, numbers: Numbers, kept: &[f64]) -> io::Result<()> {
    let work = numbers.work;
    let (count, sweeps, stuck) = (numbers.count, work.sweeps, u64::from(numbers.stuck));
    print!(rt; "{i} 0 0 {count} {sweeps} {stuck}")?;
    for x in kept.iter().take(count) {
        print_pattern(rt, *x)?;
    }
    println!(rt)
}

pub fn print_cut(rt: &impl Print) -> io::Result<()> {
    println!(rt; "the input is cut short")
}
