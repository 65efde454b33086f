// The line of a call.
use super::rooms::Content;
use floats::bits::bits_of;
use lines::LONGEST;
use outcome::Outcome;
use std::io;

// The sheet program's line, without its newline.
fn print_fields(rt: &impl Print, i: usize, o: Outcome) -> io::Result<()> {
    let mut out = [0u8; LONGEST];
    let n = lines::write_line(i, o, &mut out);
    rt.write_all(&out[..n.saturating_sub(1)])
}

pub fn print_outcome(rt: &impl Print, i: usize, o: Outcome) -> io::Result<()> {
    print_fields(rt, i, o)?;
    let (n, alternative) = (o.n, u32::from(o.alternative));
    let (mean, variance) = (bits_of(o.law.mean), bits_of(o.law.variance));
    print!(rt; " {n} {alternative} {mean:016x} {variance:016x}")
}

pub fn print_rooms(rt: &impl Print, matrix: Content, parts: Content) -> io::Result<()> {
    println!(rt; " {matrix} {parts}")
}

pub fn print_cut(rt: &impl Print) -> io::Result<()> {
    println!(rt; "the input is cut short")
}
