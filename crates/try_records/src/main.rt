// Runs both forms of the quadrature, over four runs of numbers and over part records, on the weights of each sheet of a sheet file on
// standard input, and on ranges chosen by hand. Prints two lines a run, which are equal but for the form's name: the sheet or the range,
// the form, the refusal's number and place, the bits of the integral and of the summed error, bisections and evaluations.
#![tactic(auto)]

ghost use Rattle.std.specs.Prelude.{◌≤◌, length};

use columns::Sheet;
use design::Matrix;
use floats::bits::bits_of;
use floats::limits::{MAX_COLUMNS, MAX_ROWS};
use imhof::{Integral, PART_ROOM};
use lines::LONGEST;
use outcome::Refusal;
use outcome::refusals::TestError;
use sheet::file::{Entry, FileRefusal, LARGEST, MOST_NUMBERS};
use sheet::reader::Reader;
use std::io;
use std::io::Read;

// Up to so many rows, as the sheet program.
const ROWS: usize = 64;

const MATRIX_ROOM: usize = ROWS * (ROWS + 1);

// The largest file, and one byte more: no more of the input is read.
const MOST_BYTES: u64 = LARGEST as u64 + 1;

fn print_refusal(rt: &impl Print, why: Refusal) -> io::Result<()> {
    let (number, place, zero) = (why.number, why.place, bits_of(0.0));
    println!(rt; " {number} {place} {zero:016x} {zero:016x} 0 0")
}

fn print_file_refusal(rt: &impl Print, refusal: FileRefusal) -> io::Result<()> {
    let mut out = [0u8; LONGEST];
    let n = lines::write_file_refusal(refusal, &mut out);
    rt.write_all(&out[..n])
}

fn print_integral(rt: &impl Print, found: Result<Integral, TestError>) -> io::Result<()> {
    match found {
        Ok(i) => {
            let (value, error) = (bits_of(i.value), bits_of(i.error));
            let (bisections, evaluations) = (i.tally.bisections, i.tally.evaluations);
            println!(rt; " 0 0 {value:016x} {error:016x} {bisections} {evaluations}")
        }
        Err(why) => print_refusal(rt, why.into()),
    }
}

fn print_head(rt: &impl Print, name: &str, i: usize, form: &str) -> io::Result<()> {
    print!(rt; "{name} {i} {form}")
}

// Both forms on one range.
fn try_range(
    rt: &impl Print,
    name: &str,
    i: usize,
    weights: &[f64],
    lo: f64,
    hi: f64,
) -> io::Result<()> {
    let mut parts = [0.0f64; PART_ROOM];
    print_head(rt, name, i, "four")?;
    let four = imhof::adaptive::integrate(weights, lo, hi, &mut parts);
    print_integral(rt, four.map_err(|why| why.into()))?;
    print_head(rt, name, i, "records")?;
    let records = records::integrate(weights, lo, hi);
    print_integral(rt, records.map_err(|why| why.into()))
}

// On the weights' own range.
fn try_weights(rt: &impl Print, i: usize, weights: &[f64]) -> io::Result<()>
    requires { length weights.now ≤ 256 }
{
    let lo = weights::range::low_end(weights);
    let hi = weights::range::high_end(weights);
    try_range(rt, "sheet", i, weights, lo, hi)
}

fn try_eigenvalues(rt: &impl Print, i: usize, kept: &[f64], d: f64) -> io::Result<()>
    requires { length kept.now ≤ 256 }
{
    let mut weights = [0.0f64; MAX_ROWS];
    let m = weights::shift(kept, d, &mut weights);
    try_weights(rt, i, &weights[..m])
}

fn try_spectrum(rt: &impl Print, i: usize, sheet: Sheet, inverse: Matrix, d: f64) -> io::Result<()>
    requires { (sheet.size.rows ≤ 64) × (sheet.size.columns ≤ sheet.size.rows) }
{
    let mut room = [0.0f64; MATRIX_ROOM];
    let mut kept = [0.0f64; MAX_ROWS];
    let spectrum = eigen::ma_eigenvalues(sheet, inverse, &mut room, &mut kept);
    if let Ok(s) = spectrum {
        if let Some(kept) = kept.get(..s.count) {
            try_eigenvalues(rt, i, kept, d)?;
        }
    }
    Ok(())
}

fn try_sheet(rt: &impl Print, i: usize, sheet: Sheet, d: f64) -> io::Result<()> {
    if sheet.size.rows > ROWS || sheet.size.columns >= sheet.size.rows {
        return Ok(());
    }
    let mut l = [[0.0f64; MAX_COLUMNS]; MAX_COLUMNS];
    if design::factor(sheet, &mut l).is_ok() {
        let inverse = design::inverse_of_factor(l, sheet.size.columns);
        try_spectrum(rt, i, sheet, inverse, d)?;
    }
    Ok(())
}

fn try_entry(rt: &impl Print, file: &[u8], i: usize, e: Entry) -> io::Result<()> {
    let mut residuals = [0.0f64; MOST_NUMBERS];
    let mut columns = [0.0f64; MOST_NUMBERS];
    let n = sheet::file::read_residuals(file, e, &mut residuals);
    let m = sheet::file::read_columns(file, e, &mut columns);
    if let Ok(d) = autocorrelation::durbin_watson(&residuals[..n]) {
        if let Ok(sheet) = Sheet::new(&columns[..m], n, e.columns as usize) {
            try_sheet(rt, i, sheet, d)?;
        }
    }
    Ok(())
}

fn try_entries(rt: &impl Print, file: &[u8]) -> io::Result<()> {
    for (i, e) in Reader::new(file).enumerate() {
        try_entry(rt, file, i, e)?;
    }
    Ok(())
}

fn try_file(rt: &impl Print, file: &[u8]) -> io::Result<()> {
    match sheet::file::check_file(file) {
        Ok(_) => try_entries(rt, file),
        Err(refusal) => print_file_refusal(rt, refusal),
    }
}

// Wide and reversed ranges, an empty one, ends and weights that are not finite, many bisections, and a number that overflows.
fn try_ranges(rt: &impl Print) -> io::Result<()> {
    let weights = [3.0f64, 1.0, 0.25, -0.5, -2.0];
    let zero = 0.0f64;
    try_range(rt, "range", 0, &weights, -40.0, 40.0)?;
    try_range(rt, "range", 1, &weights, 40.0, -40.0)?;
    try_range(rt, "range", 2, &weights, -700.0, 700.0)?;
    try_range(rt, "range", 3, &weights, 0.5, 0.5)?;
    try_range(rt, "range", 4, &weights, 0.0, 1e300)?;
    try_range(rt, "range", 5, &weights, zero / zero, 1.0)?;
    try_range(rt, "range", 6, &weights, -1.0 / zero, 1.0)?;
    let spoilt = [1.0f64, zero / zero];
    try_range(rt, "range", 7, &spoilt, -1.0, 1.0)?;
    try_range(rt, "range", 8, &weights[..0], -1.0, 1.0)?;
    let small = [1e-308f64, 2e-308, -3e-308];
    try_range(rt, "range", 9, &small, 681.4, 726.1)?;
    let mixed = [1e-308f64, 0.0];
    try_range(rt, "range", 10, &mixed, 690.0, 709.8)
}

fn main(rt: HostRuntime) -> io::Result<()> {
    try_ranges(&rt)?;
    let mut file = Vec::new(rt.alloc());
    rt.reader().take(MOST_BYTES).read_to_end(&mut file)?;
    try_file(&rt, &file[..])
}
