// The answer to a sheet file, as bytes: a line for each of its sheets in order, or the one line of its refusal.
#![tactic(auto)]

ghost use Rattle.std.specs.Prelude.{◌≡◌, ◌≤◌, length};
ghost use Rattle.sheet.specs.Contents.{Counts, count_of};
ghost use Rattle.sheet.specs.Tiling.{Tiled};
ghost use Rattle.lines.specs.Lines.{put_at, fronted, front_length};
ghost use Rattle.answers.specs.Answer.{lent_rows, result_of, answer_to, most_bytes};
ghost use Rattle.answers.specs.Steps.{Within, lines_to};

use imhof::PART_ROOM;
use lines::LONGEST;
use outcome::{Outcome, alternative_of, choice_of};
use sheet::file::{Entry, MOST_ENTRIES, MOST_NUMBERS};
use sheet::reader::Reader;

// The longest answer: a line for each of the most sheets.
pub const MOST_BYTES: usize = MOST_ENTRIES * LONGEST;

// Matrix room is lent for so many rows, and full part room: an exact sheet with more rows meets refusal 12.
const ROWS: usize = 64;

const MATRIX_ROOM: usize = ROWS * (ROWS + 1);

// The result of an entry's sheet.
fn result_of(file: &[u8], e: Entry) -> Outcome
    requires { Within file.now e }
    ensures { result ≡ result_of lent_rows file.now e }
{
    let mut residuals = [0.0f64; MOST_NUMBERS];
    let mut columns = [0.0f64; MOST_NUMBERS];
    let mut matrix = [0.0f64; MATRIX_ROOM];
    let mut parts = [0.0f64; PART_ROOM];
    let n = sheet::file::read_residuals(file, e, &mut residuals);
    let m = sheet::file::read_columns(file, e, &mut columns);
    dwtest::durbin_watson_test(
        &residuals[..n],
        &columns[..m],
        e.columns as usize,
        alternative_of(e.alternative as u64),
        choice_of(e.choice as u64),
        &mut matrix,
        &mut parts,
    )
}

// Puts the lines of a file's sheets at the front of `out`, as a reader goes through the file; gives their length.
fn put_lines(file: &[u8], out: &mut [u8]) -> usize
    requires { (Tiled file.now (count_of file.now)) × (most_bytes ≤ length out.old) }
    ensures { (result ≡ length (lines_to file.now (count_of file.now))) × (out.new ≡ put_at 0 (lines_to file.now (count_of file.now)) out.old) }
{
    let mut at = 0;
    for (i, e) in Reader::new(file).enumerate() {
        at += lines::write_line(i, result_of(file, e), &mut out[at..]);
    }
    at
}

// Puts the answer to a file at the front of `out`, and gives its length; 0, and `out` as it was, where `out` is shorter than MOST_BYTES
// (kept: `front_length` promises it).
pub fn answer(file: &[u8], out: &mut [u8]) -> usize
    ensures value { result ≡ front_length most_bytes (answer_to file.now) out.old }
    ensures out_after { out.new ≡ fronted most_bytes (answer_to file.now) out.old }
    ensures counts { Counts result out.new }
{
    if out.len() < MOST_BYTES {
        return 0;
    }
    match sheet::file::check_file(file) {
        Ok(_) => put_lines(file, out),
        Err(refusal) => lines::write_file_refusal(refusal, out),
    }
}
