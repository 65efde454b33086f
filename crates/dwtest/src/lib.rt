// The Durbin-Watson test for first-order autocorrelation of regression residuals, as R's `lmtest::dwtest`: the order of the
// checks, what the columns decide, what the statistic decides from it, and the two lent rooms. The steps stand in the crates
// below; residuals meet columns only here.
#![tactic(auto)]

ghost use Rattle.std.specs.Prelude.{◌≡◌, true, ◌++◌, ◌≤◌, ◌<◌, length, drop, replicate};
ghost use Rattle.floats.specs.Words.{plus_zero};
ghost use Rattle.floats.specs.Limits.{max_rows};
ghost use Rattle.imhof.specs.Room.{PartRoom};
ghost use Rattle.outcome.specs.Result.{outcome_in};
ghost use Rattle.outcome.specs.Rooms.{room_of, part_room, cleared_of};
ghost use Rattle.dwtest.specs.Layout.{layout_from};
ghost use Rattle.dwtest.specs.Verdict.{said_in, by_spectrum};
ghost use Rattle.dwtest.specs.Test.{way_of, is_exact, said_by, design_of, design_touches, test_of, touched};
ghost use Rattle.dwtest.specs.Vouched.{Vouched};

mod layout;
mod verdict;

use columns::Sheet;
use design::Matrix;
use floats::limits::MAX_ROWS;
use outcome::refusals::{TestError, check_rooms, check_rows};
use outcome::rooms::matrix_room;
use outcome::{
    Alternative, Asked, Choice, LEAST_ROWS, Outcome, Path, accepted, direct, no_law, refused,
    wants_exact,
};
use verdict::Said;

// Which way a sheet goes once its columns are checked: too few rows to work anything out, exact or normal.
#[derive(Clone, Copy, Debug, PartialEq, Eq)]
enum Way {
    Few,
    Exact,
    Normal,
}

// Checked runs with more rows than columns, and what they are asked.
#[derive(Clone, Copy)]
struct Case<'a> {
    sheet: Sheet<'a>,
    asked: Asked,
    choice: Choice,
    ghost more_rows: { sheet.size.columns < sheet.size.rows },
}

// The way of n rows by the choice; the exact one only where rooms of these lengths suffice.
fn way_of(n: usize, choice: Choice, matrix: usize, parts: usize) -> Result<Way, TestError>
    requires { n ≤ max_rows }
    ensures { result ≡ way_of room_of n choice matrix parts }
{
    if n < LEAST_ROWS {
        return Ok(Way::Few);
    }
    if !wants_exact(choice, n) {
        return Ok(Way::Normal);
    }
    check_rooms(n, matrix, parts)?;
    Ok(Way::Exact)
}

// The first m numbers of a room to +0.
fn clear(room: &mut [f64], m: usize)
    requires { m ≤ length room.old }
    ensures { room.new ≡ replicate m plus_zero ++ drop m room.old }
{
    room[..m].fill(0.0);
}

// The exact way: the eigenvalues, which the columns decide, then what the statistic makes of them. Both rooms are cleared.
// kept as two rooms: of a struct that holds both as &mut the clauses read rooms.exit.1.0.now where they say parts.new
fn exact(
    case: Case,
    inverse: Matrix,
    matrix: &mut [f64],
    parts: &mut [f64],
) -> Result<Said, TestError>
    requires { (room_of case.sheet.size.rows ≤ length matrix.old) × (PartRoom parts.old) }
    ensures value { said_in result ≡ by_spectrum (layout_from case.entry.sheet.run.now case.entry.sheet.size.rows case.entry.sheet.size.columns inverse).spectrum (layout_from case.entry.sheet.run.now case.entry.sheet.size.rows case.entry.sheet.size.columns inverse).kept case.entry.asked }
    ensures matrix_after { matrix.new ≡ cleared_of true (room_of case.entry.sheet.size.rows) matrix.old }
    ensures parts_after { parts.new ≡ cleared_of true part_room parts.old }
{
    let sheet = case.sheet;
    let mut kept = [0.0f64; MAX_ROWS];
    let spectrum = eigen::ma_eigenvalues(sheet, inverse, matrix, &mut kept);
    let said = verdict::by_spectrum(spectrum, &kept, case.asked, parts);
    clear(matrix, matrix_room(sheet.size.rows));
    clear(parts, imhof::PART_ROOM);
    said
}

// What is said before any law is worked out: an answer, or that the law is due.
fn said_of(
    case: Case,
    inverse: Matrix,
    matrix: &mut [f64],
    parts: &mut [f64],
) -> Result<Said, TestError>
    ensures value { said_in result ≡ said_by (way_of room_of case.entry.sheet.size.rows case.entry.choice (length matrix.old) (length parts.old)) (layout_from case.entry.sheet.run.now case.entry.sheet.size.rows case.entry.sheet.size.columns inverse) case.entry.asked }
    ensures matrix_after { matrix.new ≡ cleared_of (is_exact (way_of room_of case.entry.sheet.size.rows case.entry.choice (length matrix.old) (length parts.old))) (room_of case.entry.sheet.size.rows) matrix.old }
    ensures parts_after { parts.new ≡ cleared_of (is_exact (way_of room_of case.entry.sheet.size.rows case.entry.choice (length matrix.old) (length parts.old))) part_room parts.old }
{
    match way_of(case.sheet.size.rows, case.choice, matrix.len(), parts.len())? {
        Way::Few => {
            let outcome = accepted(case.asked, 1.0, Path::FewRows.into(), direct(), no_law());
            Ok(Said::Answered(outcome))
        }
        Way::Exact => exact(case, inverse, matrix, parts),
        Way::Normal => Ok(verdict::to_law(case.asked, direct())),
    }
}

// A sheet whose runs are checked: what its columns decide, then what its statistic does. The law is worked out where it is due.
fn test_design(case: Case, matrix: &mut [f64], parts: &mut [f64]) -> Result<Outcome, TestError>
    ensures value { outcome_in result ≡ design_of room_of case.entry.sheet.run.now case.entry.sheet.size.rows case.entry.sheet.size.columns case.entry.asked case.entry.choice (length matrix.old) (length parts.old) }
    ensures matrix_after { matrix.new ≡ cleared_of (design_touches room_of case.entry.sheet.run.now case.entry.sheet.size.rows case.entry.sheet.size.columns case.entry.choice (length matrix.old) (length parts.old)) (room_of case.entry.sheet.size.rows) matrix.old }
    ensures parts_after { parts.new ≡ cleared_of (design_touches room_of case.entry.sheet.run.now case.entry.sheet.size.rows case.entry.sheet.size.columns case.entry.choice (length matrix.old) (length parts.old)) part_room parts.old }
{
    let inverse = layout::invert(case.sheet)?;
    match said_of(case, inverse, matrix, parts)? {
        Said::Answered(outcome) => Ok(outcome),
        Said::LawDue(left) => {
            let law = layout::law_of(case.sheet, inverse)?;
            Ok(verdict::by_law(law, case.asked, left))
        }
    }
}

// The test, or why it refuses the sheet.
fn test(
    residuals: &[f64],
    columns: &[f64],
    k: usize,
    alternative: Alternative,
    choice: Choice,
    matrix: &mut [f64],
    parts: &mut [f64],
) -> Result<Outcome, TestError>
    ensures value { outcome_in result ≡ test_of residuals.now columns.now k alternative choice (length matrix.old) (length parts.old) }
    ensures matrix_after { matrix.new ≡ cleared_of (touched residuals.now columns.now k choice (length matrix.old) (length parts.old)) (room_of (length residuals.now)) matrix.old }
    ensures parts_after { parts.new ≡ cleared_of (touched residuals.now columns.now k choice (length matrix.old) (length parts.old)) part_room parts.old }
    ensures vouched { Vouched (outcome_in result) residuals.now }
{
    let sheet = Sheet::new(columns, residuals.len(), k)?;
    let statistic = autocorrelation::durbin_watson(residuals)?;
    check_rows(sheet.size)?;
    let asked = Asked {
        statistic,
        alternative,
        rows: sheet.size.rows,
    };
    let case = Case {
        sheet,
        asked,
        choice,
    };
    test_design(case, matrix, parts)
}

// The test. `columns` is k columns of as many numbers as there are residuals, one after another. The rooms are lent for the exact path: n (n + 1) numbers
// and imhof's PART_ROOM. A call that uses them leaves those numbers +0; every other call changes neither room. Its parameters stay seven: callers,
// dwexport's in C among them, know it so.
pub fn durbin_watson_test(
    residuals: &[f64],
    columns: &[f64],
    k: usize,
    alternative: Alternative,
    choice: Choice,
    matrix: &mut [f64],
    parts: &mut [f64],
) -> Outcome
    ensures value { result ≡ test_of residuals.now columns.now k alternative choice (length matrix.old) (length parts.old) }
    ensures matrix_after { matrix.new ≡ cleared_of (touched residuals.now columns.now k choice (length matrix.old) (length parts.old)) (room_of (length residuals.now)) matrix.old }
    ensures parts_after { parts.new ≡ cleared_of (touched residuals.now columns.now k choice (length matrix.old) (length parts.old)) part_room parts.old }
    ensures vouched { Vouched result residuals.now }
{
    test(residuals, columns, k, alternative, choice, matrix, parts).unwrap_or_else(|why| refused(
        why.into(),
    ))
}
