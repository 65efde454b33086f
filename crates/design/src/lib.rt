// What sound columns alone decide, short of eigenvalues: (X'X)^-1 by Cholesky, and the normal law of the Durbin-Watson statistic.
// The k columns of n rows are one run, column after column; residuals do not appear.
#![tactic(auto)]

mod cholesky;
mod difference;
mod lower;
mod tables;
mod traces;

ghost use Rattle.std.specs.Prelude.{◌≡◌, ◌≤◌, ◌<◌, length};
ghost use Rattle.std.specs.Float.Ieee.Scale.{finite};
ghost use Rattle.floats.specs.Words.{◌‼◌};
ghost use Rattle.floats.specs.Tables.{table};
ghost use Rattle.floats.specs.Limits.{max_columns};
ghost use Rattle.design.specs.Matrix.{entry, every, finite_matrix};
ghost use Rattle.design.specs.Factor.{pivots_of, factor_of, rows_made};
ghost use Rattle.design.specs.Inverse.{inverse_from};
ghost use Rattle.design.specs.Difference.{difference_at};
ghost use Rattle.design.specs.Law.{law_from, law_answer};

use columns::Sheet;
use elementary::NormalLaw;
use floats::limits::{MAX_COLUMNS, MAX_ROWS};
use floats::signs::{is_finite, max};
use roots::sqrt;

// A matrix of k rows and columns, in the first k rows and columns of the largest; +0 stands beyond.
pub type Matrix = [[f64; MAX_COLUMNS]; MAX_COLUMNS];

// The first column whose pivot fails. A pivot that is NaN holds.
#[derive(Clone, Copy, Debug, PartialEq, Eq)]
pub struct FailedPivot(pub usize);

const TOLERANCE: f64 = 1e-12;

const LEAST_NORMAL: f64 = 2.2250738585072014e-308; // 2^-1022

// The Cholesky factor of X'X by rows, as far as the pivots hold; +0 in the rows beyond.
pub fn factor(sheet: Sheet, l: &mut Matrix) -> Result<(), FailedPivot>
    ensures value { result ≡ pivots_of sheet.entry.run.now sheet.entry.size.rows sheet.entry.size.columns }
    ensures l_after { l.new ≡ factor_of sheet.entry.run.now sheet.entry.size.rows (rows_made sheet.entry.size.columns (pivots_of sheet.entry.run.now sheet.entry.size.rows sheet.entry.size.columns)) }
{
    let columns = sheet.run;
    let n = sheet.size.rows;
    let k = sheet.size.columns;
    *l = [[0.0f64; MAX_COLUMNS]; MAX_COLUMNS];
    // kept as an index loop: row i reads the rows above it, and i is what a failed pivot tells
    for i in 0..k {
        let mut row = cholesky::left_of(columns, n, l, i);
        let square = traces::column_products(columns, columns, n, i, i);
        let pivot = square - cholesky::products(&row, &row, i);
        if pivot <= TOLERANCE * max(square, LEAST_NORMAL) {
            return Err(FailedPivot(i));
        }
        row[i] = sqrt(pivot);
        l[i] = row;
    }
    Ok(())
}

// (X'X)^-1 = L^-T L^-1 from the factor L of k columns. Matrix and k stay two: where a matrix travels so does the sheet, whose size has k already.
#[tactic(auto, unfolding(crate::specs::Inverse::inverse_from))]
pub fn inverse_of_factor(l: Matrix, k: usize) -> Matrix
    requires { k ≤ max_columns }
    ensures { result ≡ inverse_from l k }
{
    lower::square(&lower::lower_inverse(&l, k), k)
}

// Whether each entry of row i of the inverse is finite.
fn row_is_finite(inverse: &Matrix, k: usize, i: usize) -> bool
    requires { (i < max_columns) × (k ≤ max_columns) }
    ensures { result ≡ every k (λ j. finite (entry inverse.now i j)) }
{
    (0..k).all(|j| is_finite(inverse[i][j]))
}

// Whether each entry of the inverse is finite.
pub fn inverse_is_finite(inverse: Matrix, k: usize) -> bool
    requires { k ≤ max_columns }
    ensures { result ≡ finite_matrix k inverse }
{
    (0..k).all(|i| row_is_finite(&inverse, k, i))
}

// A v for the difference matrix A: diagonal 1, 2, .., 2, 1 and -1 beside it.
pub fn diff_matrix_times(v: &[f64], av: &mut [f64])
    requires { length v.now ≡ length av.old }
    ensures { av.new ≡ table (difference_at (λ s. v.now ‼ s) (length v.now)) (length v.now) }
{
    rows::update(av, |t, _| difference::difference_at(v, t));
}

// With fewer rows no law is worked out: that is the caller's.
pub const LEAST_FOR_LAW: usize = 5;

// How many numbers of A X find room on the stack that is cheap to clear: those of most sheets. And those of any.
const LITTLE_ROOM: usize = 256;

const MOST_ROOM: usize = MAX_COLUMNS * MAX_ROWS;

// The statistic's exact null mean and variance, by traces. A X is worked out once.
pub fn normal_law(sheet: Sheet, inverse: Matrix) -> NormalLaw
    ensures { result ≡ law_from sheet.entry.run.now sheet.entry.size.rows sheet.entry.size.columns inverse }
{
    if sheet.run.len() <= LITTLE_ROOM {
        traces::law_with::<LITTLE_ROOM>(sheet, &inverse)
    } else {
        traces::law_with::<MOST_ROOM>(sheet, &inverse)
    }
}

// Why a law does not serve: its mean or its variance is not finite, or its variance is not above 0.
#[derive(Clone, Copy, Debug, PartialEq, Eq)]
pub enum LawError {
    NotFinite,
    NotSpread,
}

// The law, where it serves.
pub fn check_law(law: NormalLaw) -> Result<NormalLaw, LawError>
    ensures { result ≡ law_answer law }
{
    if !is_finite(law.mean) {
        return Err(LawError::NotFinite);
    }
    if !is_finite(law.variance) {
        return Err(LawError::NotFinite);
    }
    if 0.0 < law.variance {
        return Ok(law);
    }
    Err(LawError::NotSpread)
}
