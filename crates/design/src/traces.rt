// Products of runs and of matrices, their traces, and the law that those give.
ghost use Rattle.std.specs.Prelude.{◌≡◌, ◌+◌, ◌*◌, ◌≤◌, ◌<◌, length};
ghost use Rattle.floats.specs.Limits.{max_rows, max_columns};
ghost use Rattle.floats.specs.Sums.{sum_of, sum_products};
ghost use Rattle.floats.specs.Words.{◌⊗◌};
ghost use Rattle.design.specs.Matrix.{entry, matrix, product_of, trace_of};
ghost use Rattle.design.specs.Law.{law_by, law_from};

use super::Matrix;
use super::tables::{matrix, sum_of};
use columns::{Sheet, SheetSize};
use elementary::NormalLaw;

// The products of column i of u and column j of v, summed: entry (i, j) of U' V.
pub fn column_products(u: &[f64], v: &[f64], n: usize, i: usize, j: usize) -> f64
    requires { (i * n + n ≤ length u.now) × (j * n + n ≤ length v.now) }
    ensures { result ≡ sum_products u.now (i * n) v.now (j * n) n }
{
    floats::sums::sum_products(u, i * n, v, j * n, n)
}

// U' V, each of columns of that size. No type for both: u is the sheet's run once, and once the lent room, which is longer.
pub fn cross(u: &[f64], v: &[f64], size: SheetSize) -> Matrix
    requires { (size.columns ≤ max_columns) × (size.columns * size.rows ≤ length u.now) × (size.columns * size.rows ≤ length v.now) }
    ensures { result ≡ matrix size.columns (λ i j. sum_products u.now (i * size.rows) v.now (j * size.rows) size.rows) }
{
    let n = size.rows;
    matrix(size.columns, |i, j| column_products(u, v, n, i, j))
}

// Entry (i, j) of a b.
fn product_entry(a: &Matrix, b: &Matrix, k: usize, i: usize, j: usize) -> f64
    requires { (i < k) × (j < k) × (k ≤ max_columns) }
    ensures { result ≡ sum_of k (λ m. entry a.now i m ⊗ entry b.now m j) }
{
    sum_of(k, |m| a[i][m] * b[m][j])
}

// a b
pub fn product(a: &Matrix, b: &Matrix, k: usize) -> Matrix
    requires { k ≤ max_columns }
    ensures { result ≡ product_of k a.now b.now }
{
    matrix(k, |i, j| product_entry(a, b, k, i, j))
}

// The trace of a.
pub fn trace(a: &Matrix, k: usize) -> f64
    requires { k ≤ max_columns }
    ensures { result ≡ trace_of k a.now }
{
    sum_of(k, |i| a[i][i])
}

// The trace of a b; only the diagonal is worked out.
pub fn trace_of_product(a: &Matrix, b: &Matrix, k: usize) -> f64
    requires { k ≤ max_columns }
    ensures { result ≡ trace_of k (product_of k a.now b.now) }
{
    sum_of(k, |i| product_entry(a, b, k, i, i))
}

// The law from the traces of B, C and B².
fn law_by(b: f64, c: f64, bb: f64, size: SheetSize) -> NormalLaw
    requires { (size.rows ≤ max_rows) × (size.columns ≤ max_columns) }
    ensures { result ≡ law_by b c bb size.rows size.columns }
{
    let rows = size.rows as f64;
    let free = rows - size.columns as f64;
    let p = 2.0 * (rows - 1.0) - b;
    let q = 2.0 * (3.0 * rows - 4.0) - 2.0 * c + bb;
    let mean = p / free;
    NormalLaw {
        mean,
        variance: 2.0 / (free * (free + 2.0)) * (q - p * mean),
    }
}

// The law of the columns; A X stands in room for ROOM numbers on the stack.
pub fn law_with<const ROOM: usize>(sheet: Sheet, inverse: &Matrix) -> NormalLaw
    requires { (length sheet.run.now ≤ ROOM) × (ROOM ≤ max_columns * max_rows) }
    ensures { result ≡ law_from sheet.entry.run.now sheet.entry.size.rows sheet.entry.size.columns inverse.now }
{
    let size = sheet.size;
    let k = size.columns;
    let mut room = [0.0f64; ROOM];
    super::difference::difference_columns(sheet.run, size, &mut room);
    let b = product(&cross(sheet.run, &room, size), inverse, k);
    let c = cross(&room, &room, size);
    law_by(
        trace(&b, k),
        trace_of_product(&c, inverse, k),
        trace_of_product(&b, &b, k),
        size,
    )
}
