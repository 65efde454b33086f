// L^-1 of a lower triangle L, and R' R of a lower triangle R.
ghost use Rattle.std.specs.Prelude.{◌≡◌, ◌+◌, ◌-◌, ◌≤◌, ◌<◌};
ghost use Rattle.floats.specs.Limits.{max_columns};
ghost use Rattle.floats.specs.Sums.{sum_of};
ghost use Rattle.floats.specs.Words.{◌⊗◌};
ghost use Rattle.design.specs.Matrix.{entry, row, matrix};
ghost use Rattle.design.specs.Inverse.{lower_entry, lower_inverse, square_entry};

use super::Matrix;
use super::tables::{matrix, row, sum_of};
use floats::limits::MAX_COLUMNS;

// l(i, j) r(j, j) + .. + l(i, i-1) r(i-1, j)
fn above(l: &Matrix, r: &Matrix, i: usize, j: usize) -> f64
    requires { (i < max_columns) × (j ≤ i) }
    ensures { result ≡ sum_of (i - j) (λ m. entry l.now i (j + m) ⊗ entry r.now (j + m) j) }
{
    sum_of(i - j, |m| l[i][j + m] * r[j + m][j])
}

// Number j of row i of L^-1, from the rows above it.
fn lower_entry(l: &Matrix, r: &Matrix, i: usize, j: usize) -> f64
    requires { (i < max_columns) × (j ≤ i) }
    ensures { result ≡ lower_entry l.now r.now i j }
{
    let diagonal = l[i][i];
    if j < i {
        -above(l, r, i, j) / diagonal
    } else {
        1.0 / diagonal
    }
}

// Row i of L^-1, from the rows above it.
fn lower_row(l: &Matrix, r: &Matrix, i: usize) -> [f64; MAX_COLUMNS]
    requires { i < max_columns }
    ensures { result ≡ row (i + 1) (lower_entry l.now r.now i) }
{
    row(i + 1, |j| lower_entry(l, r, i, j))
}

// The first k rows of L^-1.
pub fn lower_inverse(l: &Matrix, k: usize) -> Matrix
    requires { k ≤ max_columns }
    ensures { result ≡ lower_inverse l.now k }
{
    let mut r = [[0.0f64; MAX_COLUMNS]; MAX_COLUMNS];
    // kept as an index loop: row i reads the rows above it
    for i in 0..k {
        r[i] = lower_row(l, &r, i);
    }
    r
}

// r(m, i) r(m, j) summed from m = max(i, j) on.
fn square_entry(r: &Matrix, k: usize, i: usize, j: usize) -> f64
    requires { (i < k) × (j < k) × (k ≤ max_columns) }
    ensures { result ≡ square_entry r.now k i j }
{
    let from = i.max(j);
    sum_of(k - from, |m| r[from + m][i] * r[from + m][j])
}

// R' R
pub fn square(r: &Matrix, k: usize) -> Matrix
    requires { k ≤ max_columns }
    ensures { result ≡ matrix k (square_entry r.now k) }
{
    matrix(k, |i, j| square_entry(r, k, i, j))
}
