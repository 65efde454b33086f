// Rows of the Cholesky factor of X'X.
ghost use Rattle.std.specs.Prelude.{◌≡◌, ◌+◌, ◌*◌, ◌≤◌, ◌<◌, length};
ghost use Rattle.floats.specs.Limits.{max_columns};
ghost use Rattle.floats.specs.Sums.{sum_of};
ghost use Rattle.floats.specs.Words.{◌⊗◌, ◌‼◌};
ghost use Rattle.design.specs.Factor.{left_of};

use super::Matrix;
use super::tables::sum_of;
use super::traces::column_products;
use floats::limits::MAX_COLUMNS;

// The first j products of two rows, summed.
pub fn products(a: &[f64; MAX_COLUMNS], b: &[f64; MAX_COLUMNS], j: usize) -> f64
    requires { j ≤ max_columns }
    ensures { result ≡ sum_of j (λ m. a.now ‼ m ⊗ b.now ‼ m) }
{
    sum_of(j, |m| a[m] * b[m])
}

// Row i of the factor left of the diagonal, from the rows above it.
pub fn left_of(columns: &[f64], n: usize, l: &Matrix, i: usize) -> [f64; MAX_COLUMNS]
    requires { (i < max_columns) × (i * n + n ≤ length columns.now) }
    ensures { result ≡ left_of columns.now n l.now i }
{
    let mut row = [0.0f64; MAX_COLUMNS];
    // kept as an index loop: number j reads the numbers of the row before it
    for j in 0..i {
        row[j] = (column_products(columns, columns, n, i, j) - products(&row, &l[j], j)) / l[j][j];
    }
    row
}
