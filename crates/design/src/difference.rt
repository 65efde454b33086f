// Entries of A v, and the difference columns of a whole run.
ghost use Rattle.std.specs.Prelude.{◌≡◌, ℕ, ◌+◌, ◌*◌, ◌≤◌, ◌<◌, length};
ghost use Rattle.floats.specs.Words.{◌‼◌};
ghost use Rattle.floats.specs.Tables.{table, with_part};
ghost use Rattle.design.specs.Difference.{difference_before, difference_at};
ghost use Rattle.design.specs.Law.{column_at, difference_of};

use columns::SheetSize;

// +0, and the difference of number t with the one before, where there is one.
fn difference_before(v: &[f64], t: usize) -> f64
    requires { t < length v.now }
    ensures { result ≡ difference_before (λ s. v.now ‼ s) t }
{
    if 0 < t {
        return 0.0 + (v[t] - v[t - 1]);
    }
    0.0
}

// Entry t of A v: that, and the difference with the one after, where there is one.
pub fn difference_at(v: &[f64], t: usize) -> f64
    requires { t < length v.now }
    ensures { result ≡ difference_at (λ s. v.now ‼ s) (length v.now) t }
{
    let s = difference_before(v, t);
    if t + 1 < v.len() {
        return s + (v[t] - v[t + 1]);
    }
    s
}

// A v for the n numbers v of `columns` from `from` on, at the same place of `differences`.
fn difference_column(columns: &[f64], from: usize, n: usize, differences: &mut [f64])
    requires { (from + n ≤ length columns.now) × (from + n ≤ length differences.old) }
    ensures { differences.new ≡ with_part from (from + n) differences.old (table (difference_at (λ t. columns.now ‼ (from + t)) n) n) }
{
    let end = from + n;
    super::diff_matrix_times(&columns[from..end], &mut differences[from..end]);
}

// The columns of A X, laid out as those of X.
pub fn difference_columns(columns: &[f64], size: SheetSize, differences: &mut [f64])
    requires { (size.columns * size.rows ≤ length columns.now) × (size.columns * size.rows ≤ length differences.old) }
    ensures differences_len_unchanged { length differences.new ≡ length differences.old }
    ensures by_index { (j t : ℕ) → j < size.columns → t < size.rows → column_at differences.new size.rows j t ≡ difference_of columns.now size.rows j t }
{
    let n = size.rows;
    let k = size.columns;
    // kept as an index loop: of what chunks_exact_mut lends out a proof knows no element
    for j in 0..k {
        difference_column(columns, j * n, n, differences);
    }
}
