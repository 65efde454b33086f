// Sums, rows and matrices, each by what stands at an index.
ghost use Rattle.std.specs.Prelude.{◌≡◌, ℕ, ◌<◌, ◌≤◌, Float};
ghost use Rattle.floats.specs.Limits.{max_columns};
ghost use Rattle.floats.specs.Sums.{sum_of};
ghost use Rattle.design.specs.Matrix.{row, matrix};

use super::Matrix;
use floats::limits::MAX_COLUMNS;

// term(0), plus term(1), .., plus term(n - 1), from -0.
pub fn sum_of<F: Fn(usize) -> f64>(n: usize, term: F) -> f64
    requires { (t : ℕ) → t < n → F.pre term t }
    ensures { (f : ℕ → Float) → ((t : ℕ) (x : Float) → t < n → F.post term t x → x ≡ f t) → result ≡ sum_of n f }
{
    let mut s = -0.0f64;
    // kept as a loop: tried fold over 0..n, which asks that term may be called at every index
    for t in 0..n {
        s = s + term(t);
    }
    s
}

// The row with these first k numbers, and +0 beyond.
pub fn row<F: Fn(usize) -> f64>(k: usize, number: F) -> [f64; MAX_COLUMNS]
    requires { (k ≤ max_columns) × ((j : ℕ) → j < k → F.pre number j) }
    ensures { (f : ℕ → Float) → ((j : ℕ) (x : Float) → j < k → F.post number j x → x ≡ f j) → result ≡ row k f }
{
    let mut row = [0.0f64; MAX_COLUMNS];
    // kept as an index loop: array::from_fn makes all eight places, and a call of few columns pays for it
    for j in 0..k {
        row[j] = number(j);
    }
    row
}

// The matrix with these entries in its first k rows and columns, and +0 beyond.
pub fn matrix<F: Fn(usize, usize) -> f64>(k: usize, entry: F) -> Matrix
    requires { (k ≤ max_columns) × ((i j : ℕ) → i < k → j < k → F.pre entry i j) }
    ensures { (f : ℕ → ℕ → Float) → ((i j : ℕ) (x : Float) → i < k → j < k → F.post entry i j x → x ≡ f i j) → result ≡ matrix k f }
{
    let mut rows = [[0.0f64; MAX_COLUMNS]; MAX_COLUMNS];
    // kept as an index loop: array::from_fn makes all eight rows
    for i in 0..k {
        rows[i] = row(
            k,
            |j| -> f64
                requires { F.pre entry i j }
                ensures { F.post entry i j result }
            { entry(i, j) },
        );
    }
    rows
}
