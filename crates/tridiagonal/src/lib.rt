// A symmetric matrix made tridiagonal in place, by Householder's reflections, and its two bands. A run holds the lower triangle.
#![tactic(auto)]

ghost use Rattle.std.specs.Prelude.{◌≡◌, ◌++◌, ◌≤◌, ◌<◌, length, drop};
ghost use Rattle.floats.specs.Matrix.{entry, whole, half_of};
ghost use Rattle.floats.specs.Limits.{Square};
ghost use Rattle.tridiagonal.specs.Reflection.{tridiagonal_of};
ghost use Rattle.tridiagonal.specs.Bands.{diagonal_of, coupling, couplings_of};

mod reflection;
mod vectors;

use floats::limits::MAX_ROWS;

// The symmetric matrix of n rows in `a`, made tridiagonal.
// kept as a run and n, as bands is: a caller has the two, and a struct of them would be made for the one call
pub fn tridiagonalize(a: &mut [f64], n: usize)
    requires { Square n a.old }
    ensures { a.new ≡ half_of n (tridiagonal_of n (whole n a.old)) }
{
    if n < 2 {
        return;
    }
    let mut v = [0.0f64; MAX_ROWS];
    let mut p = [0.0f64; MAX_ROWS];
    // kept as an index loop: c is a column of the whole matrix, and no run holds the columns
    for c in 0..n - 2 {
        let below = n - (c + 1);
        reflection::reflect(a, n, c, &mut v[..below], &mut p[..below]);
    }
}

// The lower triangle of a symmetric matrix of n rows.
#[derive(Clone, Copy)]
struct Triangle<'a> {
    a: &'a [f64],
    n: usize,
    ghost square: { Square n a.now },
}

impl<'a> Triangle<'a> {
    // Entry (i, i).
    fn diagonal(&self, i: usize) -> f64
        requires { i < self.now.n }
        ensures { result ≡ entry self.now.n (whole self.now.n self.now.a.now) i i }
    {
        self.a[halves::place(i, i)]
    }

    // What couples row i and the next.
    fn coupling(&self, i: usize) -> f64
        requires { i < self.now.n }
        ensures { result ≡ coupling self.now.n (whole self.now.n self.now.a.now) i }
    {
        if i + 1 < self.n {
            self.a[halves::place(i + 1, i)]
        } else {
            0.0
        }
    }
}

// The diagonal into the first n numbers of `d` and the couplings into those of `e`; the rest of both stays.
pub fn bands(a: &[f64], n: usize, d: &mut [f64], e: &mut [f64])
    requires { (Square n a.now) × (n ≤ length d.old) × (n ≤ length e.old) }
    ensures d_after { d.new ≡ diagonal_of n (whole n a.now) ++ drop n d.old }
    ensures e_after { e.new ≡ couplings_of n (whole n a.now) ++ drop n e.old }
{
    let lower = Triangle { a, n };
    rows::update(&mut d[..n], |i, _| lower.diagonal(i));
    rows::update(&mut e[..n], |i, _| lower.coupling(i));
}
