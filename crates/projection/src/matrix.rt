// Symmetric matrices of n rows, of which a lent run holds the lower triangle. n stands beside the run, whose length is n (n + 1) / 2.
ghost use Rattle.std.specs.Prelude.{◌≡◌, cond, ◌+◌, ◌*◌, ◌≤◌, ◌<◌, eqb, length};
ghost use Rattle.std.specs.Float.Ieee.{neg};
ghost use Rattle.floats.specs.Words.{◌⊕◌, ◌⊖◌, ◌⊗◌, ◌‼◌, plus_zero, one};
ghost use Rattle.floats.specs.Tables.{table, triangle, half, with_part};
ghost use Rattle.floats.specs.Matrix.{half_entry};
ghost use Rattle.floats.specs.Limits.{max_rows, Square};
ghost use Rattle.rows.specs.Terms.{Reach, sum_from};

// Adds to row i, up to the diagonal, the runs in `xs`, each `stride` on from the one before, each times its number of
// `w`.
pub fn add_to_row(a: &mut [f64], i: usize, xs: &[f64], stride: usize, w: &[f64])
    requires { (i < max_rows) × (triangle (i + 1) ≤ length a.old) × (Reach (length w.now) stride (i + 1) (length xs.now)) }
    ensures { a.new ≡ with_part (triangle i) (triangle i + (i + 1)) a.old (table (λ c. sum_from (a.old ‼ (triangle i + c)) (length w.now) (λ s. xs.now ‼ (s * stride + c) ⊗ w.now ‼ s)) (i + 1)) }
{
    let start = halves::place(i, 0);
    let end = start + (i + 1);
    rows::add_terms(&mut a[start..end], xs, stride, w);
}

// Every number with the other sign.
pub fn negate(a: &mut [f64])
    ensures { a.new ≡ table (λ p. neg (a.old ‼ p)) (length a.old) }
{
    rows::update(a, |_, x| -x);
}

// Adds 1 to the entries on the diagonal.
pub fn add_identity(a: &mut [f64], n: usize)
    requires { Square n a.old }
    ensures { a.new ≡ half (λ i j. cond (eqb i j) (one ⊕ half_entry a.old i j) (half_entry a.old i j)) n }
{
    // kept as an index loop: down the diagonal of a triangle the places lie further and further apart, so step_by does not fit
    for i in 0..n {
        let p = halves::place(i, i);
        a[p] = 1.0 + a[p];
    }
}

// The numbers of `row` become the differences of `xs` and `ys`, each added to +0.
pub fn set_difference(row: &mut [f64], xs: &[f64], ys: &[f64])
    requires { (length row.old ≤ length xs.now) × (length row.old ≤ length ys.now) }
    ensures { row.new ≡ table (λ j. plus_zero ⊕ (xs.now ‼ j ⊖ ys.now ‼ j)) (length row.old) }
{
    rows::update(row, |j, _| 0.0 + (xs[j] - ys[j]));
}

// Adds the differences of `xs` and `ys` to the numbers of `row`.
pub fn add_difference(row: &mut [f64], xs: &[f64], ys: &[f64])
    requires { (length row.old ≤ length xs.now) × (length row.old ≤ length ys.now) }
    ensures { row.new ≡ table (λ j. row.old ‼ j ⊕ (xs.now ‼ j ⊖ ys.now ‼ j)) (length row.old) }
{
    rows::update(row, |j, x| x + (xs[j] - ys[j]));
}
