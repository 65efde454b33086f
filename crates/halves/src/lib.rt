// Symmetric matrices of which the lower triangle is kept, row after row: row i is i + 1 numbers, from i (i + 1) / 2 on.
//
// Rows that stand one after another are worked over a few at a time. From a row of `stride` numbers on they begin at 0, stride, 2 stride + 1, 3 stride + 3, .., for each is one
// number longer than the row before: the constants cost nothing in an address.
#![tactic(auto)]

ghost use Rattle.std.specs.Prelude.{◌≡◌, ◌+◌, ◌-◌, ◌*◌, ◌≤◌, ◌<◌, min, max, length};
ghost use Rattle.floats.specs.Words.{◌⊗◌, ◌‼◌};
ghost use Rattle.floats.specs.Sums.{sum_of};
ghost use Rattle.floats.specs.Tables.{table, triangle};
ghost use Rattle.floats.specs.Matrix.{half_entry};
ghost use Rattle.floats.specs.Limits.{max_rows};
ghost use Rattle.rows.specs.Terms.{sum_from};
ghost use Rattle.halves.specs.RowStarts.{row_start, ReachRows, ReachCorner};

// Where entry (i, j) stands, for j up to i. Row n of n rows would begin where they end.
pub fn place(i: usize, j: usize) -> usize
    requires { (i ≤ max_rows) × (j ≤ max_rows) }
    ensures { result ≡ triangle i + j }
{
    i * (i + 1) / 2 + j
}

// Of k numbers of row i, from column `from` on, how many stand up to the diagonal.
fn own_numbers(i: usize, from: usize, k: usize) -> usize
    requires { (i < max_rows) × (from + k ≤ max_rows) }
    ensures { result ≡ min k (i + 1 - from) }
{
    k.min((i + 1).saturating_sub(from))
}

// Down column i, from row `from` on, which stands below row i.
fn copy_column(row: &mut [f64], a: &[f64], i: usize, from: usize)
    requires { (i < max_rows) × (from + length row.old ≤ max_rows) × (0 < length row.old → i < from) × (triangle (from + length row.old) ≤ length a.now) }
    ensures { row.new ≡ table (λ s. half_entry a.now i (from + s)) (length row.old) }
{
    let mut at = place(from, i);
    for (s, x) in row.iter_mut().enumerate() {
        *x = a[at];
        at = at + (from + s + 1);
    }
}

// A stretch of row i of the whole matrix, from column `from` on: its own numbers up to the diagonal, then those of column i.
pub fn copy_row(row: &mut [f64], a: &[f64], i: usize, from: usize)
    requires { (i < max_rows) × (from + length row.old ≤ max_rows) × (triangle (i + 1) ≤ length a.now) × (triangle (from + length row.old) ≤ length a.now) }
    ensures { row.new ≡ table (λ s. half_entry a.now i (from + s)) (length row.old) }
{
    let own = own_numbers(i, from, row.len());
    let start = place(i, from);
    let end = start + own;
    rows::copy(&mut row[..own], &a[start..end]);
    copy_column(&mut row[own..], a, i, from + own);
}

// x plus four terms: number `at` of `xs` times number s of `w`, and so on, a row on in the one and 1 in the other. They are read in an order as that of `rows::four_terms`.
fn four_steps(x: f64, xs: &[f64], at: usize, stride: usize, w: &[f64], s: usize) -> f64
    requires { (stride ≤ 2 * max_rows) × (at + (3 * stride + 3) < length xs.now) × (s + 4 ≤ length w.now) }
    ensures { result ≡ sum_from x 4 (λ t. xs.now ‼ (at + row_start stride t) ⊗ w.now ‼ (s + t)) }
{
    let a = xs[at];
    let c = xs[at + 2 * stride + 1];
    let b = xs[at + stride];
    let d = xs[at + 3 * stride + 3];
    x + a * w[s] + b * w[s + 1] + c * w[s + 2] + d * w[s + 3]
}

// Adds the multiples of eight rows, one after another. Each number of `row` is read and written once for the eight.
fn add_eight(row: &mut [f64], xs: &[f64], stride: usize, w: &[f64])
    requires { (stride ≤ max_rows) × (ReachRows 8 stride (length row.old) (length xs.now)) × (8 ≤ length w.now) }
    ensures { row.new ≡ table (λ j. sum_from (row.old ‼ j) 8 (λ s. xs.now ‼ (row_start stride s + j) ⊗ w.now ‼ s)) (length row.old) }
{
    let fifth = 4 * stride + 6;
    for (j, x) in row.iter_mut().enumerate() {
        let a = four_steps(*x, xs, j, stride, w, 0);
        *x = four_steps(a, xs, fifth + j, stride + 4, w, 4);
    }
}

// To number j of `row`: number j of rows of a half, up to eight, the first `stride` numbers long, each times its number of `w`, first to last.
pub fn add_rows(row: &mut [f64], xs: &[f64], stride: usize, w: &[f64])
    requires { (stride ≤ max_rows) × (length w.now ≤ 8) × (ReachRows (length w.now) stride (length row.old) (length xs.now)) }
    ensures { row.new ≡ table (λ j. sum_from (row.old ‼ j) (length w.now) (λ s. xs.now ‼ (row_start stride s + j) ⊗ w.now ‼ s)) (length row.old) }
{
    if w.len() == 8 {
        add_eight(row, xs, stride, w);
        return;
    }
    let mut start = 0usize;
    for (t, &x) in w.iter().enumerate() {
        let end = start + row.len();
        rows::add_one(row, &xs[start..end], x);
        start = start + (stride + t);
    }
}

// The sums of the products of eight rows with `v`. They are read in an order as that of `rows::four_terms`.
fn eight_dots(xs: &[f64], stride: usize, v: &[f64]) -> [f64; 8]
    requires { (stride ≤ max_rows) × (ReachRows 8 stride (length v.now) (length xs.now)) }
    ensures { result ≡ table (λ s. sum_of (length v.now) (λ j. xs.now ‼ (row_start stride s + j) ⊗ v.now ‼ j)) 8 }
{
    // eight names and no array: they are summed in the order in which the compiler finds no address to work out
    let mut a = -0.0f64;
    let mut b = -0.0f64;
    let mut c = -0.0f64;
    let mut d = -0.0f64;
    let mut e = -0.0f64;
    let mut f = -0.0f64;
    let mut g = -0.0f64;
    let mut h = -0.0f64;
    for (j, &x) in v.iter().enumerate() {
        a = a + xs[j] * x;
        e = e + xs[4 * stride + 6 + j] * x;
        c = c + xs[2 * stride + 1 + j] * x;
        g = g + xs[6 * stride + 15 + j] * x;
        b = b + xs[stride + j] * x;
        f = f + xs[5 * stride + 10 + j] * x;
        d = d + xs[3 * stride + 3 + j] * x;
        h = h + xs[7 * stride + 21 + j] * x;
    }
    [a, b, c, d, e, f, g, h]
}

// The sums of the products of rows of a half, up to eight, the first `stride` numbers long, with `v`: one for each number of `p`.
pub fn row_dots(p: &mut [f64], xs: &[f64], stride: usize, v: &[f64])
    requires { (stride ≤ max_rows) × (length p.old ≤ 8) × (ReachRows (length p.old) stride (length v.now) (length xs.now)) }
    ensures { p.new ≡ table (λ s. sum_of (length v.now) (λ j. xs.now ‼ (row_start stride s + j) ⊗ v.now ‼ j)) (length p.old) }
{
    if p.len() == 8 {
        p.copy_from_slice(&eight_dots(xs, stride, v));
        return;
    }
    let mut start = 0usize;
    for (t, x) in p.iter_mut().enumerate() {
        *x = floats::sums::sum_products(xs, start, v, 0, v.len());
        start = start + (stride + t);
    }
}

// The corner where rows of a half, up to eight, meet their own columns: `xs` begins on the diagonal, in a row of `stride` numbers. To number s of `p`: the terms of row s of that
// square, each times its number of `v`, first to last. A row has its own terms up to the diagonal, and gives its term to each number before it.
pub fn add_corner(p: &mut [f64], xs: &[f64], stride: usize, v: &[f64])
    requires { (stride ≤ max_rows) × (length p.old ≤ 8) × (length v.now ≡ length p.old) × (ReachCorner (length p.old) stride (length xs.now)) }
    ensures { p.new ≡ table (λ s. sum_from (p.old ‼ s) (length p.old) (λ u. xs.now ‼ (row_start stride (max s u) + min s u) ⊗ v.now ‼ u)) (length p.old) }
{
    let mut start = 0usize;
    for (s, &x) in v.iter().enumerate() {
        let own = xs[start + s];
        let mut sum = p[s];
        // kept as an index loop: it reads two runs and changes a third at u
        for u in 0..s {
            let a = xs[start + u];
            sum = sum + a * v[u];
            p[u] = p[u] + a * x;
        }
        p[s] = sum + own * x;
        start = start + (stride + s);
    }
}
