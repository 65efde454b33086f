// Runs of numbers, each worked over first to last.
//
// The order of each sum is fixed; the order of the work is not. `add_terms` adds the terms of many sums at once, a
// term of each before the next, so that the compiler can take several numbers at once.
#![tactic(auto)]

ghost use Rattle.std.specs.Prelude.{◌≡◌, ℕ, ◌+◌, ◌*◌, ◌≤◌, ◌<◌, length, Float};
ghost use Rattle.floats.specs.Words.{◌⊕◌, ◌⊗◌, ◌‼◌};
ghost use Rattle.floats.specs.Tables.{table};
ghost use Rattle.floats.specs.Limits.{max_rows};
ghost use Rattle.rows.specs.Terms.{Reach, sum_from};

use floats::limits::MAX_ROWS;

// Each number of `row` becomes what `f` makes of its place and of it.
pub fn update<F: Fn(usize, f64) -> f64>(row: &mut [f64], f: F)
    requires { (j : ℕ) (x : Float) → j < length row.old → F.pre f j x }
    ensures kept { length row.new ≡ length row.old }
    ensures each { (j : ℕ) → j < length row.old → F.post f j (row.old ‼ j) (row.new ‼ j) }
{
    for (j, x) in row.iter_mut().enumerate() {
        *x = f(j, *x);
    }
}

// Every number of `row` becomes x.
pub fn fill(row: &mut [f64], x: f64)
    ensures { row.new ≡ table (λ j. x) (length row.old) }
{
    row.fill(x);
}

// The numbers of `row` become those of `xs`. By update: copy_from_slice compiles to memmove, which the archive for C does not ask of its callers.
pub fn copy(row: &mut [f64], xs: &[f64])
    requires { length row.old ≤ length xs.now }
    ensures { row.new ≡ table (λ j. xs.now ‼ j) (length row.old) }
{
    update(row, |j, _| xs[j]);
}

// Adds w times the numbers of `xs` to those of `row`.
pub fn add_one(row: &mut [f64], xs: &[f64], w: f64)
    requires { length row.old ≤ length xs.now }
    ensures { row.new ≡ table (λ j. row.old ‼ j ⊕ xs.now ‼ j ⊗ w) (length row.old) }
{
    update(row, |j, x| x + xs[j] * w);
}

// x plus four terms: number `at` of `xs` times number s of `w`, and so on, `stride` on in the one and 1 in the other.
// They are read in an order in which the compiler finds no address to work out in a loop. Kept beside `halves::four_steps`: one function over
// the places would ask a clause of every closure that gives them, and be longer than both.
fn four_terms(x: f64, xs: &[f64], at: usize, stride: usize, w: &[f64], s: usize) -> f64
    requires { (at + 3 * stride < length xs.now) × (s + 4 ≤ length w.now) }
    ensures { result ≡ sum_from x 4 (λ t. xs.now ‼ (at + t * stride) ⊗ w.now ‼ (s + t)) }
{
    let a = xs[at];
    let c = xs[at + 2 * stride];
    let b = xs[at + stride];
    let d = xs[at + 3 * stride];
    x + a * w[s] + b * w[s + 1] + c * w[s + 2] + d * w[s + 3]
}

// Adds four multiples FOURS times, one after another, of the runs in `xs` from run t on. Each number of `row` is read
// and written once for them all.
fn add_next<const FOURS: usize>(row: &mut [f64], xs: &[f64], stride: usize, w: &[f64], t: usize)
    requires { (Reach (length w.now) stride (length row.old) (length xs.now)) × (t + 4 * FOURS ≤ length w.now) }
    ensures { row.new ≡ table (λ j. sum_from (row.old ‼ j) (4 * FOURS) (λ s. xs.now ‼ ((t + s) * stride + j) ⊗ w.now ‼ (t + s))) (length row.old) }
{
    for (j, x) in row.iter_mut().enumerate() {
        let mut sum = *x;
        // kept as a count: the groups of four runs stand apart, in no slice that chunks walk
        for q in 0..FOURS {
            sum = four_terms(sum, xs, (t + 4 * q) * stride + j, stride, w, t + 4 * q);
        }
        *x = sum;
    }
}

// To number j of `row`: number j of the runs in `xs`, each `stride` on from the one before, each times its number of
// `w`, first to last. No type for `xs` and `stride`, here and in halves: it would be made anew at each call, from a part of a room.
pub fn add_terms(row: &mut [f64], xs: &[f64], stride: usize, w: &[f64])
    requires { Reach (length w.now) stride (length row.old) (length xs.now) }
    ensures { row.new ≡ table (λ j. sum_from (row.old ‼ j) (length w.now) (λ s. xs.now ‼ (s * stride + j) ⊗ w.now ‼ s)) (length row.old) }
{
    let k = w.len();
    let mut t = 0usize;
    // kept as a while: a turn takes sixteen runs, eight or one
    while t < k {
        if stride == MAX_ROWS && t + 16 <= k {
            add_next::<4>(row, xs, MAX_ROWS, w, t);
            t = t + 16;
        } else if t + 8 <= k {
            add_next::<2>(row, xs, stride, w, t);
            t = t + 8;
        } else {
            let start = t * stride;
            let end = start + row.len();
            add_one(row, &xs[start..end], w[t]);
            t = t + 1;
        }
    }
}
