// Runs of numbers, each worked over first to last, so that the compiler can take several numbers at once.
ghost use Rattle.std.specs.Prelude.{◌≡◌, ◌≤◌, length};
ghost use Rattle.floats.specs.Words.{◌⊕◌, ◌⊖◌, ◌⊗◌, ◌⊘◌, ◌‼◌, two};
ghost use Rattle.floats.specs.Tables.{table};

// Every number of `row`, doubled and over w.
pub fn double_over(row: &mut [f64], w: f64)
    ensures { row.new ≡ table (λ j. two ⊗ row.old ‼ j ⊘ w) (length row.old) }
{
    rows::update(row, |_, x| 2.0 * x / w);
}

// Takes k times the numbers of `xs` from those of `row`.
pub fn take_multiple(row: &mut [f64], k: f64, xs: &[f64])
    requires { length row.old ≤ length xs.now }
    ensures { row.new ≡ table (λ j. row.old ‼ j ⊖ k ⊗ xs.now ‼ j) (length row.old) }
{
    rows::update(row, |j, x| x - k * xs[j]);
}

// Takes x times the numbers of `xs` plus y times those of `ys` from those of `row`.
pub fn take_multiples(row: &mut [f64], x: f64, xs: &[f64], y: f64, ys: &[f64])
    requires { (length row.old ≤ length xs.now) × (length row.old ≤ length ys.now) }
    ensures { row.new ≡ table (λ j. row.old ‼ j ⊖ (x ⊗ xs.now ‼ j ⊕ y ⊗ ys.now ‼ j)) (length row.old) }
{
    rows::update(row, |j, z| z - (x * xs[j] + y * ys[j]));
}
