// Householder's reflection of one column, in place, over the lower triangle of a symmetric matrix.
//
// The order of each sum is the Rust's; the order of the work is not. Rows go in groups of eight by their index. S v is
// worked out group by group: each row of the group gives a term to every number before the group, for it is a column
// there; the numbers of the group are sums along its rows up to the group, and then over the corner where its rows
// meet their own columns. So each number still gets its terms first to last.
ghost use Rattle.std.specs.Prelude.{◌≡◌, cond, ◌&&◌, ◌++◌, ◌+◌, ◌-◌, ◌*◌, ◌≤◌, ◌<◌, eqb, ltb, length, drop};
ghost use Rattle.std.specs.Float.Ieee.{lt, neg};
ghost use Rattle.floats.specs.Words.{◌⊗◌, ◌‼◌, plus_zero};
ghost use Rattle.floats.specs.Sums.{sum_of};
ghost use Rattle.floats.specs.Tables.{table, half, with_part};
ghost use Rattle.floats.specs.Matrix.{half_entry, whole, half_of};
ghost use Rattle.floats.specs.Limits.{Square};
ghost use Rattle.rows.specs.Terms.{sum_from};
ghost use Rattle.tridiagonal.specs.Reflection.{below, edge, block, image_of, correction_of, column_of, reflected_entry, reflected};

// Where row i's group ends.
fn group_end(n: usize, i: usize) -> usize
    requires { i < n }
    ensures { (i < result) × (result ≤ n) × (result ≤ i + 8) }
{
    let left = 8 - i % 8;
    if n - i <= left { n } else { i + left }
}

// The norm, and minus that where `first` is above 0.
fn signed(norm: f64, first: f64) -> f64
    ensures { result ≡ cond (lt plus_zero first) (neg norm) norm }
{
    if first > 0.0 { -norm } else { norm }
}

// S, the block of rows and columns c + 1 on of a symmetric matrix of n rows, and a vector v with a number for each of its rows.
// kept: p is no field, for each method changes it and would have to say that the field is the same run still, more than its length
#[derive(Clone, Copy)]
struct Block<'a> {
    a: &'a [f64],
    n: usize,
    c: usize,
    v: &'a [f64],
    ghost shape: { (Square n a.now) × (c + 1 < n) × (length v.now ≡ below n c) },
}

impl<'a> Block<'a> {
    // Rows r to next - 1 of S, each times its number of v, added to the numbers before r.
    fn add_group(&self, p: &mut [f64], r: usize, next: usize)
        requires { (length p.old ≡ below self.now.n self.now.c) × (r < next) × (next ≤ r + 8) × (next ≤ below self.now.n self.now.c) }
        ensures { p.new ≡ table (λ i. sum_from (p.old ‼ i) (next - r) (λ s. half_entry self.now.a.now (self.now.c + 1 + (r + s)) (self.now.c + 1 + i) ⊗ self.now.v.now ‼ (r + s))) r ++ drop r p.old }
    {
        let start = halves::place(self.c + 1 + r, self.c + 1);
        halves::add_rows(
            &mut p[..r],
            &self.a[start..],
            self.c + 2 + r,
            &self.v[r..next],
        );
    }

    // Numbers r to next - 1 become the sums of the first `next` terms along their rows of S.
    fn sum_group(&self, p: &mut [f64], r: usize, next: usize)
        requires { (length p.old ≡ below self.now.n self.now.c) × (r < next) × (next ≤ r + 8) × (next ≤ below self.now.n self.now.c) }
        ensures { p.new ≡ with_part r next p.old (table (λ s. sum_of next (λ j. half_entry self.now.a.now (self.now.c + 1 + (r + s)) (self.now.c + 1 + j) ⊗ self.now.v.now ‼ j)) (next - r)) }
    {
        let start = halves::place(self.c + 1 + r, self.c + 1);
        let corner = start + r;
        halves::row_dots(
            &mut p[r..next],
            &self.a[start..],
            self.c + 2 + r,
            &self.v[..r],
        );
        halves::add_corner(
            &mut p[r..next],
            &self.a[corner..],
            self.c + 2 + r,
            &self.v[r..next],
        );
    }

    // S v, a group of rows at a time.
    fn image(&self, p: &mut [f64])
        requires { length p.old ≡ below self.now.n self.now.c }
        ensures { p.new ≡ image_of self.now.n self.now.c (whole self.now.n self.now.a.now) self.now.v.now }
    {
        let m = self.v.len();
        // kept as a while: the first and the last group are of fewer rows, so no fixed step fits
        let mut r = 0usize;
        while r < m {
            let next = group_end(self.n, self.c + 1 + r) - (self.c + 1);
            self.add_group(p, r, next);
            self.sum_group(p, r, next);
            r = next;
        }
    }
}

// q, from S v.
fn correct(p: &mut [f64], v: &[f64], vv: f64)
    requires { length p.old ≡ length v.now }
    ensures { p.new ≡ correction_of v.now p.old vv }
{
    super::vectors::double_over(p, vv);
    let k = floats::sums::sum_products(v, 0, p, 0, v.len()) / vv;
    super::vectors::take_multiple(p, k, v);
}

// S - (v q' + q v'), each row up to the diagonal.
// kept as functions of a, n and c, from here on: methods of a struct over a run that they change would each have to say
// that the struct holds the same run, n and c still, more than the two facts of a and c
fn update(a: &mut [f64], n: usize, c: usize, v: &[f64], q: &[f64])
    requires { (Square n a.old) × (length v.now ≡ below n c) × (length q.now ≡ below n c) × (c + 1 < n) }
    ensures { a.new ≡ half (λ i j. cond (ltb c i && ltb c j) (block n c (whole n a.old) v.now q.now i j) (half_entry a.old i j)) n }
{
    // kept as an index loop: each row of a triangle is a number longer than the one before, so chunks do not fit
    for t in 0..v.len() {
        let start = halves::place(c + 1 + t, c + 1);
        let end = start + (t + 1);
        super::vectors::take_multiples(&mut a[start..end], v[t], q, q[t], v);
    }
}

// Column c below the diagonal becomes alpha, and then zeros.
fn lead_column(a: &mut [f64], n: usize, c: usize, alpha: f64)
    requires { (Square n a.old) × (c + 1 < n) }
    ensures { a.new ≡ half (λ i j. cond (eqb j c && ltb c i) (edge c alpha i) (half_entry a.old i j)) n }
{
    // kept as an index loop: down a column of a triangle the places lie further and further apart, so step_by does not fit
    for i in c + 2..n {
        let place = halves::place(i, c);
        a[place] = 0.0;
    }
    let first = halves::place(c + 1, c);
    a[first] = alpha;
}

// Reflection c; `v` and `p` are room for two vectors.
pub fn reflect(a: &mut [f64], n: usize, c: usize, v: &mut [f64], p: &mut [f64])
    requires { (Square n a.old) × (c + 1 < n) × (length v.old ≡ below n c) × (length p.old ≡ below n c) }
    ensures { a.new ≡ half_of n (reflected n c (whole n a.old)) }
{
    // column c below the diagonal is row c beyond it
    halves::copy_row(v, a, c, c + 1);
    let norm = roots::sqrt(floats::sums::sum_squares(v));
    if norm == 0.0 {
        return;
    }
    let alpha = signed(norm, v[0]);
    v[0] = v[0] - alpha;
    let vv = floats::sums::sum_squares(v);
    if vv == 0.0 {
        return;
    }
    Block { a, n, c, v }.image(p);
    correct(p, v, vv);
    update(a, n, c, v, p);
    lead_column(a, n, c, alpha);
}
