// M A M in the matrix room, from the columns and (X'X)^-1. Of each symmetric matrix the lower triangle is kept.
//
// The order of each sum is the Rust's; the order of the work is not. A row of a product of two matrices is worked
// out as a sum of rows, each times its number, so the inner loop runs along rows; M A M is made of blocks of
// sixteen terms, each added to every entry before the next. Each entry still gets its terms first to last.
#![tactic(auto)]

ghost use Rattle.std.specs.Prelude.{◌≡◌, cond, ◌++◌, ℕ, ◌+◌, ◌-◌, ◌*◌, ◌≤◌, ◌<◌, eqb, length, take, drop};
ghost use Rattle.floats.specs.Words.{◌⊗◌, ◌‼◌};
ghost use Rattle.floats.specs.Sums.{sum_of};
ghost use Rattle.floats.specs.Search.{first_bad};
ghost use Rattle.floats.specs.Tables.{table, triangle, half, part};
ghost use Rattle.floats.specs.Matrix.{half_entry, half_of};
ghost use Rattle.floats.specs.Limits.{max_rows, max_columns, Square, Squares, matrix_room};
ghost use Rattle.rows.specs.Terms.{sum_from};
ghost use Rattle.design.specs.Difference.{difference_at};
ghost use Rattle.projection.specs.Loaded.{Loaded};
ghost use Rattle.projection.specs.Projection.{weight, hat, residual, product, residual_maker, mam_of};

use columns::Sheet;
use design::Matrix;
use floats::limits::{MAX_COLUMNS, MAX_ROWS};

mod matrix;

// Terms of a sum over the rows of M: `count` of them, from term `first` on.
#[derive(Clone, Copy)]
struct Block {
    first: usize,
    count: usize,
}

// M, of n rows, by its lower triangle.
#[derive(Clone, Copy)]
struct Maker<'a> {
    m: &'a [f64],
    n: usize,
    ghost square: { Square n m.now },
}

impl<'a> Maker<'a> {
    // Row t of A M: three rows of M make it. `before` and `here` hold rows t - 1 and t of M, and are then a row on, as far as there is one.
    fn differences(&self, w: &mut [f64], t: usize, before: &mut [f64], here: &mut [f64])
        requires { (length w.old ≡ self.now.n) × (t < self.now.n) × (before.old ≡ table (λ j. half_entry self.now.m.now (t - 1) j) self.now.n) × (here.old ≡ table (λ j. half_entry self.now.m.now t j) self.now.n) }
        ensures w_after { w.new ≡ table (λ j. difference_at (λ s. half_entry self.now.m.now s j) self.now.n t) self.now.n }
        ensures before_after { t + 1 < self.now.n → (before.new ≡ table (λ j. half_entry self.now.m.now t j) self.now.n) × (here.new ≡ table (λ j. half_entry self.now.m.now (t + 1) j) self.now.n) }
    {
        if t > 0 {
            matrix::set_difference(w, here, before);
        } else {
            rows::fill(w, 0.0);
        }
        if t + 1 < self.n {
            rows::copy(before, here);
            halves::copy_row(here, self.m, t + 1, 0);
            matrix::add_difference(w, before, here);
        }
    }

    // The rows of A M that a block of terms takes, each `stride` on from the one before in `w`; `before` and `here` are room for two rows of M.
    fn load_rows(
        &self,
        w: &mut [f64],
        stride: usize,
        before: &mut [f64],
        here: &mut [f64],
        block: Block,
    )
        requires { (self.now.n ≤ stride) × (block.count * stride ≤ length w.old) × (block.first < self.now.n) × (block.first + block.count ≤ self.now.n) × (length before.old ≡ self.now.n) × (length here.old ≡ self.now.n) }
        ensures { Loaded stride self.now.n block.first self.now.m.now block.count w.new }
    {
        let n = self.n;
        let t = block.first;
        let k = block.count;
        halves::copy_row(before, self.m, t.saturating_sub(1), 0);
        halves::copy_row(here, self.m, t, 0);
        // kept as an index loop: after chunks_mut a proof knows no number of w
        for s in 0..k {
            let start = s * stride;
            let end = start + n;
            self.differences(&mut w[start..end], t + s, before, here);
        }
    }
}

// A block of terms of M A M: M, and in `w` the rows of A M that it takes, each `stride` on from the one before.
#[derive(Clone, Copy)]
struct Rows<'a> {
    maker: Maker<'a>,
    w: &'a [f64],
    stride: usize,
    block: Block,
    ghost within: { (maker.n ≤ stride) × (block.count * stride ≤ length w.now) × (block.first + block.count ≤ maker.n) × (block.count ≤ 16) },
    ghost loaded: { Loaded stride maker.n block.first maker.m.now block.count w.now },
}

impl<'a> Rows<'a> {
    // Adds the terms to row i of M A M, up to the diagonal: the rows, each times its number of row i of M.
    fn add_to_row(&self, mam: &mut [f64], i: usize)
        requires { (Square self.now.maker.n mam.old) × (i < self.now.maker.n) }
        ensures { mam.new ≡ half (λ r c. cond (eqb r i) (sum_from (half_entry mam.old r c) self.now.block.count (λ s. self.now.w.now ‼ (s * self.now.stride + c) ⊗ half_entry self.now.maker.m.now i (self.now.block.first + s))) (half_entry mam.old r c)) self.now.maker.n }
    {
        let k = self.block.count;
        let mut u = [0.0f64; 16];
        halves::copy_row(&mut u[..k], self.maker.m, i, self.block.first);
        matrix::add_to_row(mam, i, self.w, self.stride, &u[..k]);
    }

    // Adds the terms to every entry of M A M.
    fn add(&self, mam: &mut [f64])
        requires { Square self.now.maker.n mam.old }
        ensures { mam.new ≡ half (λ i j. sum_from (half_entry mam.old i j) self.now.block.count (λ s. half_entry self.now.maker.m.now i (self.now.block.first + s) ⊗ difference_at (λ r. half_entry self.now.maker.m.now r j) self.now.maker.n (self.now.block.first + s))) self.now.maker.n }
    {
        // kept as an index loop: i is a row of M as well as of M A M, and each row of a triangle is a number longer than the one before
        for i in 0..self.maker.n {
            self.add_to_row(mam, i);
        }
    }
}

// How many terms are added to every entry before the next.
const TERMS: usize = 16;

// M A M, from M. It has room of its own: of W numbers for the sixteen rows of a block, which stand N apart, and of N for
// each of two rows of M. To clear much of it costs a small matrix more than the products do; at the stride of the largest
// `rows::add_terms` takes sixteen terms a pass.
fn products<const W: usize, const N: usize>(mam: &mut [f64], maker: Maker)
    requires { (Square maker.n mam.old) × (maker.n ≤ N) × (16 * N ≤ W) × (W ≤ 16 * max_rows) }
    ensures { mam.new ≡ half (λ i j. sum_of maker.entry.n (λ t. half_entry maker.entry.m.now i t ⊗ difference_at (λ s. half_entry maker.entry.m.now s j) maker.entry.n t)) maker.entry.n }
{
    let n = maker.n;
    let mut w = [0.0f64; W];
    let mut before = [0.0f64; N];
    let mut here = [0.0f64; N];
    rows::fill(mam, -0.0);
    for first in (0..n).step_by(TERMS) {
        let count = TERMS.min(n - first);
        let block = Block { first, count };
        maker.load_rows(&mut w, N, &mut before[..n], &mut here[..n], block);
        let rows = Rows {
            maker,
            w: &w,
            stride: N,
            block,
        };
        rows.add(mam);
    }
}

// Up to how many rows count as few, and the room for sixteen rows of few or of any.
const FEW: usize = 16;

const FEW_WIDE: usize = TERMS * FEW;

const ANY_WIDE: usize = TERMS * MAX_ROWS;

// What M is made of: a sheet, whose columns are X, and (X'X)^-1.
#[derive(Clone, Copy)]
struct Fit<'a> {
    sheet: Sheet<'a>,
    inv: &'a Matrix,
}

impl<'a> Fit<'a> {
    // Entry (t, c) of X (X'X)^-1.
    fn weight(&self, t: usize, c: usize) -> f64
        requires { (t < self.now.sheet.size.rows) × (c < max_columns) }
        ensures { result ≡ weight self.now.sheet.run.now self.now.inv.now self.now.sheet.size.rows self.now.sheet.size.columns t c }
    {
        let n = self.sheet.size.rows;
        let k = self.sheet.size.columns;
        let mut s = -0.0f64;
        // kept as an index loop: m picks a column of X and a row of the inverse at once, which an iterator says no plainer
        for m in 0..k {
            s = s + self.sheet.run[m * n + t] * self.inv[m][c];
        }
        s
    }

    // Row i of X (X'X)^-1.
    fn weights(&self, u: &mut [f64], i: usize)
        requires { (length u.old ≡ self.now.sheet.size.columns) × (i < self.now.sheet.size.rows) }
        ensures { u.new ≡ table (λ c. weight self.now.sheet.run.now self.now.inv.now self.now.sheet.size.rows self.now.sheet.size.columns i c) self.now.sheet.size.columns }
    {
        rows::update(u, |c, _| self.weight(i, c));
    }

    // X (X'X)^-1 X'.
    fn hat(&self, m: &mut [f64])
        requires { Square self.now.sheet.size.rows m.old }
        ensures { m.new ≡ half (hat self.now.sheet.run.now self.now.inv.now self.now.sheet.size.rows self.now.sheet.size.columns) self.now.sheet.size.rows }
    {
        let n = self.sheet.size.rows;
        let k = self.sheet.size.columns;
        let mut row = [0.0f64; MAX_COLUMNS];
        let u = &mut row[..k];
        rows::fill(m, -0.0);
        // kept as an index loop: each row of a triangle is a number longer than the one before, so chunks do not fit
        for i in 0..n {
            self.weights(u, i);
            matrix::add_to_row(m, i, self.sheet.run, n, u);
        }
    }

    // M = I - X (X'X)^-1 X'.
    fn residual_maker(&self, m: &mut [f64])
        requires { Square self.now.sheet.size.rows m.old }
        ensures { m.new ≡ half (residual self.now.sheet.run.now self.now.inv.now self.now.sheet.size.rows self.now.sheet.size.columns) self.now.sheet.size.rows }
    {
        self.hat(m);
        matrix::negate(m);
        matrix::add_identity(m, self.sheet.size.rows);
    }

    // M into the second half of the room, then M A M into the first.
    fn fill_room(&self, room: &mut [f64])
        requires { Squares self.now.sheet.size.rows room.old }
        ensures { room.new ≡ half (product self.now.sheet.run.now self.now.inv.now self.now.sheet.size.rows self.now.sheet.size.columns) self.now.sheet.size.rows ++ (half (residual self.now.sheet.run.now self.now.inv.now self.now.sheet.size.rows self.now.sheet.size.columns) self.now.sheet.size.rows ++ drop (triangle self.now.sheet.size.rows + triangle self.now.sheet.size.rows) room.old) }
    {
        let n = self.sheet.size.rows;
        let half = halves::place(n, 0);
        let (mam, rest) = room.split_at_mut(half);
        let m = &mut rest[..half];
        self.residual_maker(m);
        let maker = Maker { m, n };
        if n <= FEW {
            products::<FEW_WIDE, FEW>(mam, maker);
        } else {
            products::<ANY_WIDE, MAX_ROWS>(mam, maker);
        }
    }
}

// M A M in the first n (n + 1) / 2 numbers of the room and M in the next, the lower triangle of each; the rest of the
// room stays. The answer is the first number of M A M that is not finite.
pub fn mam(room: &mut [f64], sheet: Sheet, inv: Matrix) -> Option<usize>
    requires { matrix_room sheet.size.rows ≤ length room.old }
    ensures value { result ≡ first_bad (half_of sheet.entry.size.rows (mam_of sheet.entry.run.now inv sheet.entry.size.rows sheet.entry.size.columns)) }
    ensures room_after { room.new ≡ half_of sheet.entry.size.rows (mam_of sheet.entry.run.now inv sheet.entry.size.rows sheet.entry.size.columns) ++ (half_of sheet.entry.size.rows (residual_maker sheet.entry.run.now inv sheet.entry.size.rows sheet.entry.size.columns) ++ drop (matrix_room sheet.entry.size.rows) room.old) }
{
    let fit = Fit { sheet, inv: &inv };
    fit.fill_room(room);
    let searched = halves::place(sheet.size.rows, 0);
    floats::search::first_bad(&room[..searched])
}
