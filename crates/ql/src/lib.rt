// Implicit QL with Wilkinson's shifts on a symmetric tridiagonal matrix: `d` is its diagonal, and
// `e[i]` couples `d[i]` and `d[i + 1]` (Bowdler, Martin, Reinsch, Wilkinson 1968, "tql1"). The
// order of the float steps is the Rust's.
#![tactic(auto)]

ghost use Rattle.std.specs.Prelude.{◌≡◌, ◌+◌, ◌*◌, ◌^◌, ◌≤◌, ◌<◌, length, ◌||◌, cond};
ghost use Rattle.std.specs.Float.Ieee.{lt, le, neg};
ghost use Rattle.floats.specs.Words.{◌⊕◌, ◌⊗◌};
ghost use Rattle.floats.specs.Signs.{abs_of};
ghost use Rattle.ql.specs.Rotation.{epsilon, rotated};
ghost use Rattle.ql.specs.Sweep.{block_end, shift_of, sweep_of};
ghost use Rattle.ql.specs.Ql.{most_sweeps, settled, ql_of, coupling_left, stuck_of};

use floats::tally::Tally;

// Where a sweep stands: the sine and cosine of its last rotation, the entry to rotate and what the
// next diagonal entry loses.
#[derive(Clone, Copy)]
struct Rotation {
    s: f64,
    c: f64,
    g: f64,
    p: f64,
}

// One rotation's outcome: the next rotation, none where the sweep is cut short, and what it stores beside it.
#[derive(Clone, Copy)]
struct Rotated {
    next: Option<Rotation>,
    diagonal: f64,
    coupling: f64,
}

// |x| but for the sign of zero, which no comparison sees: three instructions where `abs` takes seven.
fn size(x: f64) -> f64
    ensures { result ≡ cond (lt x (neg x)) (neg x) x }
{
    if x < -x { -x } else { x }
}

// 2^-52, one unit in the last place of 1.
const EPSILON: f64 = 2.220446049250313e-16;

// Whether the coupling `e` is negligible beside diagonal entries of the sizes `above` and `below`.
fn is_negligible(e: f64, above: f64, below: f64) -> bool
    ensures { result ≡ le (abs_of e) (epsilon ⊗ (above ⊕ below)) }
{
    size(e) <= EPSILON * (above + below)
}

// The entry that the sweep from `m` down to `l` begins with: Wilkinson's shift taken off d[m].
#[tactic(auto, unfolding(crate::specs::Sweep::shift_of))]
fn shift(first: f64, second: f64, last: f64, e: f64) -> f64
    ensures { result ≡ shift_of first second last e }
{
    let g = (second - first) / (2.0 * e);
    let r = roots::hypot(g, 1.0);
    last - first + e / (g + floats::signs::copysign(r, g))
}

// One rotation, on floats alone: `d` and `next` are the two diagonal entries, `e` couples them.
#[tactic(auto, unfolding(crate::specs::Rotation::rotated))]
fn rotate(at: Rotation, d: f64, next: f64, e: f64) -> Rotated
    ensures { result ≡ rotated at d next e }
{
    let f = at.s * e;
    let b = at.c * e;
    let r = roots::hypot(f, at.g);
    if r == 0.0 {
        return Rotated {
            next: None,
            diagonal: next - at.p,
            coupling: r,
        };
    }
    let s = f / r;
    let c = at.g / r;
    let g = next - at.p;
    let h = (d - g) * s + 2.0 * c * b;
    let p = s * h;
    Rotated {
        next: Some(Rotation {
            s,
            c,
            g: c * h - b,
            p,
        }),
        diagonal: g + p,
        coupling: r,
    }
}

// How many sweeps an index's turn may make.
const MOST_SWEEPS: usize = 60;

// The work of all turns, and whether an index still had a coupling left after its own.
#[derive(Clone, Copy)]
pub struct Swept {
    pub work: Tally,
    // kept as a flag: the work beside it is there whether or not a coupling is left
    pub stuck: bool,
}

// The bands of a matrix of n rows, the first n numbers of each run.
#[derive(Drop)]
struct Bands<'a> {
    d: &'a mut [f64],
    e: &'a mut [f64],
    n: usize,
    ghost rows: { (n ≤ length d.now) × (n ≤ length e.now) },
}

impl<'a> Bands<'a> {
    // The last index of the block that begins at `l`: the first from `l` on whose coupling is negligible, else `n - 1`.
    fn block_end(&self, l: usize) -> usize
        requires { l < self.now.n }
        ensures within { (l ≤ result) × (result < self.now.n) }
        ensures value { result ≡ block_end self.now.n self.now.d.now self.now.e.now l }
    {
        let mut above = size(self.d[l]);
        // kept as a for: the size of an entry is carried to the next step, which find would work out twice
        for m in l..self.n - 1 {
            let below = size(self.d[m + 1]);
            if is_negligible(self.e[m], above, below) {
                return m;
            }
            above = below;
        }
        self.n - 1
    }

    // One sweep over the block from `m` down to `l`. It is cut short where a rotation's r is 0.
    fn sweep(&mut self, l: usize, m: usize)
        requires { (l < m) × (m < self.old.n) }
        ensures same_runs { (self.new.d.ghost_name ≡ self.old.d.ghost_name) × (self.new.e.ghost_name ≡ self.old.e.ghost_name) × (self.new.n ≡ self.old.n) }
        ensures d_after { self.new.d.now ≡ (sweep_of l m self.old.d.now self.old.e.now).diagonal }
        ensures e_after { self.new.e.now ≡ (sweep_of l m self.old.d.now self.old.e.now).coupling }
    {
        let mut at = Rotation {
            s: 1.0,
            c: 1.0,
            g: shift(self.d[l], self.d[l + 1], self.d[m], self.e[l]),
            p: 0.0,
        };
        // kept as an index loop: a step reads d[i], d[i + 1] and e[i] and writes d[i + 1] and e[i + 1], parts that overlap
        for i in (l..m).rev() {
            let turn = rotate(at, self.d[i], self.d[i + 1], self.e[i]);
            self.d[i + 1] = turn.diagonal;
            self.e[i + 1] = turn.coupling;
            let Some(next) = turn.next else {
                self.e[m] = 0.0;
                return;
            };
            at = next;
        }
        self.d[l] = self.d[l] - at.p;
        self.e[l] = at.g;
        self.e[m] = 0.0;
    }

    // Index `l`'s turn: sweeps until its coupling is negligible, or as many as it may make; then on, silently.
    fn settle(&mut self, l: usize, work: Tally) -> Tally
        requires { (l < self.old.n) × (work.sweeps + most_sweeps < 2 ^ 64) }
        ensures same_runs { (self.new.d.ghost_name ≡ self.old.d.ghost_name) × (self.new.e.ghost_name ≡ self.old.e.ghost_name) × (self.new.n ≡ self.old.n) }
        ensures value { result ≡ (settled self.old.n l most_sweeps self.old.d.now self.old.e.now work).work }
        ensures d_after { self.new.d.now ≡ (settled self.old.n l most_sweeps self.old.d.now self.old.e.now work).diagonal }
        ensures e_after { self.new.e.now ≡ (settled self.old.n l most_sweeps self.old.d.now self.old.e.now work).coupling }
    {
        let mut tally = work;
        for _ in 0..MOST_SWEEPS {
            let m = self.block_end(l);
            if m == l {
                return tally;
            }
            self.sweep(l, m);
            tally = tally.swept();
        }
        tally
    }

    // Index `l`'s turn, and one look more: whether a coupling is left at it then, or was at an index before it.
    fn settle_and_look(&mut self, l: usize, before: Swept) -> Swept
        requires { (l < self.old.n) × (before.work.sweeps + most_sweeps < 2 ^ 64) }
        ensures same_runs { (self.new.d.ghost_name ≡ self.old.d.ghost_name) × (self.new.e.ghost_name ≡ self.old.e.ghost_name) × (self.new.n ≡ self.old.n) }
        ensures stuck_value { (result.stuck ≡ (before.stuck || coupling_left self.old.n (settled self.old.n l most_sweeps self.old.d.now self.old.e.now before.work).diagonal (settled self.old.n l most_sweeps self.old.d.now self.old.e.now before.work).coupling l)) × (result.work ≡ (settled self.old.n l most_sweeps self.old.d.now self.old.e.now before.work).work) }
        ensures d_after { self.new.d.now ≡ (settled self.old.n l most_sweeps self.old.d.now self.old.e.now before.work).diagonal }
        ensures e_after { self.new.e.now ≡ (settled self.old.n l most_sweeps self.old.d.now self.old.e.now before.work).coupling }
    {
        let work = self.settle(l, before.work);
        let stuck = before.stuck || self.block_end(l) != l;
        Swept { work, stuck }
    }
}

// Every index's turn. The first `n` numbers of `d` end as the eigenvalues, in no order.
// kept with n beside d and e: longer runs may be lent, and d_after and e_after speak of what stands beyond n too
pub fn ql(d: &mut [f64], e: &mut [f64], n: usize, work: Tally) -> Swept
    requires { (n ≤ length d.old) × (n ≤ length e.old) × (work.sweeps + most_sweeps * n < 2 ^ 64) }
    ensures work_value { (result.work ≡ (ql_of n n d.old e.old work).work) × (result.stuck ≡ stuck_of n n d.old e.old work) }
    ensures d_after { d.new ≡ (ql_of n n d.old e.old work).diagonal }
    ensures e_after { e.new ≡ (ql_of n n d.old e.old work).coupling }
{
    let mut bands = Bands { d, e, n };
    let mut swept = Swept { work, stuck: false };
    // kept as an index loop: l is the index whose turn it is, no element of one run
    for l in 0..n {
        swept = bands.settle_and_look(l, swept);
    }
    swept
}
