// The part room: four runs of MOST_PARTS numbers, for left ends, right ends, values and error estimates.
// Kept as four runs in one lent slice: `parts_after` of prob_below_zero says of each number in it what it holds afterwards, and callers in C lend it.
ghost use Rattle.std.specs.Prelude.{◌≡◌, ◌<◌, ◌≤◌, ◌+◌, length, ◌++◌, ◌∷◌, []};
ghost use Rattle.floats.specs.Sums.{sum_run};
ghost use Rattle.imhof.specs.Parts.{most_parts, values_of, errors_of, worst_of, bisected_at, last_greatest, part_at, without};
ghost use Rattle.imhof.specs.Room.{PartRoom, stored, stored_at, parts_in, laid_out};

use super::{MOST_PARTS, Part};
use floats::signs::comes_before;

// Where each run begins.
const LEFT_ENDS: usize = 0;

const RIGHT_ENDS: usize = MOST_PARTS;

const VALUES: usize = 2 * MOST_PARTS;

const ERRORS: usize = 3 * MOST_PARTS;

// The first n parts of a lent room. Where a function takes the bare slice, as its callers lend it, a clause still asks its length.
#[derive(Drop)]
pub struct Parts<'a> {
    pub room: &'a mut [f64],
    pub n: usize,
    pub ghost fits: { (0 < n) × (n ≤ most_parts) × PartRoom room.now },
}

// The place of the greatest number, the last among equals.
fn last_greatest(errors: &[f64]) -> usize
    requires { 0 < length errors.now }
    ensures bound { result < length errors.now }
    ensures value { result ≡ last_greatest errors.now }
{
    // no max_by: the library's total_cmp wants numbers that are no NaN
    let mut w = 0;
    for (i, e) in errors.iter().enumerate() {
        if !comes_before(*e, errors[w]) {
            w = i;
        }
    }
    w
}

impl<'a> Parts<'a> {
    pub fn part_at(&self, i: usize) -> Part
        requires { i < most_parts }
        ensures { result ≡ stored_at self.now.room.now i }
    {
        Part {
            lo: self.room[LEFT_ENDS + i],
            hi: self.room[RIGHT_ENDS + i],
            value: self.room[VALUES + i],
            error: self.room[ERRORS + i],
        }
    }

    pub fn put(&mut self, i: usize, p: Part)
        requires { i < most_parts }
        ensures same_room { (self.new.room.ghost_name ≡ self.old.room.ghost_name) × (self.new.n ≡ self.old.n) }
        ensures room_after { self.new.room.now ≡ stored i p self.old.room.now }
    {
        self.room[LEFT_ENDS + i] = p.lo;
        self.room[RIGHT_ENDS + i] = p.hi;
        self.room[VALUES + i] = p.value;
        self.room[ERRORS + i] = p.error;
    }

    // The sum of the values.
    pub fn value_sum(&self) -> f64
        ensures { result ≡ sum_run (values_of (parts_in self.now.n self.now.room.now)) }
    {
        floats::sums::sum(&self.room[VALUES..VALUES + self.n])
    }

    // The sum of the error estimates.
    pub fn error_sum(&self) -> f64
        ensures { result ≡ sum_run (errors_of (parts_in self.now.n self.now.room.now)) }
    {
        floats::sums::sum(&self.room[ERRORS..ERRORS + self.n])
    }

    // The part of greatest error, the last among equals.
    pub fn worst(&self) -> usize
        ensures bound { result < self.now.n }
        ensures value { result ≡ worst_of (parts_in self.now.n self.now.room.now) }
    {
        last_greatest(&self.room[ERRORS..ERRORS + self.n])
    }

    // The last takes the place of part w, then two new ones go on the end.
    pub fn replace(&mut self, w: usize, left: Part, right: Part)
        requires { (w < self.old.n) × (self.old.n < most_parts) }
        ensures same_room { self.new.room.ghost_name ≡ self.old.room.ghost_name }
        ensures count { self.new.n ≡ self.old.n + 1 }
        ensures room_after { self.new.room.now ≡ laid_out (without w (parts_in self.old.n self.old.room.now) ++ (left ∷ right ∷ [])) self.old.room.now }
    {
        let n = self.n;
        let last = self.part_at(n - 1);
        self.put(w, last);
        self.put(n - 1, left);
        self.put(n, right);
        self.n = n + 1;
    }
}
