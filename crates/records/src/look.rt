// What a look at the records finds. All float work but the rule's is here, on values.
ghost use Rattle.std.specs.Prelude.{◌≡◌};
ghost use Rattle.floats.specs.declared.tally.Tally.{Tally};
ghost use Rattle.records.specs.Records.{unseen_of, noted_of, sums_of};

use floats::signs::comes_before;
use floats::tally::Tally;
use imhof::{Integral, Part};

// The sums of the records' values and of their errors, first to last, and the place and the record of the greatest error, the last
// among equals.
#[derive(Clone, Copy)]
pub struct Look {
    pub value: f64,
    pub error: f64,
    pub worst: usize,
    pub greatest: Part,
}

impl Look {
    // Before the first record is counted.
    pub fn unseen(p: Part) -> Look
        ensures { result ≡ unseen_of p }
    {
        Look {
            value: -0.0,
            error: -0.0,
            worst: 0,
            greatest: p,
        }
    }

    // Record i counted.
    pub fn noted(self, i: usize, p: Part) -> Look
        ensures { result ≡ noted_of self i p }
    {
        let (worst, greatest) = if comes_before(p.error, self.greatest.error) {
            (self.worst, self.greatest)
        } else {
            (i, p)
        };
        Look {
            value: self.value + p.value,
            error: self.error + p.error,
            worst,
            greatest,
        }
    }

    // The integral that the records add up to, after so much work.
    pub fn sums(self, tally: Tally) -> Integral
        ensures { result ≡ sums_of self tally }
    {
        Integral {
            value: self.value,
            error: self.error,
            tally,
        }
    }
}
