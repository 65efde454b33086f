// The vocabulary under everything: sums first to last, signs and the total order, the first number
// that is not finite, bit patterns, the tally of work, and the largest sheet.
#![tactic(auto)]

pub mod bits;
pub mod limits;
pub mod search;
pub mod signs;
pub mod sums;
pub mod tally;
