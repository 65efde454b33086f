// Roots of whole numbers: the first digits by a line and a division, the others by a second division. There is no loop.
ghost use Rattle.std.specs.Prelude.{◌^◌, ◌<◌, ◌≤◌};
ghost use Rattle.roots.specs.Lines.{Good, NearBelow};

use super::lines::line;

// A guess at √(n / 64), of 28 digits: a line near it, 2^5 times as large, and a round of Heron's method. The root lies from g - 1 to
// below g + 2, for every n (proofs/Guess.antt). The ^ and the | change nothing that counts: the compiler sees by them that the
// divisions are of long numbers, and tests for no short ones.
fn guess(n: u64) -> u64
    requires { (2 ^ 60 ≤ n) × (n < 2 ^ 62) }
    ensures { Good n result }
{
    let l = line(n / 0x100_0000_0000_0000 % 64);
    let u = l + l % 4096 * (n / 0x80_0000_0000);
    let q = (n ^ 1) * 4 / u;
    (u + 4 * q) / 64 | 0x800_0000
}

// The first 53 digits c of a root, from below, and how far its square lies above c² + c: by as much as `test` is more than `base`.
#[derive(Clone, Copy)]
pub struct Below {
    pub c: u64,
    pub base: u64,
    pub test: u64,
}

// The root of n * 2^44, or a number less than 3/2 below it. g is the guess at √(n / 64), and a = g - 1. What n has above 64 * a²,
// divided by 64 * (2 * g + 1), is near what that root has above a. 2^25 times as large that is b, and the number is c = a * 2^25 + b.
// n * 2^44 - c² is b * (3 * 2^25 - b) and 2^19 times the rest of the division.
pub fn near(n: u64) -> Below
    requires { (2 ^ 60 ≤ n) × (n < 2 ^ 62) }
    ensures { NearBelow n result.c result.base result.test }
{
    let g = guess(n);
    let a = g - 1;
    let left = n - 8 * a * (8 * a);
    let wide = 128 * g + 64;
    let long = left * 0x200_0000;
    let b = long / wide;
    let rest = long % wide;
    let base = a * 0x200_0000;
    Below {
        c: base + b,
        base,
        test: b * (0x5ff_ffff - b) + rest * 0x8_0000,
    }
}
