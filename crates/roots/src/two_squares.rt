// The sum of two squares, m² + w² / 4^d: its root from below, by its leading digits, and how it compares with the square of a middle: exactly, both four
// times as large, in 128 bits.
ghost use Rattle.std.specs.Prelude.{◌≡◌, ◌*◌, ◌/◌, ◌^◌, ◌<◌, ◌≤◌};
ghost use Rattle.roots.specs.Squares.{Leading, RootBelow, rounded_at};

use super::near::{Below, near};
use std::cmp::Ordering;

// That sum, for the digits m and w of two numbers whose exponents are d apart.
#[derive(Clone, Copy)]
pub struct TwoSquares {
    pub m: u64,
    pub w: u64,
    pub d: u64,
    ghost ranges: { (m < 2 ^ 53) × (w < 2 ^ 53) × (d ≤ 26) },
}

// A root from below, in steps of 2^k.
#[derive(Clone, Copy)]
pub struct Rooted {
    pub below: Below,
    pub k: u64,
}

// n * n
fn square(n: u64) -> u128
    ensures { result ≡ n * n }
{
    n as u128 * n as u128
}

// The upper half of n * n.
fn high_square(n: u64) -> u64
    ensures { result ≡ n * n / 2 ^ 64 }
{
    (square(n) >> 64) as u64
}

impl TwoSquares {
    // The leading digits, in units of 2^44: what is left out is less than 3 of them.
    fn leading(self) -> u64
        requires { 2 ^ 52 ≤ self.m }
        ensures { Leading self.m self.w self.d result }
    {
        let a = self.m * 2048;
        let b = self.w * 2048 >> (self.d + 1);
        high_square(a) / 4 + high_square(b)
    }

    // The root from below. k is 1 where the sum has a digit more than two of a root's 53.
    pub fn root_below(self) -> Rooted
        requires { 2 ^ 52 ≤ self.m }
        ensures { RootBelow self.m self.w self.d result.below.c result.k result.below.base result.below.test }
    {
        let s = self.leading();
        let k = s >> 62;
        Rooted {
            below: near(s >> (2 * k)),
            k,
        }
    }

    // c or c + 1: by how the sum compares with the square of their middle, k places up. A tie goes to the even one.
    pub fn rounded(self, c: u64, k: u64) -> u64
        requires { (c < 2 ^ 53) × (k ≤ 1) }
        ensures { result ≡ rounded_at self.m self.w self.d c k }
    {
        let small = square(2 * self.w);
        let sum = square(2 * self.m) + (small >> (2 * self.d));
        let middle = square((2 * c + 1) << k);
        let exact = small % (1u128 << (2 * self.d)) == 0;
        match sum.cmp(&middle) {
            Ordering::Less => c,
            Ordering::Equal if exact => c + c % 2,
            _ => c + 1,
        }
    }
}
