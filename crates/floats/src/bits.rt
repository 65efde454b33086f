// Bit patterns, and numbers from bytes.
ghost use Rattle.std.specs.Prelude.{◌≡◌, ◌+◌, ◌<◌, ◌≤◌, length};
ghost use Rattle.std.specs.Float.{binary64};
ghost use Rattle.std.specs.Float.Ieee.{of_bits, to_bits};
ghost use Rattle.floats.specs.Bits.{little_endian, float_at};

// The pattern of x; 0x7ff8000000000000 for every NaN, whose own can't be asked for.
pub fn bits_of(x: f64) -> u64
    ensures { result ≡ to_bits binary64 x }
{
    std::num::f64_to_bits_with_nan(x)
}

// The float with the pattern b, a NaN's too.
pub fn of_bits(b: u64) -> f64
    ensures { result ≡ of_bits binary64 b }
{
    std::num::f64_from_bits_with_nan(b)
}

// The number that `k` bytes of `s` from `i` on stand for, the least byte first.
pub fn little_endian(s: &[u8], i: usize, k: usize) -> u64
    requires { (k ≤ 8) × (i + k ≤ length s.now) }
    ensures { result ≡ little_endian k s.now i }
{
    let mut n: u64 = 0;
    // kept as a loop over places: of the items of s[i..i + k].iter().rev() a proof knows too little to bound the total
    for t in (0..k).rev() {
        n = n * 256 + u64::from(s[i + t]);
    }
    n
}

// The float whose pattern stands in eight bytes of `s` from `i` on.
pub fn float_at(s: &[u8], i: usize) -> f64
    requires { i + 8 ≤ length s.now }
    ensures { result ≡ float_at s.now i }
{
    of_bits(little_endian(s, i, 8))
}
