// The fields of a bit pattern, and numbers made of such fields.
ghost use Rattle.std.specs.Prelude.{◌≡◌};
ghost use Rattle.elementary.specs.Patterns.{two_to, field_of, raised, digits_of};

use floats::bits::of_bits;

// 2^(j - 1023)
pub fn two_to(j: u64) -> f64
    ensures { result ≡ two_to j }
{
    of_bits(j % 2048 * 0x10_0000_0000_0000)
}

// The exponent field of a pattern.
pub fn field(b: u64) -> f64
    ensures { result ≡ field_of b }
{
    let q = b / 0x10_0000_0000_0000 % 2048;
    (q as u32) as f64
}

// A pattern with its seams moved from the powers of two to the square root of 2 times these.
pub fn raised(b: u64) -> u64
    ensures { result ≡ raised b }
{
    b % 0x8000_0000_0000_0000 + 0x9_5f61_9980_c433
}

// The digits of such a pattern, from sqrt(1/2) to below sqrt(2).
pub fn digits(b: u64) -> f64
    ensures { result ≡ digits_of b }
{
    of_bits(b % 0x10_0000_0000_0000 + 0x3fe6_a09e_667f_3bcd)
}
