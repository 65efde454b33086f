// The square root by its digits.
ghost use Rattle.std.specs.Prelude.{◌≡◌, ◌+◌, ◌*◌, ◌/◌, ◌%◌, ◌^◌, ◌<◌, ◌≤◌};
ghost use Rattle.roots.specs.Root.{NearRoot, RootBits, root_of};

use super::near::near;

// 2^52, the weight of the leading digit, which a pattern leaves out.
pub const LEADING: u64 = 0x10_0000_0000_0000;

// The whole number nearest to √(m * 2^52).
fn root(m: u64) -> u64
    requires { (2 ^ 52 ≤ m) × (m < 2 ^ 54) }
    ensures { NearRoot (m * 2 ^ 52) result }
{
    let r = near(m * 256);
    if r.base < r.test { r.c + 1 } else { r.c }
}

pub const TWICE: u64 = 0x20_0000_0000_0000; // 2^53

// The bits of the value nearest to √(m * 2^s) units of 2^-1074, for an m of 53 digits. w has those below the leading one, and above
// them s - 52. Where s is odd, the root is that of 2 * m.
fn root_bits(w: u64) -> u64
    requires { (2 ^ 53 ≤ w) × (w < 3068 * 2 ^ 52) }
    ensures { RootBits ((2 ^ 52 + w % 2 ^ 52) * 2 ^ (w / 2 ^ 52 + 52)) result }
{
    let y = w % TWICE;
    (w - y) / 2 + root(y + y.max(LEADING))
}

// That value.
pub fn root_of(w: u64) -> f64
    requires { (2 ^ 53 ≤ w) × (w < 3068 * 2 ^ 52) }
    ensures { result ≡ root_of ((2 ^ 52 + w % 2 ^ 52) * 2 ^ (w / 2 ^ 52 + 52)) }
{
    f64::from_bits(root_bits(w))
}
