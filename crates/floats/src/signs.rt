// Signs and sizes: total on every bit pattern.
ghost use Rattle.std.specs.Prelude.{◌≡◌, T};
ghost use Rattle.std.specs.Float.{binary64};
ghost use Rattle.std.specs.Float.Ieee.{fits};
ghost use Rattle.std.specs.Float.Ieee.Scale.{finite};
ghost use Rattle.floats.specs.Signs.{minus, abs_of, copysign_of, max_of, before};

// Neither a NaN nor an infinity. And what owning an f64 tells: the format holds it.
pub fn is_finite(x: f64) -> bool
    ensures value { result ≡ finite x }
    ensures held { T (fits binary64 x) }
{
    f64::is_finite(x)
}

// Whether the sign is minus, at -0 too.
pub fn is_minus(x: f64) -> bool
    ensures { result ≡ minus x }
{
    // beside f64::is_sign_negative, which asks that x is no NaN: this is total
    super::bits::bits_of(x) >= 0x8000_0000_0000_0000
}

// |x|, +0 at both zeros.
pub fn abs(x: f64) -> f64
    ensures { result ≡ abs_of x }
{
    f64::abs(x)
}

// |x| with the sign of y.
pub fn copysign(x: f64, y: f64) -> f64
    ensures { result ≡ copysign_of x y }
{
    // beside f64::copysign, which asks the same of y
    if is_minus(y) { -abs(x) } else { abs(x) }
}

// Rust's f64::max: the larger, and where one is a NaN the other.
pub fn max(x: f64, y: f64) -> f64
    ensures { result ≡ max_of x y }
{
    // beside f64::max: of two equal numbers its promise says only that it is one of them, max_of says which
    if x < y || x.is_nan() { y } else { x }
}

// Whether x comes before y in the order of f64::total_cmp, neither being a NaN.
pub fn comes_before(x: f64, y: f64) -> bool
    ensures { result ≡ before x y }
{
    // beside f64::total_cmp, which asks that there is no NaN: this is total
    x < y || (x == y && is_minus(x) && !is_minus(y))
}
