// The Gauss-Kronrod rule of 7 and 15 points.
ghost use Rattle.std.specs.Prelude.{◌≡◌, ◌&&◌, [], ◌∷◌, ◌++◌};
ghost use Rattle.imhof.specs.Integrand.{integrand_of};
ghost use Rattle.imhof.specs.Parts.{finite_part, left_half, right_half};
ghost use Rattle.imhof.specs.Rule.{gk15_of, middle_of, points_of, rule_of};

use super::Part;
use integrand::integrands;

#[derive(Clone, Copy)]
pub struct Halves {
    pub left: Part,
    pub right: Part,
}

impl Halves {
    // Whether both are.
    pub fn are_finite(self) -> bool
        ensures { result ≡ finite_part self.left && finite_part self.right }
    {
        self.left.is_finite() && self.right.is_finite()
    }
}

// How many points the rule has.
pub const RULE_SIZE: usize = 15;

// Nodes on [0, 1], from the outermost to 0.
static GK_X: [f64; 8] = [
    0.991_455_371_120_812_6,
    0.949_107_912_342_758_5,
    0.864_864_423_359_769_1,
    0.741_531_185_599_394_4,
    0.586_087_235_467_691_1,
    0.405_845_151_377_397_2,
    0.207_784_955_007_898_5,
    0.0,
];
// Kronrod's weights of all nodes.
static GK_WK: [f64; 8] = [
    0.022_935_322_010_529_22,
    0.063_092_092_629_978_55,
    0.104_790_010_322_250_2,
    0.140_653_259_715_525_9,
    0.169_004_726_639_267_9,
    0.190_350_578_064_785_4,
    0.204_432_940_075_298_9,
    0.209_482_141_084_727_8,
];
// Gauss's weights of nodes 1, 3, 5 and 7.
static GK_WG: [f64; 4] = [
    0.129_484_966_168_869_7,
    0.279_705_391_489_276_7,
    0.381_830_050_505_118_9,
    0.417_959_183_673_469_4,
];

// Where the rule asks the integrand between a and b: below and above the middle for each node above 0, then the middle; and the middle once more, so that the points are
// an even number. That last place is no point of the rule: no sum reads it, and no count has it.
fn laid(a: f64, b: f64) -> [f64; 16]
    ensures { result ≡ points_of a b ++ (middle_of a b ∷ []) }
{
    let c = 0.5 * (a + b);
    let h = 0.5 * (b - a);
    let mut s = [c; 16];
    // each pair by its place: at chunks_mut a proof knows no element
    for (i, x) in GK_X[..7].iter().enumerate() {
        let x = h * *x;
        s[2 * i] = c - x;
        s[2 * i + 1] = c + x;
    }
    s
}

// The part from a to b, of the integrand's values where `laid` has it asked: Kronrod's estimate, and its distance from Gauss's.
fn gathered(f: &[f64; 16], a: f64, b: f64) -> Part
    ensures { result ≡ rule_of a b f.now }
{
    let h = 0.5 * (b - a);
    let mut k = GK_WK[7] * f[14];
    let mut g = GK_WG[3] * f[14];
    // pairs by their place, as above; Gauss's weights are those of every second pair, so no zip is plainer
    for (i, w) in GK_WK[..7].iter().enumerate() {
        let pair = f[2 * i] + f[2 * i + 1];
        k = k + *w * pair;
        if i % 2 == 1 {
            g = g + GK_WG[i / 2] * pair;
        }
    }
    Part {
        lo: a,
        hi: b,
        value: k * h,
        error: floats::signs::abs((k - g) * h),
    }
}

// The part from a to b: Kronrod's estimate, and its distance from Gauss's. 15 evaluations of the integrand, and one at the sixteenth place, which nothing reads and no count has.
pub fn gk15(weights: &[f64], a: f64, b: f64) -> Part
    ensures { result ≡ gk15_of (integrand_of weights.now) a b }
{
    let mut f = laid(a, b);
    integrands(weights, &mut f);
    gathered(&f, a, b)
}

// The two halves of a part: 2 * RULE_SIZE evaluations are counted.
pub fn bisect(weights: &[f64], p: Part) -> Halves
    ensures left { result.left ≡ left_half (integrand_of weights.now) p }
    ensures right { result.right ≡ right_half (integrand_of weights.now) p }
{
    let mid = 0.5 * (p.lo + p.hi);
    Halves {
        left: gk15(weights, p.lo, mid),
        right: gk15(weights, mid, p.hi),
    }
}
