// Words put into a buffer: digits, a word, a line. Each function puts what it says at the front of the buffer it is lent, and the rest stays.
ghost use Rattle.std.specs.Prelude.{◌≡◌, [], ◌∷◌, ◌++◌, ◌+◌, ◌<◌, ◌≤◌, ltb, length};
ghost use Rattle.lines.specs.Lines.{digit_of, digits, width_of, text_of, widest_of, behind, line_of, longest_of, kinds_of, kind_at, words_at, put_at};

// How a word is printed: a number in decimal, a pattern of 64 bits in 16 hex digits.
#[derive(Clone, Copy, Debug, PartialEq, Eq)]
pub enum Kind {
    Decimal,
    Hex,
}

// The most bytes that a word takes, with the one behind it: a number has 20 digits at most.
pub const WIDEST_DECIMAL: usize = 21;

pub const WIDEST_HEX: usize = 17;

impl Kind {
    fn widest(self) -> usize
        ensures { result ≡ widest_of self }
    {
        match self {
            Kind::Decimal => WIDEST_DECIMAL,
            Kind::Hex => WIDEST_HEX,
        }
    }
}

fn digit(d: u64) -> u8
    requires { d < 16 }
    ensures { result ≡ digit_of d }
{
    if d < 10 { 48 + d as u8 } else { 87 + d as u8 }
}

// How many decimal digits `n` has.
fn width(n: u64) -> usize
    ensures { (result ≡ width_of n) × (result ≤ 20) }
{
    match n.checked_ilog10() {
        Some(k) => k as usize + 1,
        None => 1,
    }
}

// Fills `out` with as many digits of `n` to the base `base`, the last ones of it, the highest first. By hand: fmt would write into a text of its own first.
fn put_digits(out: &mut [u8], n: u64, base: u64)
    requires { (0 < base) × (base ≤ 16) }
    ensures { out.new ≡ digits base (length out.old) n }
{
    let mut rest = n;
    // kept as an index loop: after one over iter_mut().rev() a proof knows nothing of the slice
    for t in (0..out.len()).rev() {
        out[t] = digit(rest % base);
        rest /= base;
    }
}

// The last `k` digits of `n` to the base `base`, and the byte `after` behind them; gives how many bytes these are.
fn put_number(out: &mut [u8], n: u64, base: u64, k: usize, after: u8) -> usize
    requires { (0 < base) × (base ≤ 16) × (k + 1 ≤ length out.old) }
    ensures { (result ≡ k + 1) × (out.new ≡ put_at 0 (digits base k n ++ (after ∷ [])) out.old) }
{
    put_digits(&mut out[..k], n, base);
    out[k] = after;
    k + 1
}

// A word, and the byte `after` behind it; gives how many bytes these are.
fn put_word(out: &mut [u8], kind: Kind, n: u64, after: u8) -> usize
    requires { widest_of kind ≤ length out.old }
    ensures { (result ≡ length (text_of kind n ++ (after ∷ []))) × (out.new ≡ put_at 0 (text_of kind n ++ (after ∷ [])) out.old) }
{
    match kind {
        Kind::Decimal => put_number(out, n, 10, width(n), after),
        Kind::Hex => put_number(out, n, 16, 16, after),
    }
}

// The byte behind a word that `left` words follow.
fn byte_behind(left: usize) -> u8
    ensures { result ≡ behind left }
{
    if left == 0 { b'\n' } else { b' ' }
}

// What a line says: some words, of which those at the places `patterns` are printed in hex.
#[derive(Clone, Copy)]
pub struct Line<'a> {
    pub values: &'a [u64],
    pub patterns: &'a [usize],
}

impl Line<'_> {
    // The kind of word `t`.
    fn kind(self, t: usize) -> Kind
        ensures { result ≡ kind_at self.entry.patterns.now t }
    {
        if self.patterns.contains(&t) {
            Kind::Hex
        } else {
            Kind::Decimal
        }
    }

    // Whether `room` bytes are fewer than the longest line of such words has.
    pub fn lacks_room(self, room: usize) -> bool
        ensures { result ≡ ltb room (longest_of (kinds_of (words_at self.entry.values.now self.entry.patterns.now))) }
    {
        // kept as an index loop: of a word only its place is asked
        let mut left = room;
        for t in 0..self.values.len() {
            let Some(rest) = left.checked_sub(self.kind(t).widest()) else {
                return true;
            };
            left = rest;
        }
        false
    }

    // Puts the line; gives its length.
    pub fn put(self, out: &mut [u8]) -> usize
        requires { longest_of (kinds_of (words_at self.values.now self.patterns.now)) ≤ length out.old }
        ensures { (result ≡ length (line_of (words_at self.entry.values.now self.entry.patterns.now))) × (out.new ≡ put_at 0 (line_of (words_at self.entry.values.now self.entry.patterns.now)) out.old) }
    {
        let mut at = 0;
        for (t, value) in self.values.iter().enumerate() {
            let after = byte_behind(self.values.len() - 1 - t);
            at += put_word(&mut out[at..], self.kind(t), *value, after);
        }
        at
    }
}
