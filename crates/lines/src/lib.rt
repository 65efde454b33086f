// The lines that answer a sheet file: words with one space between, and a newline at the end. The result's line is said here and in
// specs/Fields.antt, field by field, and nowhere else.
#![tactic(auto)]

mod words;

ghost use Rattle.std.specs.Prelude.{◌≡◌};
ghost use Rattle.sheet.specs.Contents.{Counts};
ghost use Rattle.lines.specs.Lines.{line_of, words_at, fronted, front_length, words_fronted, words_length};
ghost use Rattle.lines.specs.Fields.{fields_of, values_of, longest, file_line_of};

use floats::bits::bits_of;
use outcome::Outcome;
use sheet::file::FileRefusal;
use words::{Line, WIDEST_DECIMAL, WIDEST_HEX};

// The words of a line, the index first; and those behind it, which a caller in C is given.
pub const FIELDS: usize = 12;

pub const WORDS: usize = FIELDS - 1;

// The places of those that are patterns: the statistic's and p's.
const HEX_FIELDS: usize = 2;

const PATTERNS: [usize; HEX_FIELDS] = [3, 4];

// The longest line.
pub const LONGEST: usize = WIDEST_DECIMAL * (FIELDS - HEX_FIELDS) + WIDEST_HEX * HEX_FIELDS;

// The words of sheet `i`'s line.
pub fn fields_of(i: usize, o: Outcome) -> [u64; FIELDS]
    ensures { result ≡ values_of i o }
{
    let why = o.refusal;
    let work = o.work;
    [
        i as u64,
        why.number as u64,
        why.place as u64,
        bits_of(o.statistic),
        bits_of(o.p),
        o.path as u64,
        o.fallback as u64,
        o.kept as u64,
        work.sweeps as u64,
        work.bisections as u64,
        work.evaluations as u64,
        o.settled as u64,
    ]
}

// Puts the line of sheet `i` at the front of `out`, and gives its length; 0, and `out` as it was, where `out` is shorter than the longest line.
// 0 is kept for no room, here and below: `front_length` promises it.
pub fn write_line(i: usize, o: Outcome, out: &mut [u8]) -> usize
    ensures value { result ≡ front_length longest (line_of (fields_of i o)) out.old }
    ensures out_after { out.new ≡ fronted longest (line_of (fields_of i o)) out.old }
    ensures counts { Counts result out.new }
{
    write_words(&fields_of(i, o), &PATTERNS, out)
}

// The same for the line of a file refusal. No Display, no plainer: the words of both lines go the same way, and fmt would write into a text that were then copied.
pub fn write_file_refusal(refusal: FileRefusal, out: &mut [u8]) -> usize
    ensures value { result ≡ front_length longest (file_line_of refusal) out.old }
    ensures out_after { out.new ≡ fronted longest (file_line_of refusal) out.old }
    ensures counts { Counts result out.new }
{
    if out.len() < LONGEST {
        return 0;
    }
    let words = [refusal.number(), refusal.index() as u64];
    let line = Line {
        values: &words,
        patterns: &[],
    };
    out[..5].copy_from_slice(b"file ");
    5 + line.put(&mut out[5..])
}

// The same for the line of any words, of which those at the places `patterns` are printed in hex; 0, and `out` as it was, where `out` is shorter than
// the longest line of such words. No words have no line. Kept with two runs: its promise speaks of them, and callers have the words as one run.
pub fn write_words(words: &[u64], patterns: &[usize], out: &mut [u8]) -> usize
    ensures value { result ≡ words_length (words_at words.now patterns.now) out.old }
    ensures out_after { out.new ≡ words_fronted (words_at words.now patterns.now) out.old }
    ensures counts { Counts result out.new }
{
    let line = Line {
        values: words,
        patterns,
    };
    if line.lacks_room(out.len()) {
        return 0;
    }
    line.put(out)
}
