// A reader that holds a sheet file and the number of its next entry. Its methods only take it apart or put it together; the work is in
// `file::next_at`, over the slice and the number, and `one_further`, over the number.
ghost use Rattle.std.specs.Prelude.{◌≡◌, ◌-◌, length};
ghost use Rattle.std.specs.Iterator.{at_most};
ghost use Rattle.sheet.specs.Reading.{next_of, one_further, NextGives};

use super::file::{Entry, next_at};

// 2^64 - 1.
const LAST_NUMBER: usize = 18_446_744_073_709_551_615;

#[derive(Clone, Copy)]
pub struct Reader<'a> {
    pub file: &'a [u8],
    pub next: usize,
}

// The number behind `i`; behind the last one there is none, and it stays.
fn one_further(i: usize) -> usize
    ensures { result ≡ one_further i }
{
    if i == LAST_NUMBER { i } else { i + 1 }
}

impl<'a> Reader<'a> {
    // At the first entry.
    pub fn new(file: &'a [u8]) -> Reader<'a>
        ensures { (result.file ≡ file.entry) × (result.next ≡ 0) }
    {
        Reader { file, next: 0 }
    }

    // The same file, with another next entry.
    pub fn moved(self, next: usize) -> Reader<'a>
        ensures { (result.file ≡ self.entry.file) × (result.next ≡ next) }
    {
        Reader {
            file: self.file,
            next,
        }
    }

    // The reader one further.
    pub fn advanced(self) -> Reader<'a>
        ensures { (result.file ≡ self.entry.file) × (result.next ≡ one_further self.entry.next) }
    {
        Reader {
            file: self.file,
            next: one_further(self.next),
        }
    }

    // The next entry, or the end.
    pub fn entry(self) -> Option<Entry>
        ensures { result ≡ next_of self.entry.file.now self.entry.next }
    {
        next_at(self.file, self.next)
    }
}

// The entries from the next one on, in order. It ends, since a file has more bytes than entries.
impl<'a> Iterator for Reader<'a> {
    type Item = Entry;

    ghost next_gives = { NextGives };

    ghost remaining = { λ s. at_most (length s.file.now - s.next) };

    fn next(&mut self) -> Option<Entry> {
        let found = self.entry()?;
        *self = self.advanced();
        Some(found)
    }
}

// Entry `i` of a file, through a reader.
pub fn read_entry(file: &[u8], i: usize) -> Option<Entry>
    ensures { result ≡ next_of file.now i }
{
    Reader::new(file).moved(i).entry()
}
