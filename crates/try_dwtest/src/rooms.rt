// The two rooms: what they are filled with before a call, and what they hold after it.
ghost use Rattle.std.specs.Prelude.{◌≡◌, ◌+◌, ◌*◌, length};
ghost use Rattle.floats.specs.Limits.{max_rows};
ghost use Rattle.imhof.specs.Room.{part_room};

use floats::bits::bits_of;
use floats::limits::MAX_ROWS;
use imhof::PART_ROOM;
use std::fmt;
use std::num::nearest_usize_to_f64;

// For 256 rows 2n² numbers, nearly twice what they want, and eight more.
pub fn matrix_room() -> [f64; 2 * MAX_ROWS * MAX_ROWS + 8]
    ensures { 2 * max_rows * max_rows + 8 ≡ length result }
{
    [0.0; 2 * MAX_ROWS * MAX_ROWS + 8]
}

// Room for as many parts as there can be, and eight numbers more.
pub fn part_room() -> [f64; PART_ROOM + 8]
    ensures { part_room + 8 ≡ length result }
{
    [0.0; PART_ROOM + 8]
}

// 1, 2, 3, ..: no number is +0, and no two are the same.
fn filler(t: usize) -> f64 {
    nearest_usize_to_f64(t.saturating_add(1))
}

pub fn fill(room: &mut [f64])
    ensures { length room.new ≡ length room.old }
{
    // by a sum, which is quicker than the number of each place
    let mut next = 0.0f64;
    for x in room.iter_mut() {
        next += 1.0;
        *x = next;
    }
}

// Whether the numbers from place `m` on are as `fill` left them.
fn is_filled(room: &[f64], m: usize) -> bool {
    room.iter()
        .enumerate()
        .skip(m)
        .all(|(t, x)| bits_of(*x) == bits_of(filler(t)))
}

// What a room holds after a call.
#[derive(Clone, Copy, Debug, PartialEq, Eq)]
pub enum Content {
    AsFilled,
    Cleared,
    Other,
}

// The word that a line has for it.
impl fmt::Display for Content {
    fn fmt<W: fmt::Write>(&self, f: &mut fmt::Formatter<W>) -> fmt::Result {
        f.write_str(match self {
            Content::AsFilled => "0",
            Content::Cleared => "1",
            Content::Other => "2",
        })
    }
}

// Every number as `fill` left it; else the first `m` +0 and the others as they were; else anything.
pub fn held(room: &[f64], m: usize) -> Content {
    if is_filled(room, 0) {
        Content::AsFilled
    } else if m <= room.len() && room[..m].iter().all(|x| bits_of(*x) == 0) && is_filled(room, m) {
        Content::Cleared
    } else {
        Content::Other
    }
}
