// How many numbers the exact path wants of the two lent rooms: of matrix room this many for n rows, of part room imhof's PART_ROOM.
ghost use Rattle.std.specs.Prelude.{◌≡◌, ◌≤◌};
ghost use Rattle.floats.specs.Limits.{max_rows};
ghost use Rattle.outcome.specs.Rooms.{room_of};

pub fn matrix_room(n: usize) -> usize
    requires { n ≤ max_rows }
    ensures { result ≡ room_of n }
{
    n * (n + 1)
}
