// A sheet file on standard input, its answer on standard output: one line a sheet, or the one line of a file refusal. The file is read whole, up to one
// byte past the largest, before anything is printed. Where a read fails there is a message on standard error, and nothing is printed; where a write
// fails, a message.
#![tactic(auto)]

ghost use Rattle.std.specs.Prelude.{◌≡◌, ◌+◌, length};
ghost use Rattle.std.specs.Io.{ReadsAtMost};
ghost use Rattle.sheet.specs.Contents.{largest_file};

use answers::MOST_BYTES;
use sheet::file::LARGEST;
use std::io;
use std::io::Read;

// Reads until the room is full, the input ends or a read fails, and gives how many bytes were read into the start of the room.
fn read_input(input: &mut impl Read, file: &mut [u8]) -> io::Result<usize>
    ensures { ReadsAtMost result file.new }
{
    // kept as a loop: without a heap no method of Read tells how many bytes came before the end
    let mut size = 0;
    while size < file.len() {
        let more = input.read(&mut file[size..])?;
        if more == 0 {
            break;
        }
        size += more;
    }
    Ok(size)
}

// Answers what standard input has, as far as the room goes.
fn answer_read(rt: &(impl Input + Print + Eprint), file: &mut [u8])
    requires { length file.old ≡ largest_file + 1 }
{
    let Ok(size) = read_input(&mut rt.reader(), file) else {
        let _ = eprintln!(rt; "dwsheet: standard input can't be read");
        return;
    };
    let mut out = [0u8; MOST_BYTES];
    let n = answers::answer(&file[..size], &mut out);
    if rt.write_all(&out[..n]).is_err() {
        let _ = eprintln!(rt; "dwsheet: standard output can't be written");
    }
}

// The whole sheet program, with room for the largest file and one byte more.
pub fn answer_input(rt: &(impl Input + Print + Eprint)) {
    let mut file = [0u8; LARGEST + 1];
    answer_read(rt, &mut file);
}
