// The program: reads both texts from standard input and prints the answers, or the refusal.
#![tactic(auto)]

ghost use Rattle.std.specs.Prelude.{◌≤◌, length, IfOk};

use printing::entry::print;
use printing::{INPUT, OUTPUT};
use std::io;
use std::io::{Read, Write};

// Reads to the end of the input, or until the room is full; a part of a text is never run as if it were whole.
// A loop of its own: std's `read_exact` and `copy` try an interrupted read again, where this program gives up.
fn read_all<R: Read>(from: &mut R, room: &mut [u8]) -> io::Result<usize>
    ensures { IfOk result (λ count. count ≤ length room.old) }
{
    let mut done = 0;
    while done < room.len() {
        let more = from.read(&mut room[done..])?;
        if more == 0 {
            break;
        }
        done += more;
    }
    Ok(done)
}

fn complain(rt: &impl Eprint, word: &str) {
    let _ = rt.eprintln(word);
}

// Input, entry, output.
fn main(rt: HostRuntime) {
    let mut input = [0u8; INPUT + 1]; // so that a longer input is told from the longest
    let Ok(length) = read_all(&mut rt.stdin(), &mut input) else {
        complain(&rt, "sheets: standard input cannot be read");
        return;
    };
    let mut out = [0u8; OUTPUT];
    let printed = print(&input[..length], &mut out);
    if io::writer(&rt).write_all(&out[..printed]).is_err() {
        complain(&rt, "sheets: standard output cannot be written");
    }
}
