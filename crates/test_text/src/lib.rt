// What the programs share: reading the input, replaying cases, reading a case's text, and printing its
// answer. docs/VECTORS.md says what a case is. Every function is proved safe and to end; those that make
// room for a call say how long it is.

#![tactic(auto)]

ghost use Rattle.std.specs.Prelude.{◌≡◌, length};
ghost use Rattle.std.specs.Io.{ReadsAtMost};

use std::io;
use std::io::{Read, Write};

pub mod columns;
pub mod given;
pub mod options;
pub mod show;
pub mod state;
pub mod text;

// Room of N entries: bytes of a text or of a recording, or a column. The `ensures` keeps the array itself
// out of its callers' proofs.
pub fn room<T: Copy, const N: usize>(zero: T) -> [T; N]
    ensures { N ≡ length result }
{
    [zero; N]
}

// Reads until the input ends or `into` is full, and answers how many bytes stand at its front.
pub fn read_full(input: &mut impl Read, into: &mut [u8]) -> io::Result<usize>
    ensures { ReadsAtMost result into.new }
{
    let mut done = 0;
    while done < into.len() {
        let n = input.read(&mut into[done..])?;
        if n == 0 {
            break;
        }
        done += n;
    }
    Ok(done)
}

// Replays cases, one on each line, `ID COMMAND WORDS`: a line with the ID, and what `answer` prints for
// the case and its command.
pub fn replay<W: Write, F: Fn(&mut W, &[u8], &[u8]) -> io::Result<()>>(
    stdout: &mut W,
    cases: &[u8],
    answer: F,
) -> io::Result<()>
    requires { F.IsAlwaysCallable answer }
{
    for line in cases.split_inclusive(|&b| b == b'\n') {
        let case = text::field(line, b'\n', 0);
        stdout.write_all(text::field(case, b' ', 0))?;
        write!(stdout, " ")?;
        answer(stdout, case, text::field(case, b' ', 1))?;
        writeln!(stdout)?;
    }
    Ok(())
}
