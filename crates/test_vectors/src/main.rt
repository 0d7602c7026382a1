// Replays cases: a case on each line of standard input, an answer line for each on standard output.
// A case is `ID COMMAND WORDS`, its answer `ID` and what the command answers. docs/VECTORS.md says
// where the cases and the expected answers come from. A command has a module of its own.

#![tactic(auto)]

mod hdr;
mod lengths;
mod number;
mod reading;
mod resuming;
mod step;
mod write;
mod writer;

use std::io;
use std::io::Write;
use test_text::{read_full, replay, room, text};

// `read` and the resumes differ in their third byte, `word`, `words` and `write` in their fifth.
fn run(stdout: &mut impl Write, case: &[u8], command: &[u8]) -> io::Result<()> {
    match text::at(command, 0) {
        b's' => step::answer(stdout, case, true),
        b'h' => hdr::answer(stdout, case),
        b'l' => lengths::answer(stdout, case),
        b'n' => number::answer(stdout, case),
        b'a' => resuming::after(stdout, case),
        b'r' if text::at(command, 2) == b's' => {
            resuming::answer(stdout, case, text::at(command, 6))
        }
        b'r' => reading::answer(stdout, case, false),
        _ => {
            match text::at(command, 4) {
                b's' => reading::answer(stdout, case, true),
                b'e' => write::answer(stdout, case),
                _ => step::answer(stdout, case, false),
            }
        }
    }
}

fn main(rt: HostRuntime) -> io::Result<()> {
    let mut cases: [u8; 1572864] = room(0);
    let n = read_full(&mut rt.reader(), &mut cases)?;
    replay(
        &mut io::writer(&rt),
        &cases[..n],
        |stdout, case, command| run(stdout, case, command),
    )
}
