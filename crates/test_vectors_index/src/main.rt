// Replays cases of the index and of slices: a case on each line of standard input, an answer line for
// each on standard output. A case is `ID COMMAND WORDS`, its answer `ID` and what the command answers.
// docs/VECTORS.md says where the cases and the expected answers come from. The library is called
// through index_fixed, which lends the records.

#![tactic(auto)]

mod opening;
mod record;
mod slicing;
mod source;

use std::io;
use std::io::Write;
use test_text::{read_full, replay, room, text};

fn run(stdout: &mut impl Write, case: &[u8], command: &[u8]) -> io::Result<()> {
    if text::at(command, 0) == b's' {
        return slicing::answer(stdout, case);
    }
    opening::answer(stdout, case, text::at(command, 4) == b'w')
}

fn main(rt: HostRuntime) -> io::Result<()> {
    let mut cases: [u8; 1572864] = room(0);
    let n = read_full(&mut rt.reader(), &mut cases)?;
    replay(
        &mut io::writer(&rt),
        &cases[..n],
        |stdout, case, command| run(stdout, case, command),
    )
}
