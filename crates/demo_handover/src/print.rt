// Printing. The program passes standard output.
ghost use Rattle.std.specs.Prelude.{◌<◌};

use crate::given::{Case, When};
use evt_types::Refusal;
use std::io;
use std::io::Write;
use test_text::show;

// A word's last byte is its highest.
fn word(stdout: &mut impl Write, s: &[u8]) -> io::Result<()> {
    write!(stdout, " ")?;
    for b in s.iter().rev() {
        write!(stdout, "{b:02x}")?;
    }
    Ok(())
}

pub fn words(stdout: &mut impl Write, s: &[u8], size: usize) -> io::Result<()>
    requires { 0 < size }
{
    for bytes in s.chunks_exact(size) {
        word(stdout, bytes)?;
    }
    Ok(())
}

// How many bytes, and their words.
pub fn stream(stdout: &mut impl Write, s: &[u8], size: usize) -> io::Result<()>
    requires { 0 < size }
{
    write!(stdout, "{} bytes:", s.len())?;
    words(stdout, s, size)?;
    writeln!(stdout)
}

// How long a header is, and its lines; nothing where there is none.
pub fn header(stdout: &mut impl Write, s: &[u8]) -> io::Result<()> {
    if s.is_empty() {
        return Ok(());
    }
    writeln!(stdout, "header of {} bytes:", s.len())?;
    stdout.write_all(s)
}

// How an append of n events was answered.
pub fn append(stdout: &mut impl Write, n: usize, answer: Result<usize, Refusal>) -> io::Result<()> {
    match answer {
        Ok(bytes) => writeln!(stdout, "append of {n} events: {bytes} bytes"),
        Err(why) => writeln!(stdout, "append of {n} events: refused {}", u32::from(why)),
    }
}

// Before a cut's line: why no writer resumes there, or nothing where one does.
pub fn resumed(stdout: &mut impl Write, answer: Result<(), Refusal>) -> io::Result<()> {
    match answer {
        Ok(()) => Ok(()),
        Err(why) => write!(stdout, "not resumed, {}: ", u32::from(why)),
    }
}

// The end of a cut's line, where what differs has been said.
pub fn end(stdout: &mut impl Write, exact: bool) -> io::Result<()> {
    writeln!(stdout, "{}", if exact { " exact" } else { "" })
}

pub fn case(stdout: &mut impl Write, c: Case) -> io::Result<()> {
    show::encoding(stdout, c.encoding)?;
    if c.headed {
        write!(stdout, " behind a header")?;
    }
    match c.when {
        When::Early => Ok(()),
        When::Long => write!(stdout, ", past the first loop"),
        When::Later2 | When::Later3 => write!(stdout, ", the body begins with %"),
    }
}

pub fn all(stdout: &mut impl Write, c: Case, exact: bool) -> io::Result<()> {
    case(stdout, c)?;
    if exact {
        writeln!(stdout, ": exact at every cut")
    } else {
        writeln!(stdout, ": differs")
    }
}
