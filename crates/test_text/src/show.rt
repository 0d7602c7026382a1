// Printing: events, triggers, bytes in hex, encodings, refusals. The programs pass standard output.
use evt_types::{Encoding, RawEvent, RawTrigger, Refusal};
use std::io;
use std::io::Write;

// `t,x,y,p`.
pub fn event(stdout: &mut impl Write, e: RawEvent) -> io::Result<()> {
    write!(stdout, "{},{},{},{}", e.t, e.x, e.y, e.p)
}

// `t,id,value`.
pub fn trigger(stdout: &mut impl Write, g: RawTrigger) -> io::Result<()> {
    write!(stdout, "{},{},{}", g.t, g.id, g.value)
}

// Two hex digits for each byte, `-` for none.
pub fn hex(stdout: &mut impl Write, s: &[u8]) -> io::Result<()> {
    if s.is_empty() {
        return write!(stdout, "-");
    }
    for b in s {
        write!(stdout, "{b:02x}")?;
    }
    Ok(())
}

// `refused`, the table's number, and the count that the refusal tells.
pub fn refusal(stdout: &mut impl Write, why: Refusal) -> io::Result<()> {
    write!(stdout, "refused {}", u32::from(why))?;
    match why {
        Refusal::ColumnsTooShort(n)
        | Refusal::TooFewRecords(n)
        | Refusal::OutputTooShort(n)
        | Refusal::TriggerColumnsTooShort(n) => write!(stdout, " {n}"),
        _ => Ok(()),
    }
}

pub fn encoding(stdout: &mut impl Write, e: Encoding) -> io::Result<()> {
    write!(stdout, "EVT{}", u32::from(e))
}
