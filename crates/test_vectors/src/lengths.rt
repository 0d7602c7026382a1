// `ID lengths X,Y,T,P`: `write_rules::check_lengths`, the rules 12 and 4 of an append by the lengths
// of its columns, since none of 2^28 events can be had here. Answers `ok` or `refused N`.
use std::io;
use std::io::Write;
use test_text::{show, text};

pub fn answer(stdout: &mut impl Write, case: &[u8]) -> io::Result<()> {
    let [x, y, t, p] = text::numbers::<4>(text::field(case, b' ', 2));
    match write_rules::check_lengths(x as usize, y as usize, t as usize, p as usize) {
        Ok(()) => write!(stdout, "ok"),
        Err(why) => show::refusal(stdout, why),
    }
}
