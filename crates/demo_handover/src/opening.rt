// A recording that lost its opening while headers went on behind their end line: its first time word
// begins with hex 25, `%`.
ghost use Rattle.std.specs.Prelude.{◌≡◌, length};

use crate::given::{Case, When};
use crate::{print, reading};
use prophesee_raw::Encoding;
use std::io;
use std::io::Write;
use test_text::columns;

fn recording() -> [u8; 24]
    ensures { 24 ≡ length result }
{
    *b"% evt 3\n% end\n\x25\x80\x01\x60\x07\x00\x05\x28\x06\x28"
}

// What the recording is, and what it reads as.
pub fn tell(stdout: &mut impl Write) -> io::Result<()> {
    let bytes = recording();
    let case = Case {
        encoding: Encoding::Evt3,
        headed: true,
        when: When::Later3,
    };
    let mut xs = [0; 16];
    let mut ys = [0; 16];
    let mut ts = [0; 16];
    let mut ps = [0; 16];
    let answer = reading::read(case, &bytes, &mut xs, &mut ys, &mut ts, &mut ps);
    write!(stdout, "% evt 3, % end,")?;
    print::words(stdout, &bytes[14..], 2)?;
    write!(stdout, ": reads as")?;
    match answer {
        Ok(r) => columns::show_events(stdout, &xs, &ys, &ts, &ps, r.count)?,
        Err(why) => write!(stdout, " refused {}", u32::from(why))?,
    }
    writeln!(stdout)
}
