// Whether bytes are read as the first `count` of the given events, in every way.
ghost use Rattle.std.specs.Prelude.{◌≤◌};

use crate::compare::Difference;
use crate::given::{Case, When};
use crate::{given, reading};
use prophesee_raw::{Checkpoint, Opening};
use std::io;
use std::io::Write;

// Where the second slice by time ends: no event may have this time (7).
const LATE: i64 = 17179869184;

// Whether nothing differs. Else says where, and what.
fn told(
    stdout: &mut impl Write,
    judged: Result<(), Difference>,
    bytes: &str,
    call: &str,
) -> io::Result<bool> {
    if let Err(difference) = judged {
        write!(stdout, "{bytes} {call} {difference}")?;
    }
    Ok(judged.is_ok())
}

fn by_number(
    stdout: &mut impl Write,
    when: When,
    bytes: &[u8],
    opened: Opening,
    records: [Checkpoint; 64],
    count: usize,
    name: &str,
) -> io::Result<bool>
    requires { count ≤ 16 }
{
    let half = count / 2;
    let a = reading::by_number(when, bytes, opened, records, 0, half, half);
    let first = told(stdout, a, name, "first by number")?;
    let b = reading::by_number(when, bytes, opened, records, half, 16, count);
    let second = told(stdout, b, name, "second by number")?;
    Ok(first && second)
}

fn by_time(
    stdout: &mut impl Write,
    when: When,
    bytes: &[u8],
    opened: Opening,
    records: [Checkpoint; 64],
    count: usize,
    name: &str,
) -> io::Result<bool>
    requires { count ≤ 16 }
{
    let middle = given::middle(when);
    let part = given::earlier(when, count, middle);
    let a = reading::by_time(when, bytes, opened, records, 0, middle, 0, part);
    let first = told(stdout, a, name, "first by time")?;
    let b = reading::by_time(when, bytes, opened, records, middle, LATE, part, count);
    let second = told(stdout, b, name, "second by time")?;
    Ok(first && second)
}

fn indexed(
    stdout: &mut impl Write,
    case: Case,
    bytes: &[u8],
    spacing: usize,
    count: usize,
    name: &str,
) -> io::Result<bool>
    requires { count ≤ 16 }
{
    let when = case.when;
    let made = reading::open(case, bytes, spacing);
    match made.answer {
        Ok(opened) => {
            let records = made.records;
            let first = by_number(stdout, when, bytes, opened, records, count, name)?;
            let second = by_time(stdout, when, bytes, opened, records, count, name)?;
            Ok(first && second)
        }
        Err(why) => told(stdout, Err(Difference::Refusal(why)), name, "opened"),
    }
}

pub fn reads(
    stdout: &mut impl Write,
    case: Case,
    bytes: &[u8],
    count: usize,
    name: &str,
) -> io::Result<bool>
    requires { count ≤ 16 }
{
    let all = reading::decode(case, bytes, count);
    let decoded = told(stdout, all, name, "decoded")?;
    let spacing = given::spacing(case.encoding);
    let narrow = indexed(stdout, case, bytes, spacing, count, name)?;
    let wide = indexed(stdout, case, bytes, spacing * 2, count, name)?;
    Ok(decoded && narrow && wide)
}
