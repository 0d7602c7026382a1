// The lines of the text that the listing program prints, each stored into a lent buffer as far as
// it reaches. specs/Listing.antt has what the program prints, specs/Lines.antt what its lines are
// made of, and write_text/specs/Stored.antt what stored means.

#![tactic(auto)]

ghost use Rattle.std.specs.Prelude.{◌≡◌, ◌^◌, ◌<◌};
ghost use Rattle.write_buffer.specs.Columns.{event};
ghost use Rattle.write_text.specs.Stored.{Stored};
ghost use Rattle.listing_lines.specs.Listing.{field, refused_line, read_line, event_line};
ghost use Rattle.listing_lines.specs.Lines.{head_line};

use evt_types::Refusal;
use read_rules::Reading;
use write_text::{put_decimal, put_text};

// A number, and the byte that ends it. Each function here that stores answers where its text ends.
fn field(out: &mut [u8], at: usize, n: u64, end: u8) -> usize
    requires { at < 2 ^ 60 }
    ensures { Stored 21 out.old at (field n end) result out.new }
{
    let e = put_decimal(&mut *out, at, n);
    write_buffer::put8(&mut *out, e, end);
    e + 1
}

fn refused_line(r: Refusal, out: &mut [u8]) -> usize
    ensures { Stored 96 out.old 0 (refused_line r) result out.new }
{
    let a = put_text(&mut *out, 0, b"refused ");
    field(&mut *out, a, u32::from(r) as u64, b'\n')
}

fn read_line(r: Reading, out: &mut [u8]) -> usize
    ensures { Stored 96 out.old 0 (read_line r) result out.new }
{
    let encoding = r.encoding;
    let a = put_text(&mut *out, 0, b"EVT");
    let b = field(&mut *out, a, u32::from(encoding) as u64, b' ');
    let c = field(&mut *out, b, r.width as u64, b' ');
    let d = field(&mut *out, c, r.height as u64, b' ');
    field(&mut *out, d, r.count as u64, b'\n')
}

// The first line for an answer.
pub fn head_text(answer: Result<Reading, Refusal>, out: &mut [u8]) -> usize
    ensures { Stored 96 out.old 0 (head_line answer) result out.new }
{
    match answer {
        Ok(r) => read_line(r, &mut *out),
        Err(r) => refused_line(r, &mut *out),
    }
}

// The line of one event, from `at` on. `requires`: its callers have shown it, of lines so far.
pub fn event_at(t: u64, x: u16, y: u16, p: u8, out: &mut [u8], at: usize) -> usize
    requires { at < 2 ^ 59 }
    ensures { Stored 84 out.old at (event_line (event x y t p)) result out.new }
{
    let a = field(&mut *out, at, t, b' ');
    let b = field(&mut *out, a, x as u64, b' ');
    let c = field(&mut *out, b, y as u64, b' ');
    field(&mut *out, c, p as u64, b'\n')
}
